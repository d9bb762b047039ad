// The rule S5: the entries of each directory. An entry is found once and then read by its address; "no name twice" compares the pairs of one
// directory, the first eight bytes as two numbers.
#![tactic(auto)]

ghost use Rattle.std.specs.Prelude.{◌≡◌, ◌≢◌, ℕ, ◌+◌, ◌*◌, ◌<◌, ◌≤◌};
ghost use Rattle.base.specs.Bytes.{bytes};
ghost use Rattle.base.specs.Decide.{Decides};
ghost use Rattle.base.specs.Number.{get as num_at};
ghost use Rattle.rules.specs.Tree.{tree, dots, SameName};
ghost use Rattle.rules.specs.Rules.{S3, S5, Dir};
ghost use Rattle.reads.specs.Read.{Spot, shown};
ghost use Rattle.names.specs.Names.{LetterOk, Listing, FreshName, EntryOk, Differs, name_at};

use reads::Card;

// Byte t of n dots.
#[tactic(auto, unfolding(rules::specs::Tree::dots))]
pub fn dot_at(n: usize, t: usize) -> u8
    ensures { result ≡ dots n t }
{
    if t < n { b'.' } else { 0 }
}

// The name of the entry at a is n dots. Here and below the bytes are compared one by one and not as slices: an image reads as 0 past its end.
pub fn is_dots(image: &[u8], a: usize, n: usize) -> bool
    requires { a < 4398046511104 }
    ensures { Decides result (SameName (name_at (bytes image.now) a) (dots n)) }
{
    (0..14).all(|t| base::get(image, a + 2 + t) == dot_at(n, t))
}

// The names of the entries at a and b are the same.
pub fn same_names(image: &[u8], a: usize, b: usize) -> bool
    requires { (a < 4398046511104) × (b < 4398046511104) }
    ensures { Decides result (SameName (name_at (bytes image.now) a) (name_at (bytes image.now) b)) }
{
    (0..14).all(|t| base::get(image, a + 2 + t) == base::get(image, b + 2 + t))
}

// Byte t of the name at a.
pub fn letter_ok(image: &[u8], a: usize, t: usize) -> bool
    requires { (a < 4398046511104) × (t < 14) }
    ensures { Decides result (LetterOk (name_at (bytes image.now) a) t) }
{
    match base::get(image, a + 2 + t) {
        b'/' => false,
        0 => t != 0,
        _ => t == 0 || base::get(image, a + 1 + t) != 0,
    }
}

pub fn good_name(image: &[u8], a: usize) -> bool
    requires { a < 4398046511104 }
    ensures { Decides result ((t : ℕ) → t < 14 → LetterOk (name_at (bytes image.now) a) t) }
{
    (0..14).all(|t| letter_ok(image, a, t))
}

// The number in the two, and in the four bytes at a. Where the image reaches, its length is asked for once and not twice, since the sum can't wrap: each pair
// of names in a directory is compared by these.
fn two_bytes(image: &[u8], a: usize) -> u16
    requires { a < 8796093022208 }
    ensures { result ≡ num_at (bytes image.now) a 2 }
{
    if a + 2 <= image.len() {
        base::read_u16(image, a)
    } else {
        base::get_u16(image, a)
    }
}

fn four_bytes(image: &[u8], a: usize) -> u32
    requires { a < 8796093022208 }
    ensures { result ≡ num_at (bytes image.now) a 4 }
{
    if a + 4 <= image.len() {
        base::read_u32(image, a)
    } else {
        base::get_u32(image, a)
    }
}

// The entry at b is free, or has another name than the one at a: most differ in the first eight bytes, which are compared as two numbers.
pub fn differs(image: &[u8], a: usize, b: usize) -> bool
    requires { (a < 4398046511104) × (b < 4398046511104) }
    ensures { Decides result (Differs (bytes image.now) a b) }
{
    if two_bytes(image, b) == 0 {
        return true;
    }
    if four_bytes(image, a + 2) != four_bytes(image, b + 2) {
        return true;
    }
    if four_bytes(image, a + 6) != four_bytes(image, b + 6) {
        return true;
    }
    !same_names(image, a, b)
}

// No live entry before k, which is at a, has its name.
pub fn fresh_name(card: &Card<'_>, i: usize, n: usize, k: usize, a: usize) -> bool
    requires { S3 card.now.sb (shown card.now) × Listing (shown card.now) i n × (k < n) × Spot (bytes card.now.image.now) (shown card.now) i k a }
    ensures { Decides result (FreshName (tree (shown card.now)) i k) }
{
    (0..k).all(|l| differs(card.image, a, card.spot(i, l)))
}

pub fn entry_ok(card: &Card<'_>, i: usize, n: usize, k: usize) -> bool
    requires { S3 card.now.sb (shown card.now) × Listing (shown card.now) i n × (k < n) }
    ensures { Decides result (EntryOk (tree (shown card.now)) i k) }
{
    let a = card.spot(i, k);
    let x = base::get_u16(card.image, a) as usize;
    if x == 0 {
        return true;
    }
    fresh_name(card, i, n, k, a) && (k < 2 || card.kind(x) != 0 && good_name(card.image, a))
}

pub fn entries_ok(card: &Card<'_>, i: usize, n: usize) -> bool
    requires { S3 card.now.sb (shown card.now) × Listing (shown card.now) i n }
    ensures { Decides result ((k : ℕ) → k < n → EntryOk (tree (shown card.now)) i k) }
{
    (0..n).all(|k| entry_ok(card, i, n, k))
}

pub fn dir_ok(card: &Card<'_>, i: usize, n: usize) -> bool
    requires { S3 card.now.sb (shown card.now) × Listing (shown card.now) i n }
    ensures { Decides result (Dir (tree (shown card.now)) i) }
{
    let a = card.spot(i, 0);
    if base::get_u16(card.image, a) as usize != i {
        return false;
    }
    if !is_dots(card.image, a, 1) {
        return false;
    }
    let b = card.spot(i, 1);
    is_dots(card.image, b, 2) && entries_ok(card, i, n)
}

pub fn dir_if(card: &Card<'_>, i: usize) -> bool
    requires { S3 card.now.sb (shown card.now) }
    ensures { Decides result (((shown card.now).ino i).kind ≡ 1 → Dir (tree (shown card.now)) i) }
{
    card.kind(i) != 1 || dir_ok(card, i, card.size(i) / 16)
}

pub fn s5(card: &Card<'_>) -> bool
    requires { S3 card.now.sb (shown card.now) }
    ensures { Decides result (S5 (tree (shown card.now))) }
{
    (0..card.sb.ninodes as usize).all(|i| dir_if(card, i))
}
