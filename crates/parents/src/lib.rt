// The rule S6: the tree of directories. With the counts of `links`, one more pass over the entries says that each directory is named in the
// directory that its ".." names; then ".." is followed from each, at most ninodes steps.
#![tactic(auto)]

ghost use Rattle.std.specs.Prelude.{◌≡◌, ℕ, ◌+◌, ◌*◌, ◌<◌, ◌≤◌, length};
ghost use Rattle.base.specs.Bytes.{bytes};
ghost use Rattle.base.specs.Decide.{Decides};
ghost use Rattle.rules.specs.Tree.{tree, Reaches};
ghost use Rattle.rules.specs.Rules.{S3, S6};
ghost use Rattle.reads.specs.Read.{Ends, shown};
ghost use Rattle.links.specs.Counts.{Counts};
ghost use Rattle.parents.specs.Climb.{Once, HomeOk, Stays};

use reads::Card;

// Inode i, which n entries name, has one if it is a directory and not the root.
pub fn once_ok(card: &Card<'_>, i: usize, n: u32) -> bool
    ensures { Decides result (Once (tree (shown card.now)) i n) }
{
    card.kind(i) != 1 || i == 1 || n == 1
}

pub fn all_once(card: &Card<'_>, work: &[u32]) -> bool
    requires { 65536 ≤ length work.now }
    ensures { Decides result ((i : ℕ) → i < card.now.sb.ninodes → Once (tree (shown card.now)) i (bytes work.now i)) }
{
    (0..card.sb.ninodes as usize).all(|i| once_ok(card, i, work[i]))
}

// Entry k of directory j, if it names a directory that is not the root, names one whose ".." is j.
pub fn home_ok(card: &Card<'_>, j: usize, k: usize) -> bool
    requires { S3 card.now.sb (shown card.now) × (k < 17152) }
    ensures { Decides result (HomeOk (tree (shown card.now)) j k) }
{
    let x = card.num_of(j, k);
    card.kind(x) != 1 || x == 1 || card.num_of(x, 1) == j
}

// Its entries from the third on, of the first n.
pub fn row_home(card: &Card<'_>, j: usize, n: usize) -> bool
    requires { S3 card.now.sb (shown card.now) × (n ≤ 17152) }
    ensures { Decides result ((k : ℕ) → 2 ≤ k → k < n → HomeOk (tree (shown card.now)) j k) }
{
    (2..n).all(|k| home_ok(card, j, k))
}

pub fn dir_home(card: &Card<'_>, j: usize) -> bool
    requires { S3 card.now.sb (shown card.now) }
    ensures { Decides result ((k : ℕ) → 2 ≤ k → HomeOk (tree (shown card.now)) j k) }
{
    row_home(card, j, card.entries_of(j))
}

pub fn all_home(card: &Card<'_>) -> bool
    requires { S3 card.now.sb (shown card.now) }
    ensures { Decides result ((j : ℕ) → j < card.now.sb.ninodes → (k : ℕ) → 2 ≤ k → HomeOk (tree (shown card.now)) j k) }
{
    (0..card.sb.ninodes as usize).all(|j| dir_home(card, j))
}

// Following ".." from directory i reaches the root.
pub fn climbs(card: &Card<'_>, i: usize) -> bool
    requires { S3 card.now.sb (shown card.now) × Stays card.now.sb.ninodes (tree (shown card.now)) i }
    ensures { Decides result (Reaches (tree (shown card.now)) i) }
{
    let mut x = i;
    for _n in 0..card.sb.ninodes {
        if x == 1 {
            return true;
        }
        x = card.num_of(x, 1);
    }
    x == 1
}

// The same, if inode i is a directory.
pub fn climbs_if(card: &Card<'_>, i: usize) -> bool
    requires { S3 card.now.sb (shown card.now) × (((shown card.now).ino i).kind ≡ 1 → Stays card.now.sb.ninodes (tree (shown card.now)) i) }
    ensures { Decides result (((shown card.now).ino i).kind ≡ 1 → Reaches (tree (shown card.now)) i) }
{
    card.kind(i) != 1 || climbs(card, i)
}

pub fn all_climb(card: &Card<'_>) -> bool
    requires { S3 card.now.sb (shown card.now) × ((i : ℕ) → ((shown card.now).ino i).kind ≡ 1 → Stays card.now.sb.ninodes (tree (shown card.now)) i) }
    ensures { Decides result ((i : ℕ) → i < card.now.sb.ninodes → ((shown card.now).ino i).kind ≡ 1 → Reaches (tree (shown card.now)) i) }
{
    for i in 0..card.sb.ninodes as usize {
        if !climbs_if(card, i) {
            return false;
        }
    }
    true
}

pub fn s6(card: &Card<'_>, work: &[u32]) -> bool
    requires { S3 card.now.sb (shown card.now) × (65536 ≤ length work.now) × Counts card.now.sb (tree (shown card.now)) (bytes work.now) }
    ensures { Decides result (S6 card.now.sb (tree (shown card.now))) }
{
    if card.num_of(1, 1) != 1 {
        return false;
    }
    if work[1] != 0 {
        return false;
    }
    if !all_once(card, work) {
        return false;
    }
    all_home(card) && all_climb(card)
}
