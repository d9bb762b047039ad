// Memory, numbers, one bit, searches and refusals: what every other crate reads, writes and answers with.
//
// Slices stand for the card and the cache. A read is total (0 past the end), so that a caller owes no range; a writer asks that what it writes
// lies in its slice. Numbers are little-endian, as on the card. misc.rs of the Rust has its counterparts here.
#![tactic(auto)]

ghost use Rattle.std.specs.Prelude.{◌≡◌, ℕ, ◌+◌, ◌*◌, ◌<◌, ◌≤◌, min, length, get_or, eqb};
ghost use Rattle.base.specs.First.{first};
ghost use Rattle.base.specs.Bytes.{bytes, put};
ghost use Rattle.base.specs.Number.{digit, get as num_at};
ghost use Rattle.base.specs.Bit.{bit_at, with_bit};
ghost use Rattle.base.specs.Refusals.{number};

// Why a call was refused, 1 to 18 in this order.
#[derive(Clone, Copy, PartialEq, Eq)]
pub enum Refusal {
    NotWhole,
    BadCall,
    NoTransaction,
    BadHandle,
    Unfit,
    NotDirectory,
    NoName,
    WrongKind,
    PastEnd,
    TooLarge,
    NoSlot,
    NoInode,
    NoBlock,
    NoLogRoom,
    Busy,
    NoBuffer,
    BadSuper,
    BadLog,
}

impl Refusal {
    // A refusal's number.
    pub fn number(self) -> u32
        ensures { result ≡ number self }
    {
        match self {
            Refusal::NotWhole => 1,
            Refusal::BadCall => 2,
            Refusal::NoTransaction => 3,
            Refusal::BadHandle => 4,
            Refusal::Unfit => 5,
            Refusal::NotDirectory => 6,
            Refusal::NoName => 7,
            Refusal::WrongKind => 8,
            Refusal::PastEnd => 9,
            Refusal::TooLarge => 10,
            Refusal::NoSlot => 11,
            Refusal::NoInode => 12,
            Refusal::NoBlock => 13,
            Refusal::NoLogRoom => 14,
            Refusal::Busy => 15,
            Refusal::NoBuffer => 16,
            Refusal::BadSuper => 17,
            Refusal::BadLog => 18,
        }
    }
}

// A slice's byte, 0 past its end.
pub fn get(s: &[u8], i: usize) -> u8
    ensures { result ≡ bytes s.now i }
{
    if i < s.len() { s[i] } else { 0 }
}

// The byte k past i, however large the two are together.
pub fn get_past(s: &[u8], i: usize, k: usize) -> u8
    ensures { result ≡ bytes s.now (i + k) }
{
    if s.len() <= i {
        return 0;
    }
    if s.len() - i <= k {
        return 0;
    }
    s[i + k]
}

// A slice from i on, empty past its end.
pub fn from(s: &[u8], i: usize) -> &[u8]
    ensures { (k : ℕ) → bytes result.now k ≡ bytes s.now (i + k) }
{
    if i <= s.len() { &s[i..] } else { &s[..0] }
}

// A number of two bytes and one of four have a function each: they differ in the type that they give, and a trait over the two types would be
// longer than the bodies of one line that it saved.
//
// The numbers at an address, bytes past the slice's end being 0.
pub fn get_u16(s: &[u8], a: usize) -> u16
    ensures { result ≡ num_at (bytes s.now) a 2 }
{
    if 2 <= s.len() && a <= s.len() - 2 {
        return read_u16(s, a);
    }
    u16::from_le_bytes([get_past(s, a, 0), get_past(s, a, 1)])
}

pub fn get_u32(s: &[u8], a: usize) -> u32
    ensures { result ≡ num_at (bytes s.now) a 4 }
{
    if 4 <= s.len() && a <= s.len() - 4 {
        return read_u32(s, a);
    }
    u32::from_le_bytes([
        get_past(s, a, 0),
        get_past(s, a, 1),
        get_past(s, a, 2),
        get_past(s, a, 3),
    ])
}

// The same where the slice is known to reach: no test at run time.
pub fn read_u16(s: &[u8], a: usize) -> u16
    requires { a + 2 ≤ length s.now }
    ensures { result ≡ num_at (bytes s.now) a 2 }
{
    u16::from_le_bytes([s[a], s[a + 1]])
}

pub fn read_u32(s: &[u8], a: usize) -> u32
    requires { a + 4 ≤ length s.now }
    ensures { result ≡ num_at (bytes s.now) a 4 }
{
    u32::from_le_bytes([s[a], s[a + 1], s[a + 2], s[a + 3]])
}

// A number's bytes at an address, the lowest first.
pub fn put_u16(dst: &mut [u8], a: usize, v: u16)
    requires { a + 2 ≤ length dst.old }
    ensures { bytes dst.new ≡ put (bytes dst.old) a 2 (digit v) }
{
    dst[a..a + 2].copy_from_slice(&v.to_le_bytes());
}

pub fn put_u32(dst: &mut [u8], a: usize, v: u32)
    requires { a + 4 ≤ length dst.old }
    ensures { bytes dst.new ≡ put (bytes dst.old) a 4 (digit v) }
{
    dst[a..a + 4].copy_from_slice(&v.to_le_bytes());
}

// The n bytes of src from s on go to dst from d on.
pub fn copy_part(dst: &mut [u8], d: usize, src: &[u8], s: usize, n: usize)
    requires { (d + n ≤ length dst.old) × (s + n ≤ length src.now) }
    ensures { bytes dst.new ≡ put (bytes dst.old) d n (λ k. bytes src.now (s + k)) }
{
    dst[d..d + n].copy_from_slice(&src[s..s + n]);
}

// The n bytes from d on become 0.
pub fn clear_part(dst: &mut [u8], d: usize, n: usize)
    requires { d + n ≤ length dst.old }
    ensures { bytes dst.new ≡ put (bytes dst.old) d n (λ k. 0) }
{
    dst[d..d + n].fill(0);
}

// One bit of a byte: read, set, cleared; the other seven stay. Set and cleared are two, since one function with the bit's value would test it.
pub fn bit_of(v: u8, k: u8) -> u8
    requires { k < 8 }
    ensures { result ≡ bit_at v k }
{
    (v >> k) & 1
}

pub fn bit_set(v: u8, k: u8) -> u8
    requires { k < 8 }
    ensures { result ≡ with_bit v k 1 }
{
    v | (1 << k)
}

pub fn bit_clear(v: u8, k: u8) -> u8
    requires { k < 8 }
    ensures { result ≡ with_bit v k 0 }
{
    v & !(1 << k)
}

// Where b is first among the first n numbers, or n.
pub fn find(xs: &[u32; 30], n: usize, b: u32) -> usize
    requires { n ≤ 30 }
    ensures { result ≡ first (λ k. eqb (bytes xs.now k) b) n }
{
    for i in 0..n {
        if xs[i] == b {
            return i;
        }
    }
    n
}
