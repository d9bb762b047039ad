// The card's layout (superblock.rs, dinode.rs): the superblock's numbers, the inode record and the directory entry, each by value.
//
// Every function is defined on slices of every length: reads past the end give 0, and a writer asks that its bytes lie in the slice.
#![tactic(auto)]

ghost use Rattle.std.specs.Prelude.{◌≡◌, ℕ, ◌+◌, ◌*◌, ◌<◌, ◌≤◌, length, get_or};
ghost use Rattle.base.specs.Bytes.{bytes, put};
ghost use Rattle.base.specs.Number.{get as num_at};
ghost use Rattle.base.specs.First.{tabulate};
ghost use Rattle.base.specs.Decide.{Decides};
ghost use Rattle.superblock.specs.Geometry.{Laid, GoodNumbers, Good, super_of, inode_block, inode_byte};
ghost use Rattle.superblock.specs.Node.{node, encoded, addr_bytes, inode_at};
ghost use Rattle.superblock.specs.Record.{sized, linked, addressed};
ghost use Rattle.superblock.specs.Entry.{entry_at, entry_bytes, padded as padded_name};
ghost use Rattle.superblock.specs.Blank.{Blank};
ghost use Rattle.superblock.specs.Kind.{code, KindOf};

use base::Refusal;

// The superblock's numbers. The log starts at block 2 on every good card, so that number is not kept.
#[repr(C)]
#[derive(Clone, Copy)]
pub struct Super {
    pub size: u32,
    pub nblocks: u32,
    pub ninodes: u32,
    pub nlog: u32,
    pub inodestart: u32,
    pub bmapstart: u32,
}

// What an inode in use is. On the card it is a number: 0 is a free inode, and over 3 there is no kind.
#[derive(Clone, Copy, PartialEq, Eq)]
pub enum Kind {
    Directory,
    File,
    Device,
}

impl Kind {
    // The number on the card.
    pub fn code(self) -> u16
        ensures { result ≡ code self }
    {
        match self {
            Kind::Directory => 1,
            Kind::File => 2,
            Kind::Device => 3,
        }
    }
}

impl TryFrom<u16> for Kind {
    type Error = Refusal;

    ghost try_from_gives = { KindOf };

    fn try_from(code: u16) -> Result<Self, Refusal> {
        match code {
            1 => Ok(Kind::Directory),
            2 => Ok(Kind::File),
            3 => Ok(Kind::Device),
            _ => Err(Refusal::BadCall),
        }
    }
}

// An inode, kept as the bits on the card: kind, major, minor and nlink are 16 bits each.
#[derive(Clone, Copy)]
pub struct Inode {
    pub kind: u16,
    pub major: u16,
    pub minor: u16,
    pub nlink: u16,
    pub size: u32,
    pub addrs: [u32; 13],
}

impl Inode {
    // Whether it is of that kind.
    pub fn is(&self, kind: Kind) -> bool
        ensures { Decides result (self.now.kind ≡ code kind) }
    {
        self.kind == kind.code()
    }
}

// A directory entry: an inode's number, 0 where the entry is free, and the name's 14 bytes.
#[derive(Clone, Copy)]
pub struct Entry {
    pub inum: u16,
    pub name: [u8; 14],
}

// The superblock's numbers of a card, whatever its length: bytes past its end are 0.
pub fn super_of(image: &[u8]) -> Super
    ensures { result ≡ super_of (bytes image.now) }
{
    Super {
        size: base::get_u32(image, 1028),
        nblocks: base::get_u32(image, 1032),
        ninodes: base::get_u32(image, 1036),
        nlog: base::get_u32(image, 1040),
        inodestart: base::get_u32(image, 1048),
        bmapstart: base::get_u32(image, 1052),
    }
}

// The areas follow each other. The limits are tested before, so that no sum wraps.
fn laid(s: Super) -> bool
    requires { (s.nlog ≤ 30) × (s.ninodes ≤ 65535) × (s.size ≤ 8191) }
    ensures { Decides result (Laid s) }
{
    if s.inodestart != 2 + s.nlog || s.bmapstart != s.inodestart + s.ninodes / 16 + 1 {
        return false;
    }
    let start = s.bmapstart + s.size / 8192 + 1;
    start < s.size && s.nblocks == s.size - start
}

// The numbers are good, whatever they are.
pub fn good_numbers(s: Super) -> bool
    ensures { Decides result (GoodNumbers s) }
{
    12 <= s.nlog
        && s.nlog <= 30
        && 2 <= s.ninodes
        && s.ninodes <= 65535
        && s.size <= 8191
        && laid(s)
}

// A card has a good superblock; one that is too short to have any has not.
pub fn good(image: &[u8]) -> bool
    ensures { Decides result (Good image.now) }
{
    let s = super_of(image);
    base::get_u32(image, 1024) == 0x10203040
        && base::get_u32(image, 1044) == 2
        && good_numbers(s)
        && image.len() == s.size as usize * 1024
}

// Where inode i is: its block, and the byte in it.
pub fn inode_block(s: Super, i: u32) -> u32
    requires { s.inodestart < 65536 }
    ensures { result ≡ inode_block s i }
{
    s.inodestart + i / 16
}

pub fn inode_byte(i: u32) -> usize
    ensures { result ≡ inode_byte i }
{
    64 * (i % 16) as usize
}

// The 13 addresses of a record that starts where the slice does.
fn addrs_of(s: &[u8]) -> [u32; 13]
    ensures { result ≡ tabulate (λ p. num_at (bytes s.now) (12 + 4 * p) 4) 13 }
{
    let mut addrs = [0u32; 13];
    for p in 0..13 {
        addrs[p] = base::get_u32(s, 12 + 4 * p);
    }
    addrs
}

// The record at byte a.
pub fn inode_of(s: &[u8], a: usize) -> Inode
    ensures { result ≡ inode_at (bytes s.now) a }
{
    let t = base::from(s, a);
    Inode {
        kind: base::get_u16(t, 0),
        major: base::get_u16(t, 2),
        minor: base::get_u16(t, 4),
        nlink: base::get_u16(t, 6),
        size: base::get_u32(t, 8),
        addrs: addrs_of(t),
    }
}

// The 13 addresses written into the record at byte a.
fn put_addrs(dst: &mut [u8], a: usize, addrs: &[u32; 13])
    requires { a + 64 ≤ length dst.old }
    ensures { bytes dst.new ≡ put (bytes dst.old) (a + 12) 52 (λ k. addr_bytes (bytes addrs.now) (12 + k)) }
{
    for p in 0..13 {
        base::put_u32(dst, a + 12 + 4 * p, addrs[p]);
    }
}

// The record written at byte a, all 64 bytes of it.
pub fn put_inode(dst: &mut [u8], a: usize, r: Inode)
    requires { a + 64 ≤ length dst.old }
    ensures { bytes dst.new ≡ put (bytes dst.old) a 64 (encoded (node r)) }
{
    base::put_u16(dst, a, r.kind);
    base::put_u16(dst, a + 2, r.major);
    base::put_u16(dst, a + 4, r.minor);
    base::put_u16(dst, a + 6, r.nlink);
    base::put_u32(dst, a + 8, r.size);
    put_addrs(dst, a, &r.addrs);
}

// One field changed, the others kept.
pub fn with_size(r: Inode, size: u32) -> Inode
    ensures { result ≡ sized r size }
{
    Inode { size, ..r }
}

pub fn with_nlink(r: Inode, nlink: u16) -> Inode
    ensures { result ≡ linked r nlink }
{
    Inode { nlink, ..r }
}

pub fn with_addr(r: Inode, p: usize, b: u32) -> Inode
    requires { p < 13 }
    ensures { result ≡ addressed r p b }
{
    let mut q = r;
    q.addrs[p] = b;
    q
}

// A name's 14 bytes: cut at 14, padded with zeros.
pub fn padded(part: &[u8]) -> [u8; 14]
    ensures { result ≡ padded_name part.now }
{
    let mut name = [0u8; 14];
    for k in 0..14 {
        name[k] = base::get(part, k);
    }
    name
}

// The entry at byte a.
pub fn entry_of(s: &[u8], a: usize) -> Entry
    ensures { result ≡ entry_at (bytes s.now) a }
{
    let t = base::from(s, a);
    Entry {
        inum: base::get_u16(t, 0),
        name: padded(base::from(t, 2)),
    }
}

// The entry written at byte a, all 16 bytes of it.
pub fn put_entry(dst: &mut [u8], a: usize, e: Entry)
    requires { a + 16 ≤ length dst.old }
    ensures { bytes dst.new ≡ put (bytes dst.old) a 16 (entry_bytes e) }
{
    base::put_u16(dst, a, e.inum);
    base::copy_part(dst, a + 2, &e.name, 0, 14);
}

// A block of zeros by value: what is written for each newly taken block.
pub fn zero_block() -> [u8; 1024]
    ensures { Blank result }
{
    [0; 1024]
}
