// A card formatted: the whole image written as mkfs does with no files.
//
// Numbers come from outside and are tested before anything is written; the image is then zeroed, and each part is written once.
#![tactic(auto)]

ghost use Rattle.std.specs.Prelude.{◌≡◌, ℕ, ◌+◌, ◌-◌, ◌*◌, ◌/◌, ◌^◌, ◌<◌, ◌≤◌, length, get_or};
ghost use Rattle.base.specs.Bytes.{bytes, put, put_block};
ghost use Rattle.base.specs.Decide.{Decides};
ghost use Rattle.superblock.specs.Geometry.{GoodNumbers};
ghost use Rattle.superblock.specs.Node.{node};
ghost use Rattle.format.specs.Formatted.{numbers_of, words, super_words, ones, root_node, root_block, fresh};
ghost use Rattle.format.specs.Give.{FormatGives};

use base::Refusal;
use superblock::{Entry, Inode, Kind, Super};

// The superblock's numbers. The limits are known, so that no sum wraps.
fn numbers(size: u32, ninodes: u32, nlog: u32) -> Super
    requires { (size ≤ 8191) × (ninodes ≤ 65535) × (nlog ≤ 30) }
    ensures { result ≡ numbers_of size ninodes nlog }
{
    let inodestart = 2 + nlog;
    let bmapstart = inodestart + ninodes / 16 + 1;
    let start = bmapstart + size / 8192 + 1;
    Super {
        size,
        nblocks: size.saturating_sub(start),
        ninodes,
        nlog,
        inodestart,
        bmapstart,
    }
}

// A card with these numbers can be made.
fn good_request(size: u32, ninodes: u32, nlog: u32) -> bool
    ensures { Decides result (GoodNumbers (numbers_of size ninodes nlog)) }
{
    size <= 8191
        && ninodes <= 65535
        && nlog <= 30
        && superblock::good_numbers(numbers(size, ninodes, nlog))
}

// The superblock's eight numbers, from byte 1024 on.
#[tactic(auto, using(crate::specs::Laws::super_written))]
fn put_super(image: &mut [u8], s: Super)
    requires { 2048 ≤ length image.old }
    ensures { bytes image.new ≡ put (bytes image.old) 1024 32 (words (super_words s)) }
{
    base::put_u32(image, 1024, 0x10203040);
    base::put_u32(image, 1028, s.size);
    base::put_u32(image, 1032, s.nblocks);
    base::put_u32(image, 1036, s.ninodes);
    base::put_u32(image, 1040, s.nlog);
    base::put_u32(image, 1044, 2);
    base::put_u32(image, 1048, s.inodestart);
    base::put_u32(image, 1052, s.bmapstart);
}

// The root directory's inode, its one block at start.
#[tactic(auto, using(crate::specs::Laws::root_addrs))]
fn root_inode(start: u32) -> Inode
    ensures { node result ≡ root_node start }
{
    let mut addrs = [0; 13];
    addrs[0] = start;
    Inode {
        kind: Kind::Directory.code(),
        major: 0,
        minor: 0,
        nlink: 1,
        size: 1024,
        addrs,
    }
}

// A byte with its k lowest bits set.
fn low_ones(k: u8) -> u8
    requires { k < 8 }
    ensures { result ≡ 2 ^ k - 1 }
{
    (1 << k) - 1
}

// The first n bits of the bitmap at a: whole bytes, then the last one.
fn put_ones(dst: &mut [u8], a: usize, n: usize)
    requires { a + (n / 8 + 1) ≤ length dst.old }
    ensures { bytes dst.new ≡ put (bytes dst.old) a (n / 8 + 1) (ones n) }
{
    let last = a + n / 8;
    dst[a..last].fill(255);
    dst[last] = low_ones((n % 8) as u8);
}

// The root directory's block by value: "." and "..", then zeros.
fn root_block() -> [u8; 1024]
    ensures { (length result ≡ 1024) × (bytes result ≡ root_block) }
{
    let mut block = superblock::zero_block();
    let one = Entry {
        inum: 1,
        name: superblock::padded(b"."),
    };
    let two = Entry {
        inum: 1,
        name: superblock::padded(b".."),
    };
    superblock::put_entry(&mut block, 0, one);
    superblock::put_entry(&mut block, 16, two);
    block
}

// The root directory's block, written to the card at start.
#[tactic(auto, using(crate::specs::Laws::root_copied))]
fn put_root(image: &mut [u8], start: usize)
    requires { (start + 1) * 1024 ≤ length image.old }
    ensures { bytes image.new ≡ put_block (bytes image.old) start root_block }
{
    base::copy_part(image, start * 1024, &root_block(), 0, 1024);
}

// Everything is zeroed, then each part is written.
fn write_fresh(image: &mut [u8], s: Super)
    requires { (GoodNumbers s) × (length image.old ≡ s.size * 1024) }
    ensures { bytes image.new ≡ fresh s }
{
    let start = s.bmapstart + s.size / 8192 + 1;
    image.fill(0);
    put_super(image, s);
    superblock::put_inode(image, s.inodestart as usize * 1024 + 64, root_inode(start));
    put_ones(image, s.bmapstart as usize * 1024, start as usize + 1);
    put_root(image, start as usize);
}

// The whole image is written, or nothing is.
pub fn format(image: &mut [u8], size: u32, ninodes: u32, nlog: u32) -> Result<(), Refusal>
    ensures { FormatGives image.old size ninodes nlog (result, image.new) }
{
    if !good_request(size, ninodes, nlog) || image.len() != size as usize * 1024 {
        return Err(Refusal::BadCall);
    }
    write_fresh(image, numbers(size, ninodes, nlog));
    Ok(())
}
