// Inodes as a volume sees them (inode.rs): an inode's record, the block of a place in its content, and whether it is fit.
//
// Every function reads what is seen of a volume's memory, and changes nothing. The bitmap's block and the indirect block are found once for a test
// and handed on as slices.
#![tactic(auto)]

ghost use Rattle.std.specs.Prelude.{◌≡◌, ℕ, ◌+◌, ◌*◌, ◌<◌, ◌≤◌, length, get_or};
ghost use Rattle.base.specs.Bytes.{bytes};
ghost use Rattle.base.specs.Number.{get as num_at};
ghost use Rattle.base.specs.Decide.{Decides};
ghost use Rattle.superblock.specs.Geometry.{GoodNumbers, inode_addr};
ghost use Rattle.superblock.specs.Node.{node, inode_at};
ghost use Rattle.bio.specs.Memory.{memory};
ghost use Rattle.rules.specs.Fit.{Fit, slot, slot_of};
ghost use Rattle.inode.specs.Lent.{Lent, disk_by};
ghost use Rattle.inode.specs.Slots.{TakenBy, SlotGood};
ghost use Rattle.inode.specs.Tail.{BlankFrom};

use bio::Seen;
use superblock::{Inode, Super};

// Inode i, fetched through its block.
pub fn read_inode(card: &Seen<'_>, s: Super, i: u32) -> Inode
    requires { GoodNumbers s × (i < s.ninodes) }
    ensures { result ≡ inode_at (memory card.now) (inode_addr s i) }
{
    let t = card.block(s.inodestart + i / 16);
    superblock::inode_of(t, 64 * (i % 16) as usize)
}

// The block of the kth kilobyte of an inode's content: the one place where slots are looked up.
pub fn file_block(card: &Seen<'_>, f: Inode, k: usize) -> u32
    requires { k < 268 }
    ensures { result ≡ slot (memory card.now) (node f) (slot_of k) }
{
    if k < 12 {
        return f.addrs[k];
    }
    let b = f.addrs[12];
    if b == 0 {
        return 0;
    }
    let t = card.block(b);
    base::get_u32(t, 4 * (k - 12))
}

// A data block whose bit is set in the bitmap's block.
pub fn taken(map: &[u8], s: Super, b: u32) -> bool
    requires { GoodNumbers s }
    ensures { Decides result (TakenBy s (bytes map.now) b) }
{
    let from = s.bmapstart + s.size / 8192 + 1;
    if b < from || s.size <= b {
        return false;
    }
    let x = base::get(map, (b / 8) as usize);
    base::bit_of(x, (b % 8) as u8) == 1
}

// The address of content block p, of n: a block in use where p is below n, and 0 past that.
pub fn slot_good(map: &[u8], s: Super, n: usize, p: usize, b: u32) -> bool
    requires { GoodNumbers s }
    ensures { Decides result (SlotGood s (bytes map.now) n p b) }
{
    if p < n { taken(map, s, b) } else { b == 0 }
}

// The 13 addresses of an inode with n blocks; the indirect block, address 12, is there exactly where n is over 12.
pub fn addresses_good(map: &[u8], s: Super, f: Inode, n: usize) -> bool
    requires { GoodNumbers s }
    ensures { Decides result ((p : ℕ) → p < 13 → SlotGood s (bytes map.now) n p (get_or f.addrs p 0)) }
{
    (0..13).all(|p| slot_good(map, s, n, p, f.addrs[p]))
}

// Whether all bytes of a block from a on are 0: by the largest, so that the loop needs no branch.
fn blank_from(table: &[u8], a: usize) -> bool
    requires { (length table.now ≡ 1024) × (a ≤ 1024) }
    ensures { Decides result (BlankFrom (bytes table.now) a) }
{
    let mut most: u8 = 0;
    for i in a..1024 {
        most = most.max(table[i]);
    }
    most == 0
}

// The 256 entries of its indirect block: those in use, and those past the count, which are 0.
pub fn entries_good(map: &[u8], s: Super, table: &[u8], n: usize) -> bool
    requires { GoodNumbers s × (length table.now ≡ 1024) }
    ensures { Decides result ((k : ℕ) → k < 256 → SlotGood s (bytes map.now) n (12 + k) (num_at (bytes table.now) (4 * k) 4)) }
{
    let used = n.saturating_sub(12).min(256);
    (0..used).all(|k| taken(map, s, base::read_u32(table, 4 * k))) && blank_from(table, 4 * used)
}

// Whether an inode is fit: exactly rule S3's and refusal 5's test, in one pass over its addresses.
pub fn fit(card: &Seen<'_>, s: Super, f: Inode) -> bool
    requires { Lent s card.now.image.now card.now.cache.now }
    ensures { Decides result (Fit s (disk_by s card.now) (node f)) }
{
    if !rules::shape_ok(f.kind as usize, f.size as usize) {
        return false;
    }
    let n = (f.size as usize + 1023) / 1024;
    let map = card.block(s.bmapstart);
    if !addresses_good(map, s, f, n) {
        return false;
    }
    if n <= 12 {
        return true;
    }
    let table = card.block(f.addrs[12]);
    entries_good(map, s, table, n)
}
