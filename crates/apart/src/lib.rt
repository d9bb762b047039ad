// Whether an inode's held block numbers are distinct: what write and truncate need of it beside fitness. One pass, with a mark for each block.
#![tactic(auto)]

ghost use Rattle.std.specs.Prelude.{◌≡◌, ℕ, ◌+◌, ◌*◌, ◌<◌, ◌≤◌, min};
ghost use Rattle.base.specs.Bytes.{bytes};
ghost use Rattle.base.specs.Decide.{Decides};
ghost use Rattle.superblock.specs.Node.{node};
ghost use Rattle.bio.specs.Memory.{memory};
ghost use Rattle.apart.specs.Apart.{Apart, Once, Held, Climbed, Climbs, slot_by};

use bio::Seen;
use superblock::Inode;

// The block in slot p of an inode whose indirect block is table.
pub fn slot_in(f: Inode, table: &[u8], p: usize) -> u32
    requires { p < 269 }
    ensures { result ≡ slot_by f (bytes table.now) p }
{
    if p < 13 {
        return f.addrs[p];
    }
    base::get_u32(table, 4 * (p - 13))
}

// Whether its first n slots ascend, from 1 on: then they are distinct. So are those of a file that was written in order, and no mark is needed.
// The slots up to 13 ascend to `low`; here are the entries of the indirect block.
fn entries_ascend(f: Inode, table: &[u8], n: usize, low: u32) -> bool
    requires { (n ≤ 269) × Climbed (slot_by f (bytes table.now)) (min n 13) low }
    ensures { Climbs result (slot_by f (bytes table.now)) n }
{
    if n <= 13 {
        return true;
    }
    if table.len() != 1024 {
        return false;
    }
    let m = n - 13;
    let mut last: u32 = low;
    for k in 0..m {
        let b = base::read_u32(table, 4 * k);
        if b <= last {
            return false;
        }
        last = b;
    }
    true
}

// The direct slots are read from the record and the others from the block, so there are two loops.
fn ascends(f: Inode, table: &[u8], n: usize) -> bool
    requires { n ≤ 269 }
    ensures { Climbs result (slot_by f (bytes table.now)) n }
{
    let m = n.min(13);
    let mut last: u32 = 0;
    for p in 0..m {
        let b = f.addrs[p];
        if b <= last {
            return false;
        }
        last = b;
    }
    entries_ascend(f, table, n, last)
}

// Whether its first n slots hold distinct blocks: a mark for each.
fn unmarked(f: Inode, table: &[u8], n: usize) -> bool
    requires { (n ≤ 269) × ((p : ℕ) → p < n → slot_by f (bytes table.now) p < 8192) }
    ensures { Decides result (Once (slot_by f (bytes table.now)) n) }
{
    let mut marks = [false; 8192];
    for p in 0..n {
        let b = slot_in(f, table, p) as usize;
        if marks[b] {
            return false;
        }
        marks[b] = true;
    }
    true
}

// Whether its first n slots hold distinct blocks.
pub fn once(f: Inode, table: &[u8], n: usize) -> bool
    requires { (n ≤ 269) × ((p : ℕ) → p < n → slot_by f (bytes table.now) p < 8192) }
    ensures { Decides result (Once (slot_by f (bytes table.now)) n) }
{
    if ascends(f, table, n) {
        return true;
    }
    unmarked(f, table, n)
}

// Whether an inode holds no block twice. Its slots in use hold block numbers below 8,192, as those of a fit inode do.
pub fn distinct(card: &Seen<'_>, f: Inode) -> bool
    requires { Held (memory card.now) (node f) }
    ensures { Decides result (Apart (memory card.now) (node f)) }
{
    let table = card.block(f.addrs[12]);
    once(f, table, rules::slots_of(f.size as usize))
}
