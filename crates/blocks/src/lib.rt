// The rules S3 and S4: inodes, and the blocks that they hold. S4 makes one pass over the inodes and their addresses, with a mark for each block
// in the lent numbers.
#![tactic(auto)]

ghost use Rattle.std.specs.Prelude.{◌≡◌, true, ℕ, ◌+◌, ◌*◌, ◌<◌, ◌≤◌, length};
ghost use Rattle.base.specs.Bytes.{bytes, put};
ghost use Rattle.base.specs.Decide.{Decides};
ghost use Rattle.rules.specs.Fit.{Shape, Taken, slots, count, held};
ghost use Rattle.rules.specs.Rules.{S3, S4};
ghost use Rattle.reads.specs.Read.{Is, shown};
ghost use Rattle.blocks.specs.Fits.{SlotOk, InodeOk};
ghost use Rattle.blocks.specs.Marks.{BitOk, Fresh, Fits, marked, marked_all, FreshAll};

use reads::Card;

// ---- S3

pub fn taken(card: &Card<'_>, b: usize) -> bool
    ensures { Decides result (Taken card.now.sb (shown card.now) b) }
{
    card.data_start() <= b && b < card.sb.size as usize && card.has_bit(b)
}

// Slot p of inode i, of which the first n are in use.
pub fn slot_ok(card: &Card<'_>, i: usize, n: usize, p: usize) -> bool
    requires { p < 269 }
    ensures { Decides result (SlotOk card.now.sb (shown card.now) i n p) }
{
    let b = card.slot_of(i, p);
    if p < n { taken(card, b) } else { b == 0 }
}

pub fn slots_ok(card: &Card<'_>, i: usize, n: usize) -> bool
    ensures { Decides result ((p : ℕ) → p < 269 → SlotOk card.now.sb (shown card.now) i n p) }
{
    (0..269).all(|p| slot_ok(card, i, n, p))
}

pub fn inode_ok(card: &Card<'_>, i: usize) -> bool
    ensures { Decides result (InodeOk card.now.sb (shown card.now) i) }
{
    let k = card.kind(i);
    if k == 0 {
        return true;
    }
    let s = card.size(i);
    rules::shape_ok(k, s) && slots_ok(card, i, rules::slots_of(s))
}

pub fn inodes_ok(card: &Card<'_>) -> bool
    ensures { Decides result ((i : ℕ) → i < card.now.sb.ninodes → InodeOk card.now.sb (shown card.now) i) }
{
    (0..card.sb.ninodes as usize).all(|i| inode_ok(card, i))
}

pub fn s3(card: &Card<'_>) -> bool
    ensures { Decides result (S3 card.now.sb (shown card.now)) }
{
    card.kind(1) == 1 && inodes_ok(card)
}

// ---- S4

// The first n numbers become 0.
pub fn clear(work: &mut [u32], n: usize)
    requires { n ≤ length work.old }
    ensures { bytes work.new ≡ put (bytes work.old) 0 n (λ k. 0) }
{
    work[..n].fill(0);
}

// How many slots inode i has in use.
pub fn count_of(card: &Card<'_>, i: usize) -> usize
    requires { S3 card.now.sb (shown card.now) }
    ensures { Is result (count (shown card.now) i) 270 }
{
    if card.kind(i) == 0 {
        0
    } else {
        rules::slots_of(card.size(i))
    }
}

// Marks the blocks of the first n slots of inode i, each of which must have no mark yet.
pub fn mark_slots(card: &Card<'_>, i: usize, n: usize, work: &mut [u32]) -> bool
    requires { (n ≤ 269) × Fits (held (shown card.now) i) n × (65536 ≤ length work.old) }
    ensures fresh { Decides result (Fresh (bytes work.old) (held (shown card.now) i) n) }
    ensures marks { result ≡ true → bytes work.new ≡ marked (bytes work.old) (held (shown card.now) i) n }
{
    for p in 0..n {
        let b = card.slot_of(i, p);
        if work[b] != 0 {
            return false;
        }
        work[b] = 1;
    }
    true
}

pub fn mark_all(card: &Card<'_>, work: &mut [u32]) -> bool
    requires { S3 card.now.sb (shown card.now) × (65536 ≤ length work.old) }
    ensures fresh { Decides result (FreshAll (bytes work.old) (shown card.now) card.now.sb.ninodes) }
    ensures marks { result ≡ true → bytes work.new ≡ marked_all (bytes work.old) (shown card.now) card.now.sb.ninodes }
{
    for i in 0..card.sb.ninodes as usize {
        if !mark_slots(card, i, count_of(card, i), work) {
            return false;
        }
    }
    true
}

// Block b's bit, by its mark.
pub fn bit_ok(card: &Card<'_>, b: usize, mark: u32) -> bool
    requires { b < 8192 }
    ensures { Decides result (BitOk card.now.sb (shown card.now) b mark) }
{
    card.has_bit(b) == (b < card.data_start() || mark == 1)
}

pub fn bits_ok(card: &Card<'_>, work: &[u32]) -> bool
    requires { 65536 ≤ length work.now }
    ensures { Decides result ((b : ℕ) → b < 8192 → BitOk card.now.sb (shown card.now) b (bytes work.now b)) }
{
    (0..8192).all(|b| bit_ok(card, b, work[b]))
}

pub fn s4(card: &Card<'_>, work: &mut [u32]) -> bool
    requires { S3 card.now.sb (shown card.now) × (65536 ≤ length work.old) }
    ensures { Decides result (S4 card.now.sb (shown card.now)) }
{
    clear(work, 65536);
    mark_all(card, work) && bits_ok(card, work)
}
