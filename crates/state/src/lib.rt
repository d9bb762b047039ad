// The state of a volume (log.rs and inode.rs keep it in statics), by value: the superblock's numbers, the buffer table, the recorded homes, how
// many operations are open, the handle slots. `whole` runs at the head of every call, so it marks buffers and does not compare pairs.
#![tactic(auto)]

ghost use Rattle.std.specs.Prelude.{◌≡◌, ℕ, ◌+◌, ◌*◌, ◌<◌, ◌≤◌, length, get_or, Ok, Err};
ghost use Rattle.base.specs.Bytes.{bytes};
ghost use Rattle.base.specs.Decide.{Decides};
ghost use Rattle.bio.specs.Among.{Distinct};
ghost use Rattle.state.specs.Whole.{Card, Counts, Buffered, GoodSlots, Whole};
ghost use Rattle.state.specs.Card.{Written};
ghost use Rattle.state.specs.Marks.{Places, Holder, Met, Agree};
ghost use Rattle.state.specs.Slots.{GoodSlot, GoodBelow, LaterFree, slot_of};

use base::Refusal;
use bio::Table;
use superblock::Super;

// Which inode each slot is for, and how many handles refer to it: 0 is a free slot. bench/whole.c lays the two arrays out so.
#[repr(C)]
#[derive(Clone, Copy)]
pub struct Slots {
    pub inums: [u32; 50],
    pub refs: [u32; 50],
}

// A volume. The first `recorded` homes are the blocks that the next commit writes; `ops` operations are open; `live` is 1 for a mounted volume.
// It is a number and no bool: `whole` answers for every number of it, and bench/whole.c lays the struct out.
#[repr(C)]
#[derive(Clone, Copy)]
pub struct Volume {
    pub sb: Super,
    pub table: Table,
    pub homes: [u32; 30],
    pub recorded: u32,
    pub ops: u32,
    pub slots: Slots,
    pub live: u32,
}

// An open inode: its slot, and the inode's number.
#[repr(C)]
#[derive(Clone, Copy)]
pub struct Handle {
    pub slot: u32,
    pub inum: u32,
}

// The volume that a call leaves, and its answer.
#[derive(Clone, Copy)]
pub struct After<T> {
    pub volume: Volume,
    pub answer: Result<T, Refusal>,
}

// A refusal: the volume is as it was.
pub fn refused<T>(volume: Volume, why: Refusal) -> After<T>
    ensures { result ≡ record { volume = volume; answer = Err why } }
{
    After {
        volume,
        answer: Err(why),
    }
}

// A call that was done.
pub fn done<T>(volume: Volume, value: T) -> After<T>
    ensures { result ≡ record { volume = volume; answer = Ok value } }
{
    After {
        volume,
        answer: Ok(value),
    }
}

// Where a block may be: for each remainder by 256, 1 plus the last buffer whose block has it, 0 for none. Where a remainder comes again, a
// search says whether the block does.
fn place_blocks(places: &mut [u8; 256], blocks: &[u32; 30], size: u32) -> bool
    requires { ((x : ℕ) → bytes places.old x ≡ 0) × (length places.old ≡ 256) }
    ensures { (length places.new ≡ 256) × Places result (bytes places.new) blocks.now size }
{
    for j in 0..30 {
        let b = blocks[j];
        if b < size {
            let at = (b % 256) as usize;
            if places[at] != 0 {
                if base::find(blocks, j, b) < j {
                    return false;
                }
            }
            places[at] = (j + 1) as u8;
        }
    }
    true
}

// The buffer that has block b, or 30: the one at its place, else by a search.
fn holder(places: &[u8; 256], blocks: &[u32; 30], b: u32) -> usize
    requires { (x : ℕ) → bytes places.now x ≤ 30 }
    ensures { Holder blocks.now b result }
{
    let p = places[(b % 256) as usize];
    if p != 0 {
        let j = (p - 1) as usize;
        if blocks[j] == b {
            return j;
        }
    }
    base::find(blocks, 30, b)
}

// Each home must be in range and in a buffer with count 1 that no home before it has marked.
fn mark_homes(marks: &mut [u32; 30], places: &[u8; 256], v: &Volume) -> bool
    requires { (v.now.recorded ≤ 30) × ((x : ℕ) → bytes marks.old x ≡ 0) × (length marks.old ≡ 30) × ((x : ℕ) → bytes places.now x ≤ 30) × Distinct v.now.table.blocks 30 v.now.sb.size }
    ensures { Met result (bytes marks.new) v.now.table.blocks v.now.table.counts v.now.homes v.now.recorded v.now.sb.inodestart v.now.sb.size }
{
    for i in 0..v.recorded as usize {
        let h = v.homes[i];
        if h < v.sb.inodestart || v.sb.size <= h {
            return false;
        }
        let k = holder(places, &v.table.blocks, h);
        if 30 <= k || v.table.counts[k] != 1 || marks[k] != 0 {
            return false;
        }
        marks[k] = 1;
    }
    true
}

// The counts are the marks.
#[tactic(auto, using(crate::specs::Marks::agreed))]
fn agree(marks: &[u32; 30], counts: &[u32; 30]) -> bool
    ensures { Decides result (Agree (bytes marks.now) counts.now) }
{
    marks == counts
}

// The homes and the buffers.
pub fn buffered(v: &Volume) -> bool
    requires { v.now.recorded ≤ 30 }
    ensures { Decides result (Buffered v.now.table.blocks v.now.table.counts v.now.homes v.now.recorded v.now.sb.inodestart v.now.sb.size) }
{
    let mut places = [0; 256];
    if !place_blocks(&mut places, &v.table.blocks, v.sb.size) {
        return false;
    }
    let mut marks = [0; 30];
    mark_homes(&mut marks, &places, v) && agree(&marks, &v.table.counts)
}

impl Slots {
    // The first slot below n that is in use for inode i, or n.
    pub fn slot_of(&self, i: u32, n: usize) -> usize
        requires { n ≤ 50 }
        ensures { result ≡ slot_of self.now.inums self.now.refs i n }
    {
        for k in 0..n {
            if self.refs[k] != 0 && self.inums[k] == i {
                return k;
            }
        }
        n
    }

    // A slot in use: its inode, its count, and no slot before it for the same inode.
    fn good_slot(&self, ninodes: u32, k: usize) -> bool
        requires { k < 50 }
        ensures { Decides result (GoodSlot self.now.inums self.now.refs ninodes k) }
    {
        let i = self.inums[k];
        1 <= i && i < ninodes && self.refs[k] <= 1000 && self.slot_of(i, k) == k
    }

    // No slot from the fourth on is in use: most often so, and seen without a branch for each.
    #[tactic(auto, using(crate::specs::Slots::together_none, crate::specs::Slots::together_more, crate::specs::Slots::together_end))]
    fn later_free(&self) -> bool
        ensures { LaterFree result self.now.refs }
    {
        let mut any = 0;
        for k in 4..50 {
            any = any | self.refs[k];
        }
        any == 0
    }

    // The slots below n that are in use.
    fn good_below(&self, ninodes: u32, n: usize) -> bool
        requires { n ≤ 50 }
        ensures { Decides result (GoodBelow self.now.inums self.now.refs ninodes n) }
    {
        for k in 0..n {
            if self.refs[k] != 0 && !self.good_slot(ninodes, k) {
                return false;
            }
        }
        true
    }

    // The slots: most are free, and only those in use are looked up.
    pub fn good_slots(&self, ninodes: u32) -> bool
        ensures { Decides result (GoodSlots self.now.inums self.now.refs ninodes) }
    {
        if self.later_free() {
            return self.good_below(ninodes, 4);
        }
        self.good_below(ninodes, 50)
    }
}

// The eight numbers in block 1: magic and logstart as on every card, the others these.
fn same_numbers(s: Super, image: &[u8]) -> bool
    requires { 1056 ≤ length image.now }
    ensures { Decides result (Written s (bytes image.now)) }
{
    base::read_u32(image, 1024) == 0x10203040
        && base::read_u32(image, 1028) == s.size
        && base::read_u32(image, 1032) == s.nblocks
        && base::read_u32(image, 1036) == s.ninodes
        && base::read_u32(image, 1040) == s.nlog
        && base::read_u32(image, 1044) == 2
        && base::read_u32(image, 1048) == s.inodestart
        && base::read_u32(image, 1052) == s.bmapstart
}

// Good superblock numbers, and the image's.
pub fn on_card(s: Super, image: &[u8]) -> bool
    ensures { Decides result (Card s image.now) }
{
    superblock::good_numbers(s) && image.len() == s.size as usize * 1024 && same_numbers(s, image)
}

// How many operations are open, and how many blocks are recorded: within the room, none at open 0.
pub fn good_counts(ops: u32, recorded: u32, nlog: u32) -> bool
    requires { 2 ≤ nlog }
    ensures { Decides result (Counts ops recorded nlog) }
{
    ops <= 2 && recorded <= 28 && recorded <= nlog - 2 && (ops != 0 || recorded == 0)
}

// Whether a state is whole, for every state and every image.
pub fn whole(v: Volume, image: &[u8]) -> bool
    ensures { Decides result (Whole v image.now) }
{
    v.live == 1
        && on_card(v.sb, image)
        && good_counts(v.ops, v.recorded, v.sb.nlog)
        && v.table.named()
        && buffered(&v)
        && v.slots.good_slots(v.sb.ninodes)
}
