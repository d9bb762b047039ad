// The buffer table (bio.rs): 30 buffers of 1,024 bytes in lent memory of 30,720. The Rust's linked raw pointers are numbers in a table by value.
#![tactic(auto)]

ghost use Rattle.std.specs.Prelude.{◌≡◌, ℕ, ◌+◌, ◌*◌, ◌<◌, ◌≤◌, length, get_or};
ghost use Rattle.base.specs.Bytes.{bytes};
ghost use Rattle.base.specs.Decide.{Decides};
ghost use Rattle.bio.specs.Among.{Distinct};
ghost use Rattle.bio.specs.Fresh.{fresh_table};
ghost use Rattle.bio.specs.Mask.{Marks};
ghost use Rattle.bio.specs.Order.{Named, least_recent};
ghost use Rattle.bio.specs.Seen.{buffer_of, seen};
ghost use Rattle.bio.specs.Low.{NoneBelow};
ghost use Rattle.bio.specs.Part.{IsPart, IsBlock};

// For each buffer its block and its references; and the buffers, most recently released first. A buffer that holds nothing has a block
// number that no card has. The three arrays stand side by side and are no array of structs: bench/whole.c lays the table out so, and the definitions
// speak of the three lists.
#[repr(C)]
#[derive(Clone, Copy)]
pub struct Table {
    pub blocks: [u32; 30],
    pub counts: [u32; 30],
    pub order: [u32; 30],
}

impl Table {
    // The table of boot (binit).
    pub fn fresh() -> Self
        ensures { result ≡ fresh_table }
    {
        Table {
            blocks: [4294967295; 30],
            counts: [0; 30],
            order: [
                0, 1, 2, 3, 4, 5, 6, 7, 8, 9, 10, 11, 12, 13, 14, 15, 16, 17, 18, 19, 20, 21, 22,
                23, 24, 25, 26, 27, 28, 29,
            ],
        }
    }

    // Where a search for block b can begin: at 24 where none of the buffers before has it, seen without a branch for each. Recording takes buffers
    // from the end of the first order on, so that most blocks that are held are past that.
    fn begin_at(&self, b: u32) -> usize
        ensures { NoneBelow self.now.blocks b result }
    {
        let mut any = false;
        for j in 0..24 {
            any |= self.blocks[j] == b;
        }
        if any { 0 } else { 24 }
    }

    // The buffer that holds a block, or 30. It is no Option: most callers know by a clause that the block is held, and take the number at once.
    pub fn buffer_of(&self, b: u32) -> usize
        ensures { result ≡ buffer_of self.now.blocks self.now.counts b }
    {
        for j in self.begin_at(b)..30 {
            if self.blocks[j] == b {
                if 0 < self.counts[j] {
                    return j;
                }
            }
        }
        30
    }

    // The buffers that the order names, as bits.
    fn marks(&self) -> u32
        ensures { Marks result self.now.order 30 }
    {
        let mut m: u32 = 0;
        for i in 0..30 {
            let j = self.order[i];
            if j < 30 {
                m |= 1 << j;
            }
        }
        m
    }

    // The order misses no buffer.
    pub fn named(&self) -> bool
        ensures { Decides result (Named self.now.order) }
    {
        self.marks() == 1073741823
    }

    // The least recently released buffer without references, or 30 (recycle: from the tail on).
    pub fn least_recent(&self) -> usize
        ensures { result ≡ least_recent self.now.order self.now.counts }
    {
        for k in 0..30 {
            let j = self.order[29 - k] as usize;
            if j < 30 {
                if self.counts[j] == 0 {
                    return j;
                }
            }
        }
        30
    }
}

// The 1,024 bytes of a slice from i on, and what there is of them where it ends sooner.
pub fn part(s: &[u8], i: usize) -> &[u8]
    ensures { IsPart result.now s.now i }
{
    if s.len() < i {
        return &s[..0];
    }
    if s.len() - i < 1024 {
        return &s[i..];
    }
    let e = i + 1024;
    &s[i..e]
}

// Block b as it is seen, found once: a part of the cache where a buffer holds it, else of the image. The part is lent by these two and not by the
// table, so that a caller may change the table while it holds the block.
pub fn block_in<'a>(table: &Table, image: &'a [u8], cache: &'a [u8], b: u32) -> &'a [u8]
    ensures { IsBlock result.now table.now.blocks table.now.counts cache.now image.now b }
{
    let j = table.buffer_of(b);
    if j < 30 {
        part(cache, j * 1024)
    } else {
        part(image, b as usize * 1024)
    }
}

// What is seen of a volume's memory: a block in a buffer with a reference is read from the cache, every other one from the card.
#[derive(Clone, Copy)]
pub struct Seen<'a> {
    pub table: &'a Table,
    pub image: &'a [u8],
    pub cache: &'a [u8],
}

impl<'a> Seen<'a> {
    // Block b as it is seen.
    pub fn block(&self, b: u32) -> &'a [u8]
        ensures { IsBlock result.now self.now.table.now.blocks self.now.table.now.counts self.now.cache.now self.now.image.now b }
    {
        block_in(self.table, self.image, self.cache, b)
    }
}

// Those of the first n numbers that are below a limit are distinct.
pub fn distinct(xs: &[u32; 30], n: usize, limit: u32) -> bool
    requires { n ≤ 30 }
    ensures { Decides result (Distinct xs.now n limit) }
{
    for i in 0..n {
        let x = xs[i];
        if x < limit {
            let k = base::find(xs, i, x);
            if k < i {
                return false;
            }
        }
    }
    true
}
