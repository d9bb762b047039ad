// Recording blocks for the next commit (log_write of log.rs), and changing recorded ones in their buffers.
//
// The table and the cache's memory are two parameters: each contract over a struct of a `&Table` and a `&mut [u8]` would owe that its reference
// stays the same one, too.
#![tactic(auto)]

ghost use Rattle.std.specs.Prelude.{◌≡◌, ℕ, ◌+◌, ◌*◌, ◌<◌, ◌≤◌, length, get_or, set};
ghost use Rattle.base.specs.Bytes.{bytes, put};
ghost use Rattle.base.specs.Number.{digit};
ghost use Rattle.base.specs.Decide.{Decides};
ghost use Rattle.bio.specs.Among.{among};
ghost use Rattle.bio.specs.Seen.{buffer_of, seen};
ghost use Rattle.cache.specs.Tables.{chosen};
ghost use Rattle.recording.specs.Record.{Counted, Room, Touches, Recorded};
ghost use Rattle.recording.specs.Store.{Holds, Changed};

use bio::Table;
use state::Volume;

// Where byte off of a block lies in the cache, in the buffer that holds it.
fn place_of(table: &Table, b: u32, off: usize) -> usize
    requires { (buffer_of table.now.blocks table.now.counts b < 30) × (off ≤ 1024) }
    ensures { result ≡ buffer_of table.now.blocks table.now.counts b * 1024 + off }
{
    table.buffer_of(b) * 1024 + off
}

// The changes of a recorded block: a number, a part of a caller's slice, zeros. They are four, since what they put differs in its type; what they
// have in common is `place_of` and one law.
#[tactic(auto, using(crate::specs::Store::changed))]
pub fn put_u16_at(table: &Table, cache: &mut [u8], b: u32, off: usize, x: u16)
    requires { Holds table.now.blocks table.now.counts cache.old b off 2 }
    ensures { Changed table.now.blocks table.now.counts (bytes cache.old) (bytes cache.new) b off 2 (digit x) }
{
    base::put_u16(cache, place_of(table, b, off), x);
}

#[tactic(auto, using(crate::specs::Store::changed))]
pub fn put_u32_at(table: &Table, cache: &mut [u8], b: u32, off: usize, x: u32)
    requires { Holds table.now.blocks table.now.counts cache.old b off 4 }
    ensures { Changed table.now.blocks table.now.counts (bytes cache.old) (bytes cache.new) b off 4 (digit x) }
{
    base::put_u32(cache, place_of(table, b, off), x);
}

pub fn put_part_at(
    table: &Table,
    cache: &mut [u8],
    b: u32,
    off: usize,
    src: &[u8],
    s: usize,
    n: usize,
)
    requires { Holds table.now.blocks table.now.counts cache.old b off n × (s + n ≤ length src.now) }
    ensures { Changed table.now.blocks table.now.counts (bytes cache.old) (bytes cache.new) b off n (λ k. bytes src.now (s + k)) }
{
    base::copy_part(cache, place_of(table, b, off), src, s, n);
}

#[tactic(auto, using(crate::specs::Store::changed))]
pub fn zero_part_at(table: &Table, cache: &mut [u8], b: u32, off: usize, n: usize)
    requires { Holds table.now.blocks table.now.counts cache.old b off n }
    ensures { Changed table.now.blocks table.now.counts (bytes cache.old) (bytes cache.new) b off n (λ k. 0) }
{
    base::clear_part(cache, place_of(table, b, off), n);
}

// A block is recorded.
#[tactic(auto, unfolding(bio::specs::Among::among))]
pub fn is_recorded(homes: &[u32; 30], recorded: usize, b: u32) -> bool
    requires { recorded ≤ 30 }
    ensures { result ≡ among homes.now recorded b }
{
    base::find(homes, recorded, b) < recorded
}

// How many of the first n touched blocks are not recorded.
#[tactic(auto, using(crate::specs::Steps::counted_none, crate::specs::Steps::counted_old, crate::specs::Steps::counted_new))]
pub fn count_news(homes: &[u32; 30], recorded: usize, touched: &[u32; 12], n: usize) -> usize
    requires { (recorded ≤ 30) × (n ≤ 12) }
    ensures { Counted result homes.now recorded touched.now n }
{
    let mut news: usize = 0;
    for i in 0..n {
        if !is_recorded(homes, recorded, touched[i]) {
            news += 1;
        }
    }
    news
}

// Whether they have room: the homes, they and two more fit the log, and the 30 buffers.
#[tactic(auto, using(crate::specs::Steps::room_decides))]
pub fn room(homes: &[u32; 30], recorded: usize, nlog: usize, touched: &[u32; 12], n: usize) -> bool
    requires { (recorded ≤ 30) × (n ≤ 12) }
    ensures { Decides result (Room homes.now recorded nlog touched.now n) }
{
    let news = count_news(homes, recorded, touched, n);
    recorded + news + 2 <= nlog.min(30)
}

// The buffer that a get of a block takes: the one that has it, else the least recently released without references.
#[tactic(auto, using(crate::specs::Steps::choose_own, crate::specs::Steps::choose_new))]
pub fn choose(table: &Table, b: u32) -> usize
    ensures { result ≡ chosen table.now b }
{
    let f = base::find(&table.blocks, 30, b);
    if f < 30 {
        return f;
    }
    table.least_recent()
}

// Those of the first n touched blocks are recorded that were not.
pub fn record_all(
    v: Volume,
    image: &[u8],
    cache: &mut [u8],
    touched: &[u32; 12],
    n: usize,
) -> Volume
    requires { Touches v touched.now n image.now × (n ≤ 12) × (length cache.old ≡ 30720) }
    ensures { Recorded v touched.now n (bytes image.now) (bytes cache.old) result (bytes cache.new) }
{
    let mut w = v;
    for i in 0..n {
        let b = touched[i];
        let last = w.recorded as usize;
        if !is_recorded(&w.homes, last, b) {
            let k = choose(&w.table, b);
            base::copy_part(cache, k * 1024, image, b as usize * 1024, 1024);
            w.table.blocks[k] = b;
            w.table.counts[k] += 1;
            w.homes[last] = b;
            w.recorded += 1;
        }
    }
    w
}
