// The buffer cache standing alone (bio.rs): get, release, pin and unpin on a table by value, over lent memory and a lent image.
//
// bget is `get` (find_cached, else recycle and the read of bread), Drop is `release`, and panics are refusals.
#![tactic(auto)]

ghost use Rattle.std.specs.Prelude.{◌≡◌, ℕ, ◌+◌, ◌*◌, ◌<◌, ◌≤◌, length, get_or, set, Ok};
ghost use Rattle.base.specs.Bytes.{bytes};
ghost use Rattle.base.specs.Decide.{Decides};
ghost use Rattle.bio.specs.Order.{front, place_of};
ghost use Rattle.cache.specs.Tables.{Bounded, WellFormed, with_count, holding};
ghost use Rattle.cache.specs.Calls.{Inside, GetGives, ReleaseGives, PinGives, UnpinGives, refused};

use base::Refusal;
use bio::Table;

// The table that a call leaves, and its answer: a get's buffer, nothing more of the other calls; or a refusal, with the table as it was.
#[derive(Clone, Copy)]
pub struct After<T> {
    pub table: Table,
    pub answer: Result<T, Refusal>,
}

fn refused<T>(table: Table, why: Refusal) -> After<T>
    ensures { result ≡ refused table why }
{
    After {
        table,
        answer: Err(why),
    }
}

fn done<T>(table: Table, value: T) -> After<T>
    ensures { result ≡ record { table = table; answer = Ok value } }
{
    After {
        table,
        answer: Ok(value),
    }
}

// No count is over 1,000.
fn bounded(counts: &[u32; 30]) -> bool
    ensures { Decides result (Bounded counts.now) }
{
    counts.iter().all(|n| *n <= 1000)
}

// The order misses no buffer, no block is in two buffers, and no count is over 1,000.
pub fn well_formed(t: Table) -> bool
    ensures { Decides result (WellFormed t) }
{
    t.named() && bio::distinct(&t.blocks, 30, u32::MAX) && bounded(&t.counts)
}

// Buffer j has n references.
fn with_count(mut t: Table, j: usize, n: u32) -> Table
    requires { j < 30 }
    ensures { result ≡ with_count t j n }
{
    t.counts[j] = n;
    t
}

// Buffer j holds block b, with one reference more.
fn hold(mut t: Table, j: usize, b: u32) -> Table
    requires { (j < 30) × (get_or t.counts j 0 < 1000) }
    ensures { result ≡ holding t j b }
{
    t.blocks[j] = b;
    t.counts[j] += 1;
    t
}

// The block lies in the image.
fn inside(image: &[u8], b: u32) -> bool
    ensures { Decides result (Inside b image.now) }
{
    b != u32::MAX && b as usize * 1024 + 1024 <= image.len()
}

// The buffer that has the block, else the least recently released one without references, into which the block is read; a reference more.
pub fn get(table: Table, memory: &mut [u8], image: &[u8], block: u32) -> After<usize>
    ensures { GetGives table memory.old image.now block (result, memory.new) }
{
    if !well_formed(table) {
        return refused(table, Refusal::NotWhole);
    }
    if memory.len() != 30720 || !inside(image, block) {
        return refused(table, Refusal::BadCall);
    }
    let j = base::find(&table.blocks, 30, block);
    if j < 30 {
        if table.counts[j] == 1000 {
            return refused(table, Refusal::BadCall);
        }
        return done(hold(table, j, block), j);
    }
    let k = table.least_recent();
    if 30 <= k {
        return refused(table, Refusal::NoBuffer);
    }
    base::copy_part(memory, k * 1024, image, block as usize * 1024, 1024);
    done(hold(table, k, block), k)
}

// The table with buffer j at the front of the order (move_if_no_ref) and without references.
#[tactic(auto, using(crate::specs::Front::turned))]
fn last_released(t: Table, j: usize) -> Table
    requires { (j < 30) × (place_of j t.order 30 < 30) }
    ensures { result ≡ record { blocks = t.blocks; counts = set t.counts j 0; order = front j t.order } }
{
    let p = base::find(&t.order, 30, j as u32);
    let mut order = t.order;
    order[..=p].rotate_right(1);
    Table {
        order,
        ..with_count(t, j, 0)
    }
}

// A reference less; with the last one the buffer moves to the front.
#[tactic(auto, using(crate::specs::Tables::released_last, crate::specs::Tables::released_more))]
pub fn release(table: Table, index: usize) -> After<()>
    ensures { ReleaseGives table index result }
{
    if !well_formed(table) {
        return refused(table, Refusal::NotWhole);
    }
    if 29 < index || table.counts[index] == 0 {
        return refused(table, Refusal::BadCall);
    }
    let n = table.counts[index];
    if n == 1 {
        return done(last_released(table, index), ());
    }
    done(with_count(table, index, n - 1), ())
}

// A reference more, with no move.
pub fn pin(table: Table, index: usize) -> After<()>
    ensures { PinGives table index result }
{
    if !well_formed(table) {
        return refused(table, Refusal::NotWhole);
    }
    if 29 < index || table.counts[index] == 0 || table.counts[index] == 1000 {
        return refused(table, Refusal::BadCall);
    }
    done(with_count(table, index, table.counts[index] + 1), ())
}

// A reference less, with no move, and never the last one.
pub fn unpin(table: Table, index: usize) -> After<()>
    ensures { UnpinGives table index result }
{
    if !well_formed(table) {
        return refused(table, Refusal::NotWhole);
    }
    if 29 < index || table.counts[index] <= 1 {
        return refused(table, Refusal::BadCall);
    }
    done(with_count(table, index, table.counts[index] - 1), ())
}
