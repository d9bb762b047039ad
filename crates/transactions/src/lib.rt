// Transactions on a volume (log.rs: initlog, begin_op, end_op): mount recovers the card, begin opens an operation, the last end commits.
//
// Mount and end take the number of block writes that still reach the card, and answer how many did: all that were due, or those before a cut. What is on a card that was pulled is a
// theorem about these calls: specs/PulledCalls.antt.
#![tactic(auto)]

ghost use Rattle.std.specs.Prelude.{◌≡◌, ℕ, ◌+◌, ◌*◌, ◌≤◌, ◌<◌, length, get_or};
ghost use Rattle.base.specs.Bytes.{bytes};
ghost use Rattle.superblock.specs.Geometry.{Good, super_of};
ghost use Rattle.bio.specs.Seen.{buffer_of};
ghost use Rattle.card_log.specs.Journal.{GoodLog, logged};
ghost use Rattle.state.specs.Whole.{Whole};
ghost use Rattle.transactions.specs.Calls.{idle as idle_of, no_volume, with_ops, stopped as stopped_of, ended as ended_of};
ghost use Rattle.transactions.specs.Calls.{Recovered, Committed, MountGives, BeginGives, EndGives};

use base::Refusal;
use bio::Table;
use state::{After, Slots, Volume};
use superblock::Super;

// How many block writes reached the card: all that were due, or those before the cut.
#[derive(Clone, Copy)]
pub enum Written {
    All(usize),
    Cut(usize),
}

// A volume with a fresh table, nothing open, nothing recorded, no slot in use.
#[tactic(auto, unfolding(crate::specs::Calls::idle, base::specs::First::tabulate))]
fn idle(sb: Super, live: u32) -> Volume
    ensures { result ≡ idle_of sb live }
{
    Volume {
        sb,
        table: Table::fresh(),
        homes: [0; 30],
        recorded: 0,
        ops: 0,
        slots: Slots {
            inums: [0; 50],
            refs: [0; 50],
        },
        live,
    }
}

fn no_volume() -> Volume
    ensures { result ≡ no_volume }
{
    let none = Super {
        size: 0,
        nblocks: 0,
        ninodes: 0,
        nlog: 0,
        inodestart: 0,
        bmapstart: 0,
    };
    idle(none, 0)
}

#[tactic(auto, unfolding(crate::specs::Calls::with_ops))]
fn with_ops(v: Volume, ops: u32) -> Volume
    ensures { result ≡ with_ops v ops }
{
    Volume { ops, ..v }
}

// After a commit that was cut.
#[tactic(auto, unfolding(crate::specs::Calls::stopped))]
fn stopped(v: Volume) -> Volume
    ensures { result ≡ stopped_of v }
{
    Volume { live: 0, ..v }
}

// After a commit that finished.
#[tactic(auto, unfolding(crate::specs::Calls::ended, base::specs::First::tabulate))]
fn ended(v: Volume) -> Volume
    ensures { result ≡ ended_of v }
{
    let table = Table {
        counts: [0; 30],
        ..v.table
    };
    Volume {
        table,
        recorded: 0,
        ops: 0,
        ..v
    }
}

// A recovery of a card whose superblock and log header are good.
fn recover(image: &mut [u8], sb: Super, writes: usize) -> After<Written>
    requires { Good image.old × (sb ≡ super_of (bytes image.old)) × GoodLog sb (logged (bytes image.old)) }
    ensures { Recovered image.old writes (result, image.new) }
{
    let n = base::get_u32(image, 2048) as usize;
    let w = card_log::recover(image, writes);
    if w < card_log::recover_due(n) {
        state::done(no_volume(), Written::Cut(w))
    } else {
        state::done(idle(sb, 1), Written::All(w))
    }
}

// A card becomes a volume: what its log holds is installed. Of the cache's memory only the length is looked at.
pub fn mount(image: &mut [u8], cache: &[u8], writes: usize) -> After<Written>
    ensures { MountGives (length cache.now) image.old writes (result, image.new) }
{
    if cache.len() != 30720 {
        return state::refused(no_volume(), Refusal::BadCall);
    }
    if !superblock::good(image) {
        return state::refused(no_volume(), Refusal::BadSuper);
    }
    let sb = superblock::super_of(image);
    if !card_log::good_header(image, sb) {
        return state::refused(no_volume(), Refusal::BadLog);
    }
    recover(image, sb, writes)
}

// The buffers of the first n homes.
fn buffers(table: &Table, homes: &[u32; 30], n: usize) -> [usize; 30]
    requires { n ≤ 30 }
    ensures { (i : ℕ) → i < n → get_or result i 0 ≡ buffer_of table.now.blocks table.now.counts (get_or homes.now i 0) }
{
    let mut bufs = [0; 30];
    for i in 0..n {
        bufs[i] = table.buffer_of(homes[i]);
    }
    bufs
}

// The commit of what is recorded.
fn commit(v: Volume, image: &mut [u8], cache: &[u8], writes: usize) -> After<Written>
    requires { Whole v image.old × (length cache.now ≡ 30720) }
    ensures { Committed v image.old (bytes cache.now) writes (result, image.new) }
{
    let n = v.recorded as usize;
    let bufs = buffers(&v.table, &v.homes, n);
    let w = card_log::commit(image, cache, &v.homes, &bufs, n, writes);
    if w < card_log::commit_due(n) {
        state::done(stopped(v), Written::Cut(w))
    } else {
        state::done(ended(v), Written::All(w))
    }
}

// One more operation is open, where the log has room for all that it may record.
pub fn begin(v: Volume, image: &[u8]) -> After<Written>
    ensures { BeginGives v image.now result }
{
    if !state::whole(v, image) {
        return state::refused(v, Refusal::NotWhole);
    }
    if 30 < 1 + v.recorded + (v.ops + 1) * 10 {
        return state::refused(v, Refusal::Busy);
    }
    state::done(with_ops(v, v.ops + 1), Written::All(0))
}

// One operation less is open; the last one commits what is recorded.
#[tactic(auto, using(crate::specs::Turns::closed, crate::specs::Turns::ended_last))]
pub fn end(v: Volume, image: &mut [u8], cache: &[u8], writes: usize) -> After<Written>
    ensures { EndGives v image.old cache.now writes (result, image.new) }
{
    if !state::whole(v, image) {
        return state::refused(v, Refusal::NotWhole);
    }
    if cache.len() != 30720 {
        return state::refused(v, Refusal::BadCall);
    }
    if v.ops == 0 {
        return state::refused(v, Refusal::NoTransaction);
    }
    if 1 < v.ops {
        return state::done(with_ops(v, v.ops - 1), Written::All(0));
    }
    commit(v, image, cache, writes)
}
