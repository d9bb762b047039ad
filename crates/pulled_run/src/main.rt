// The pulled card, run: four blocks are committed on a card of 64 blocks, and the card is pulled after every number k of the commit's ten
// writes, then in a first and a second recovery after every number of their writes; a third mount finishes.
//
// A line for each k: what `end` answers (0 done, 19 cut) and the writes that it reports, then a letter for each pair of cuts, in groups by the
// first recovery's: o where every home is as before, n where every home is new, x for anything else. What can't be written is passed over.
#![tactic(auto)]

use base::Refusal;
use state::Volume;
use transactions::Written;

// The homes that are recorded. The first is in buffer 29, the next in 28, and so on.
const HOMES: [u32; 4] = [32, 35, 34, 36];

// The volume with the homes recorded, in one open operation.
fn recorded(v: Volume) -> Volume {
    let mut u = v;
    for i in 0..4 {
        u.homes[i] = HOMES[i];
        u.table.blocks[29 - i] = HOMES[i];
        u.table.counts[29 - i] = 1;
    }
    u.recorded = 4;
    u.ops = 1;
    u
}

// The new contents, in the buffers of the homes: a byte of its own for each.
fn contents() -> [u8; 30720] {
    let mut cache = [0; 30720];
    for i in 0..4 {
        let at = (29 - i) * 1024;
        cache[at..at + 1024].fill(10 + i as u8);
    }
    cache
}

// o: the homes are as before; n: they are as in the buffers; x: neither.
fn letter(image: &[u8], before: &[u8], cache: &[u8]) -> char {
    let mut old = true;
    let mut new = true;
    for i in 0..4 {
        let home = HOMES[i] as usize * 1024;
        old = old && bio::part(image, home) == bio::part(before, home);
        new = new && bio::part(image, home) == bio::part(cache, (29 - i) * 1024);
    }
    if old {
        'o'
    } else if new {
        'n'
    } else {
        'x'
    }
}

// The number of an answer, and the writes that it reports.
fn reported(answer: Result<Written, Refusal>) -> (u32, usize) {
    match answer {
        Ok(Written::All(writes)) => (0, writes),
        Ok(Written::Cut(writes)) => (19, writes),
        Err(why) => (why.number(), 0),
    }
}

// On a formatted card, an `end` of which k writes reach it.
fn save(image: &mut [u8], cache: &[u8], k: usize) -> Result<Written, Refusal> {
    format::format(image, 64, 16, 30)?;
    let mounted = transactions::mount(image, cache, 0);
    transactions::end(recorded(mounted.volume), image, cache, k).answer
}

// A recovery of which i writes reach the card, one of which j do, and one that finishes.
fn put_in_again(image: &mut [u8], cache: &[u8], i: usize, j: usize) -> Result<Written, Refusal> {
    transactions::mount(image, cache, i);
    transactions::mount(image, cache, j);
    transactions::mount(image, cache, 30).answer
}

fn ended(k: usize) -> Result<Written, Refusal> {
    let mut image = [0; 65536];
    save(&mut image, &contents(), k)
}

fn pulled(k: usize, i: usize, j: usize) -> Result<char, Refusal> {
    let mut image = [0; 65536];
    let mut before = [0; 65536];
    let cache = contents();
    format::format(&mut before, 64, 16, 30)?;
    save(&mut image, &cache, k)?;
    match put_in_again(&mut image, &cache, i, j)? {
        Written::All(_) => Ok(letter(&image, &before, &cache)),
        Written::Cut(_) => Ok('x'),
    }
}

// The second recovery cut after 0 to 5 writes.
fn group(rt: &impl Print, k: usize, i: usize) {
    let _ = print!(rt; " ");
    for j in 0..6 {
        let _ = print!(rt; "{}", pulled(k, i, j).unwrap_or('x'));
    }
}

fn line(rt: &impl Print, k: usize) {
    let (number, writes) = reported(ended(k));
    let _ = print!(rt; "{k}: {number} {writes}:");
    for i in 0..6 {
        group(rt, k, i);
    }
    let _ = println!(rt);
}

fn main(rt: HostRuntime) {
    for k in 0..12 {
        line(&rt, k);
    }
}
