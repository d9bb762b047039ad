// Replays calls on small cards: reads a script on standard input, one call a line, and writes one answer a line.
//
// The language is that of the comparison programs (oracle/README.md), as far as these calls go: mkfs, poke, mount, open, cwd, close, read,
// stat and slots. The cards have 64 blocks at most. A refusal is `no N` with its number. A read that fails ends the script, and what can't be written
// is passed over. All memory is fixed: nothing can run out of it.
#![tactic(auto)]

ghost use Rattle.std.specs.Prelude.{◌<◌};

use base::Refusal;
use state::{Handle, Slots, Volume};
use std::fmt;
use transactions::Written;
use volume::Facts;

// The volume, and the handles given since mount, the first `given` of 64; `from` is the number of the one that a relative path starts at. No Vec, since
// the program has no heap.
#[derive(Clone, Copy)]
struct Session {
    volume: Volume,
    handles: [Handle; 64],
    given: usize,
    from: usize,
}

// ---- words of a line

// Word k of a line, empty where there is none.
fn word(line: &[u8], k: usize, sep: u8) -> &[u8] {
    line.split(|x| *x == sep).nth(k).unwrap_or(&line[..0])
}

// A decimal number, as far as its digits go; what follows a ninth digit is not read.
fn number(w: &[u8]) -> usize
    ensures { result < 1000000000 }
{
    let mut v: usize = 0;
    for x in w {
        if !x.is_ascii_digit() || 100000000 <= v {
            return v;
        }
        v = 10 * v + (*x - b'0') as usize;
    }
    v
}

fn num(line: &[u8], k: usize) -> usize
    ensures { result < 1000000000 }
{
    number(word(line, k, b' '))
}

fn num32(line: &[u8], k: usize) -> u32 {
    num(line, k) as u32
}

fn hex_digit(x: u8) -> u8
    ensures { result < 16 }
{
    match x {
        b'0'..=b'9' => x - b'0',
        b'a'..=b'f' => x - b'a' + 10,
        _ => 0,
    }
}

// ---- what is written

fn say_refusal(rt: &impl Print, why: Refusal) {
    let _ = println!(rt; "no {}", why.number());
}

// Bytes as hex digits, `-` for none. They are printed as one text: a write for each byte takes longer than the read that they show.
#[derive(Clone, Copy)]
struct Hex<'a> {
    bytes: &'a [u8],
}

impl fmt::Display for Hex<'_> {
    fn fmt<W: fmt::Write>(&self, f: &mut fmt::Formatter<W>) -> fmt::Result {
        if self.bytes.is_empty() {
            return f.write_str("-");
        }
        for x in self.bytes {
            write!(f, "{x:02x}")?;
        }
        Ok(())
    }
}

// Whether a byte is no longer the 170 that the buffer was filled with.
fn touched(s: &[u8]) -> bool {
    s.iter().any(|x| *x != 170)
}

// ---- the card

// The byte i past a, where the card has it.
fn put_byte(image: &mut [u8], a: usize, i: usize, x: u8) {
    if a < image.len() && i < image.len() - a {
        image[a + i] = x;
    }
}

// The hex digits of a word, at most 1,024, to the card from a on.
fn put_hex(image: &mut [u8], a: usize, w: &[u8]) {
    let n = (w.len() / 2).min(512);
    for i in 0..n {
        put_byte(
            image,
            a,
            i,
            hex_digit(w[2 * i]) * 16 + hex_digit(w[2 * i + 1]),
        );
    }
}

// n bytes of the pattern of seed s: byte i is (31 s + 7 i + i / 256) mod 256.
fn put_pattern(image: &mut [u8], a: usize, s: usize, n: usize) {
    for i in 0..n {
        put_byte(
            image,
            a,
            i,
            ((31 * (s % 256) + 7 * (i % 256) + i / 256) % 256) as u8,
        );
    }
}

// poke BLOCK OFFSET DATA, where the data are hex digits, or p:SEED:COUNT
fn poke(rt: &impl Print, image: &mut [u8], line: &[u8]) {
    let a = num(line, 1) * 1024 + num(line, 2);
    let w = word(line, 3, b' ');
    if base::get(w, 0) == b'p' {
        put_pattern(image, a, number(word(w, 1, b':')), number(word(w, 2, b':')));
    } else {
        put_hex(image, a, w);
    }
    let _ = println!(rt; "ok");
}

// ---- the calls

// A handle that was not given is no good.
const NONE: Handle = Handle { slot: 50, inum: 0 };

// A volume as mount left it, with no handle given.
fn started(volume: Volume) -> Session {
    Session {
        volume,
        handles: [NONE; 64],
        given: 0,
        from: 64,
    }
}

// Before the first mount: that of a card with no superblock gives a volume that answers 1.
fn unmounted(cache: &[u8]) -> Session {
    let mut none = [0u8; 1];
    let after = transactions::mount(&mut none, cache, 0);
    started(after.volume)
}

// mkfs SIZE NINODES NLOG
fn mkfs(rt: &impl Print, image: &mut [u8], line: &[u8]) {
    match format::format(image, num32(line, 1), num32(line, 2), num32(line, 3)) {
        Ok(()) => {
            let s = superblock::super_of(image);
            let data = s.bmapstart as u64 + s.size as u64 / 8192 + 1;
            let _ = println!(rt;
                "ok inodestart {} bmapstart {} data {data} nblocks {}",
                s.inodestart, s.bmapstart, s.nblocks
            );
        }
        Err(why) => say_refusal(rt, why),
    }
}

// mount: with all the writes that a recovery can take
fn mount(rt: &impl Print, s: &mut Session, image: &mut [u8], cache: &[u8]) {
    let after = transactions::mount(image, cache, 30);
    *s = started(after.volume);
    match after.answer {
        Ok(Written::All(w)) => {
            let _ = println!(rt; "ok writes {w}");
        }
        Ok(Written::Cut(w)) => {
            let _ = println!(rt; "cut {w}");
        }
        Err(why) => say_refusal(rt, why),
    }
}

// Handle k of those given.
fn nth(handles: &[Handle; 64], k: usize) -> Handle {
    handles.get(k).copied().unwrap_or(NONE)
}

// The path that a word gives: '' is the empty one.
fn path_of(w: &[u8]) -> &[u8] {
    if base::get(w, 0) == b'\'' { &w[..0] } else { w }
}

// open PATH
fn open(rt: &impl Print, s: &mut Session, image: &[u8], cache: &[u8], line: &[u8]) {
    let h = nth(&s.handles, s.from);
    let after = volume::open(s.volume, image, cache, path_of(word(line, 1, b' ')), h);
    s.volume = after.volume;
    match after.answer {
        Ok(g) => {
            let _ = println!(rt; "ok h {} inode {} slot {}", s.given, g.inum, g.slot);
            if s.given < 64 {
                s.handles[s.given] = g;
                s.given += 1;
            }
        }
        Err(why) => say_refusal(rt, why),
    }
}

// close H
fn close(rt: &impl Print, s: &mut Session, image: &[u8], line: &[u8]) {
    let h = nth(&s.handles, num(line, 1));
    let after = volume::close(s.volume, image, h);
    s.volume = after.volume;
    match after.answer {
        Ok(()) => {
            let _ = println!(rt; "ok");
        }
        Err(why) => say_refusal(rt, why),
    }
}

// read H OFFSET N, into a lent buffer of 64 bytes that are all 170
fn read(rt: &impl Print, s: &mut Session, image: &[u8], cache: &[u8], line: &[u8]) {
    let h = nth(&s.handles, num(line, 1));
    let mut buffer = [170u8; 64];
    let after = volume::read(
        s.volume,
        image,
        cache,
        h,
        num(line, 2),
        num(line, 3),
        &mut buffer,
    );
    s.volume = after.volume;
    match after.answer {
        Ok(n) => {
            let n = n.min(64);
            let bytes = Hex {
                bytes: &buffer[..n],
            };
            let more = if touched(&buffer[n..]) {
                " TOUCHED"
            } else {
                ""
            };
            let _ = println!(rt; "ok {n} {bytes}{more}");
        }
        Err(why) => {
            if touched(&buffer) {
                let _ = print!(rt; "TOUCHED ");
            }
            say_refusal(rt, why);
        }
    }
}

// The link counts of these cards.
fn links(n: i16) -> &'static str {
    match n {
        -1 => "-1",
        1 => "1",
        2 => "2",
        _ => "another",
    }
}

// stat H
fn stat(rt: &impl Print, s: &mut Session, image: &[u8], cache: &[u8], line: &[u8]) {
    let h = nth(&s.handles, num(line, 1));
    let after = volume::stat(s.volume, image, cache, h);
    s.volume = after.volume;
    match after.answer {
        Ok(Facts { kind, nlink, size }) => {
            let _ = println!(rt;
                "ok inode {} kind {kind} nlink {} size {size}",
                h.inum,
                links(nlink)
            );
        }
        Err(why) => say_refusal(rt, why),
    }
}

// The slots in use: slot, inode, references.
fn say_slots(rt: &impl Print, slots: &Slots) {
    let _ = print!(rt; "ok");
    let mut none = true;
    for k in 0..50 {
        if slots.refs[k] != 0 {
            none = false;
            let _ = print!(rt; " {k}:{}*{}", slots.inums[k], slots.refs[k]);
        }
    }
    let _ = println!(rt; "{}", if none { " -" } else { "" });
}

// cwd H
fn cwd(rt: &impl Print, s: &mut Session, line: &[u8]) {
    s.from = num(line, 1);
    let _ = println!(rt; "ok");
}

// ---- the script

// A line is known by its first one or two letters; one that is not known does nothing.
fn step(rt: &impl Print, s: &mut Session, image: &mut [u8], cache: &[u8], line: &[u8]) {
    match (base::get(line, 0), base::get(line, 1)) {
        (b'o', _) => open(rt, s, image, cache, line),
        (b'r', _) => read(rt, s, image, cache, line),
        (b'c', b'l') => close(rt, s, image, line),
        (b'c', _) => cwd(rt, s, line),
        (b's', b't') => stat(rt, s, image, cache, line),
        (b's', _) => say_slots(rt, &s.volume.slots),
        (b'p', _) => poke(rt, image, line),
        (b'm', b'o') => mount(rt, s, image, cache),
        (b'm', _) => mkfs(rt, image, line),
        _ => {}
    }
}

fn replay(rt: &impl Print, text: &[u8], image: &mut [u8], cache: &[u8]) {
    let mut s = unmounted(cache);
    for line in text.split(|x| *x == b'\n') {
        step(rt, &mut s, image, cache, line);
    }
}

fn main(rt: HostRuntime) {
    let mut text = [0u8; 65536];
    let n = io::read_full(0, &mut text);
    let mut image = [0u8; 65536];
    let cache = [0u8; 30720];
    replay(&rt, &text[..n], &mut image, &cache);
}
