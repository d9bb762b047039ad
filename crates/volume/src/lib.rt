// The calls on a mounted volume that change no byte of the card or the cache (fs/mod.rs, inode.rs): open, close, read, stat.
//
// Each takes the volume by value and gives it back, with its answer beside it. None asks anything of its caller: what is wrong is answered by
// a refusal, and the volume comes back as it was.
#![tactic(auto)]

ghost use Rattle.std.specs.Prelude.{◌≡◌, ℕ, ◌<◌, ◌≤◌, length, get_or};
ghost use Rattle.base.specs.Bytes.{bytes};
ghost use Rattle.volume.specs.Signed.{IsSigned};
ghost use Rattle.base.specs.Decide.{Decides};
ghost use Rattle.volume.specs.Answers.{left};
ghost use Rattle.volume.specs.Open.{OpenGives, TakeGives, Starts, origin};
ghost use Rattle.volume.specs.Close.{CloseGives};
ghost use Rattle.volume.specs.Stat.{StatGives};
ghost use Rattle.volume.specs.Read.{ReadGives, read_left};

use base::Refusal;
use bio::Seen;
use state::{After, Handle, Slots, Volume};
use superblock::Kind;

// What stat tells of an inode.
#[derive(Clone, Copy)]
pub struct Facts {
    pub kind: u16,
    pub nlink: i16,
    pub size: u32,
}

// Whether a walk of the path can start: only a path that does not begin with "/" looks at the handle.
pub fn starts(slots: &Slots, path: &[u8], h: Handle) -> bool
    ensures { Decides result (Starts slots.now.inums slots.now.refs path.now h) }
{
    let x = base::get(path, 0);
    if x == b'/' {
        return true;
    }
    slots::good_handle(slots, h)
}

// The inode that it starts at.
pub fn start(path: &[u8], h: Handle) -> u32
    ensures { result ≡ origin path.now h }
{
    let x = base::get(path, 0);
    if x == b'/' {
        return 1;
    }
    h.inum
}

// A reference is taken on slot k, for inode i: the handle. What is no slot, and a slot with 1,000 references, is refused.
pub fn take_slot(v: Volume, k: usize, i: u32) -> After<Handle>
    ensures { TakeGives v k i (left result) }
{
    if 50 <= k {
        return state::refused(v, Refusal::NoSlot);
    }
    if 1000 <= v.slots.refs[k] {
        return state::refused(v, Refusal::NoSlot);
    }
    let mut w = v;
    w.slots.inums[k] = i;
    w.slots.refs[k] += 1;
    state::done(
        w,
        Handle {
            slot: k as u32,
            inum: i,
        },
    )
}

// A reference is taken on the slot that holds the inode that the path names, else on the lowest free one.
pub fn open(v: Volume, image: &[u8], cache: &[u8], path: &[u8], h: Handle) -> After<Handle>
    ensures { OpenGives v image.now cache.now path.now h (left result) }
{
    if !state::whole(v, image) {
        return state::refused(v, Refusal::NotWhole);
    }
    if cache.len() != 30720 {
        return state::refused(v, Refusal::BadCall);
    }
    if path::too_long(path) {
        return state::refused(v, Refusal::BadCall);
    }
    if !starts(&v.slots, path, h) {
        return state::refused(v, Refusal::BadHandle);
    }
    let card = Seen {
        table: &v.table,
        image,
        cache,
    };
    match walk::follow(&card, v.sb, start(path, h), path) {
        Ok(i) => {
            let k = slots::slot_for(&v.slots, i);
            if !slots::has_room(&v.slots, k) {
                return state::refused(v, Refusal::NoSlot);
            }
            take_slot(v, k, i)
        }
        Err(why) => state::refused(v, why),
    }
}

// A reference is returned; with the last one the slot is free. No inode is looked at.
pub fn close(v: Volume, image: &[u8], h: Handle) -> After<()>
    ensures { CloseGives v image.now h (left result) }
{
    if !state::whole(v, image) {
        return state::refused(v, Refusal::NotWhole);
    }
    if !slots::good_handle(&v.slots, h) {
        return state::refused(v, Refusal::BadHandle);
    }
    let k = h.slot as usize;
    let n = v.slots.refs[k];
    let mut w = v;
    w.slots.refs[k] = n - 1;
    state::done(w, ())
}

// 16 bits read as a signed number.
fn signed(n: u16) -> i16
    ensures { IsSigned n result }
{
    if n < 32768 {
        return n as i16;
    }
    let below = (65535 - n) as i16;
    -1 - below
}

// Kind, link count and size.
pub fn stat(v: Volume, image: &[u8], cache: &[u8], h: Handle) -> After<Facts>
    ensures { StatGives v image.now cache.now h (left result) }
{
    if !state::whole(v, image) {
        return state::refused(v, Refusal::NotWhole);
    }
    if cache.len() != 30720 {
        return state::refused(v, Refusal::BadCall);
    }
    if !slots::good_handle(&v.slots, h) {
        return state::refused(v, Refusal::BadHandle);
    }
    let card = Seen {
        table: &v.table,
        image,
        cache,
    };
    let f = inode::read_inode(&card, v.sb, h.inum);
    if !inode::fit(&card, v.sb, f) {
        return state::refused(v, Refusal::Unfit);
    }
    state::done(
        v,
        Facts {
            kind: f.kind,
            nlink: signed(f.nlink),
            size: f.size,
        },
    )
}

// The bytes of a file or a directory from offset on, up to count of them and as far as its content goes, to the front of the buffer.
pub fn read(
    v: Volume,
    image: &[u8],
    cache: &[u8],
    h: Handle,
    offset: usize,
    count: usize,
    buffer: &mut [u8],
) -> After<usize>
    ensures { ReadGives v image.now cache.now h offset count buffer.old (read_left result buffer.new) }
{
    if !state::whole(v, image) {
        return state::refused(v, Refusal::NotWhole);
    }
    if cache.len() != 30720 {
        return state::refused(v, Refusal::BadCall);
    }
    if buffer.len() < count {
        return state::refused(v, Refusal::BadCall);
    }
    if !slots::good_handle(&v.slots, h) {
        return state::refused(v, Refusal::BadHandle);
    }
    let card = Seen {
        table: &v.table,
        image,
        cache,
    };
    let f = inode::read_inode(&card, v.sb, h.inum);
    if !inode::fit(&card, v.sb, f) {
        return state::refused(v, Refusal::Unfit);
    }
    if f.is(Kind::Device) {
        return state::refused(v, Refusal::WrongKind);
    }
    let size = f.size as usize;
    if size < offset {
        return state::refused(v, Refusal::PastEnd);
    }
    let n = count.min(size - offset);
    content::read_content(&card, f, offset, buffer, n);
    state::done(v, n)
}
