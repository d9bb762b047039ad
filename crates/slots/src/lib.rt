// Handle slots (inode.rs, the inode cache): which slot an inode is open in, which one it would take, and whether a handle is good.
//
// The slots are lent; nothing here takes a Volume.
#![tactic(auto)]

ghost use Rattle.std.specs.Prelude.{◌≡◌, ℕ, ◌<◌, get_or, set};
ghost use Rattle.base.specs.Decide.{Decides};
ghost use Rattle.slots.specs.Handles.{GoodHandle, Room, free_slot, slot_for};

use state::{Handle, Slots};

// The lowest free slot, or 50.
pub fn free_slot(slots: &Slots) -> usize
    ensures { result ≡ free_slot slots.now.refs }
{
    for k in 0..50 {
        if slots.refs[k] == 0 {
            return k;
        }
    }
    50
}

// The slot that an open of inode i takes a reference on, or 50.
pub fn slot_for(slots: &Slots, i: u32) -> usize
    ensures { result ≡ slot_for slots.now.inums slots.now.refs i }
{
    let k = slots.slot_of(i, 50);
    if k < 50 { k } else { free_slot(slots) }
}

// Whether slot k, or 50, can take one reference more.
pub fn has_room(slots: &Slots, k: usize) -> bool
    ensures { Decides result (Room slots.now.refs k) }
{
    k < 50 && slots.refs[k] != 1000
}

// Whether a handle is good.
pub fn good_handle(slots: &Slots, h: Handle) -> bool
    ensures { Decides result (GoodHandle slots.now.inums slots.now.refs h) }
{
    let k = h.slot as usize;
    k < 50 && slots.refs[k] != 0 && slots.inums[k] == h.inum
}
