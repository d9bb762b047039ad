// The walk of a path (inode.rs, namei): from an inode, component by component, to the inode that the path names, or to its parent.
//
// The path is handed on from the current place, `&path[at..]`. At each component the inode that the walk stands on is fetched and must be fit (5),
// a directory (6), and have the name (7); the number found must be an inode's (5); the inode at which it ends must be fit (5).
#![tactic(auto)]

ghost use Rattle.std.specs.Prelude.{◌≡◌, ℕ, ◌+◌, ◌*◌, ◌<◌, ◌≤◌};
ghost use Rattle.bio.specs.Memory.{memory};
ghost use Rattle.inode.specs.Lent.{Lent, disk_by};
ghost use Rattle.walk.specs.Step.{step_of, Fetches, From};
ghost use Rattle.walk.specs.Walks.{walk_of};
ghost use Rattle.walk.specs.Parents.{last_in, parent_of};

use base::Refusal;
use bio::Seen;
use superblock::{Inode, Kind, Super};

// One step: to another inode, past the bytes of the path that named it.
#[derive(Clone, Copy)]
pub struct Step {
    pub inum: u32,
    pub used: usize,
}

// What a walk to the parent finds: the directory in which the last component is to be sought, with that component's place in the path, from
// start up to end.
#[derive(Clone, Copy)]
pub struct Parent {
    pub inum: u32,
    pub start: usize,
    pub end: usize,
}

// Inode i, which must be fit.
pub fn fetch_fit(card: &Seen<'_>, s: Super, i: u32) -> Result<Inode, Refusal>
    requires { Lent s card.now.image.now card.now.cache.now × From s i }
    ensures { Fetches s (memory card.now) i result }
{
    let f = inode::read_inode(card, s, i);
    if !inode::fit(card, s, f) {
        return Err(Refusal::Unfit);
    }
    Ok(f)
}

// One step of a walk: from inode i, with the rest of the path; None where no component is left.
pub fn advance(card: &Seen<'_>, s: Super, i: u32, rest: &[u8]) -> Result<Option<Step>, Refusal>
    requires { Lent s card.now.image.now card.now.cache.now × From s i }
    ensures { result ≡ step_of s (disk_by s card.now) i rest.now }
{
    let f = fetch_fit(card, s, i)?;
    let Some(name) = path::component(rest) else {
        return Ok(None);
    };
    if !f.is(Kind::Directory) {
        return Err(Refusal::NotDirectory);
    }
    let Some(found) = dir::dir_lookup(card, f, &rest[name.start..name.end]) else {
        return Err(Refusal::NoName);
    };
    if found.inum < s.ninodes {
        return Ok(Some(Step {
            inum: found.inum,
            used: name.end,
        }));
    }
    Err(Refusal::Unfit)
}

// The inode that a path names, from inode start on.
pub fn follow(card: &Seen<'_>, s: Super, start: u32, path: &[u8]) -> Result<u32, Refusal>
    requires { Lent s card.now.image.now card.now.cache.now × From s start }
    ensures { result ≡ walk_of s (disk_by s card.now) start path.now }
{
    let mut i = start;
    let mut at: usize = 0;
    while let Some(step) = advance(card, s, i, &path[at..])? {
        i = step.inum;
        at += step.used;
    }
    Ok(i)
}

// The end of a walk to the parent: inode i, in which the last component is to be sought.
pub fn last_in(
    card: &Seen<'_>,
    s: Super,
    i: u32,
    start: usize,
    end: usize,
) -> Result<Parent, Refusal>
    requires { Lent s card.now.image.now card.now.cache.now × From s i }
    ensures { result ≡ last_in s (disk_by s card.now) i start end }
{
    let parent = fetch_fit(card, s, i)?;
    if !parent.is(Kind::Directory) {
        return Err(Refusal::NotDirectory);
    }
    Ok(Parent {
        inum: i,
        start: start,
        end: end,
    })
}

// The parent of what a path names, from inode from on, and the last component.
pub fn follow_parent(card: &Seen<'_>, s: Super, from: u32, path: &[u8]) -> Result<Parent, Refusal>
    requires { Lent s card.now.image.now card.now.cache.now × From s from }
    ensures { result ≡ parent_of s (disk_by s card.now) from path.now }
{
    let mut i = from;
    let mut at: usize = 0;
    while let Some(name) = path::component(&path[at..]) {
        let b = at + name.start;
        let e = at + name.end;
        if path::ended(&path[e..]) {
            return last_in(card, s, i, b, e);
        }
        let Some(step) = advance(card, s, i, &path[at..])? else {
            return Err(Refusal::NoName);
        };
        i = step.inum;
        at += step.used;
    }
    Err(Refusal::NoName)
}
