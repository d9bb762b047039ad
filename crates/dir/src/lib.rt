// Directories (inode.rs, dir_lookup): the first live entry of a directory whose 14 bytes are a component's name.
//
// Each block of the directory is looked at once, as a slice. The name is a part of the path, compared where it stands.
#![tactic(auto)]

ghost use Rattle.std.specs.Prelude.{◌≡◌, ℕ, ◌+◌, ◌*◌, ◌<◌, ◌≤◌, length, get_or};
ghost use Rattle.base.specs.Bytes.{bytes};
ghost use Rattle.bio.specs.Memory.{memory};
ghost use Rattle.path.specs.Search.{found};
ghost use Rattle.path.specs.Names.{name_of};
ghost use Rattle.dir.specs.Entries.{entry_is, look_in};

use bio::Seen;
use superblock::Inode;

// Where a name is in a directory: the inode's number, widened from its entry, and the entry.
#[derive(Clone, Copy)]
pub struct Found {
    pub inum: u32,
    pub entry: u32,
}

// Whether the entry at place o is live and has the name.
fn entry_named(s: &[u8], o: usize, part: &[u8]) -> bool
    requires { o < 1024 }
    ensures { result ≡ entry_is (bytes s.now) (name_of part.now) o }
{
    base::get_u16(s, o) != 0 && path::same_name(s, o + 2, part)
}

// The first of the first count entries of a block that is live and has the name.
pub fn entry_in(s: &[u8], count: usize, part: &[u8]) -> Option<usize>
    requires { count ≤ 64 }
    ensures { result ≡ found (λ k. entry_is (bytes s.now) (name_of part.now) (16 * k)) count }
{
    (0..count).position(|k| entry_named(s, 16 * k, part))
}

// The first live entry of the directory f that has the name.
pub fn dir_lookup(card: &Seen<'_>, f: Inode, part: &[u8]) -> Option<Found>
    requires { f.size ≤ 274432 }
    ensures { result ≡ look_in (memory card.now) f (name_of part.now) }
{
    let n = f.size as usize / 16;
    for b in 0..n.div_ceil(64) {
        let at = inode::file_block(card, f, b);
        let s = card.block(at);
        let count = (n - b * 64).min(64);
        if let Some(k) = entry_in(s, count, part) {
            return Some(Found {
                inum: base::get_u16(s, 16 * k) as u32,
                entry: (b * 64 + k) as u32,
            });
        }
    }
    None
}
