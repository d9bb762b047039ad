// The content of an inode copied out (inode.rs, read): block parts, each copied whole to where it belongs in the buffer.
#![tactic(auto)]

ghost use Rattle.std.specs.Prelude.{◌≡◌, ℕ, ◌+◌, ◌-◌, ◌%◌, ◌<◌, ◌≤◌, min, length};
ghost use Rattle.base.specs.Bytes.{bytes, put};
ghost use Rattle.superblock.specs.Node.{node};
ghost use Rattle.bio.specs.Memory.{memory};
ghost use Rattle.content.specs.Parts.{content_at, Readable, Part};

use bio::Seen;
use superblock::Inode;

// The content from byte at on, up to n bytes of it and as far as its block goes, to place d of the buffer.
pub fn read_part(
    card: &Seen<'_>,
    f: Inode,
    at: usize,
    buffer: &mut [u8],
    d: usize,
    n: usize,
) -> usize
    requires { Readable card.now f × (0 < n) × (at + n ≤ f.size) × (d + n ≤ length buffer.old) }
    ensures { Part (memory card.now) (node f) at d n (bytes buffer.old) (bytes buffer.new) result }
{
    let o = at % 1024;
    let r = n.min(1024 - o);
    let b = inode::file_block(card, f, at / 1024);
    let t = card.block(b);
    base::copy_part(buffer, d, t, o, r);
    r
}

// The n bytes of the content from offset on, to the front of the buffer.
pub fn read_content(card: &Seen<'_>, f: Inode, offset: usize, buffer: &mut [u8], n: usize)
    requires { Readable card.now f × (offset + n ≤ f.size) × (n ≤ length buffer.old) }
    ensures { bytes buffer.new ≡ put (bytes buffer.old) 0 n (λ k. content_at (memory card.now) (node f) (offset + k)) }
{
    // A part ends where a block does, so that the parts are not all of one length.
    let mut d: usize = 0;
    while d < n {
        d += read_part(card, f, offset + d, buffer, d, n - d);
    }
}
