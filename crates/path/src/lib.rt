// Paths (inode.rs, skip_path): where a path ends, its next component, and a component compared with a name in a directory.
//
// A path is a lent slice. The walk hands it on from the current place, `&path[at..]`, and a component is a part of it, `&path[start..end]`.
// Past its end a slice reads as 0, so that a NUL and the slice's end are one case, and a short component is padded without a copy.
#![tactic(auto)]

ghost use Rattle.std.specs.Prelude.{◌≡◌, ℕ, ◌+◌, ◌<◌, ◌≤◌, length};
ghost use Rattle.base.specs.Bytes.{bytes};
ghost use Rattle.base.specs.Decide.{Decides};
ghost use Rattle.path.specs.Parts.{path_len, start_of, end_of, part_of, is_end};
ghost use Rattle.path.specs.Names.{name_of, same_name};

// Where a component stands in a path: its bytes are those from start up to end.
#[derive(Clone, Copy)]
pub struct Part {
    pub start: usize,
    pub end: usize,
}

// Whether a path has more than 128 bytes. At most 129 of them are looked at.
pub fn too_long(path: &[u8]) -> bool
    ensures { Decides result (128 < path_len path.now) }
{
    path.len() > 128 && !path[..129].contains(&0)
}

fn skip_slashes(path: &[u8]) -> usize
    ensures { result ≡ start_of path.now }
{
    path.iter().position(|x| *x != b'/').unwrap_or(path.len())
}

fn component_end(path: &[u8], start: usize) -> usize
    requires { start ≤ length path.now }
    ensures { result ≡ end_of path.now start }
{
    let rest = &path[start..];
    let n = rest.iter().position(|x| *x == b'/' || *x == 0);
    start + n.unwrap_or(rest.len())
}

// The next component of a path, which is handed over from the current place on: None where the path ends.
pub fn component(path: &[u8]) -> Option<Part>
    ensures { result ≡ part_of path.now }
{
    let start = skip_slashes(path);
    let x = base::get(path, start);
    if x == 0 {
        return None;
    }
    let end = component_end(path, start);
    Some(Part { start, end })
}

// Whether no component is left: what remains is slashes, or nothing.
pub fn ended(path: &[u8]) -> bool
    ensures { result ≡ is_end (part_of path.now) }
{
    component(path).is_none()
}

// Whether the 14 bytes of s from o on are a component's name. The component is a part of the path, longer or shorter than 14 bytes.
pub fn same_name(s: &[u8], o: usize, part: &[u8]) -> bool
    ensures { result ≡ same_name (λ t. bytes s.now (o + t)) (name_of part.now) }
{
    (0..14).all(|k| base::get_past(s, o, k) == base::get(part, k))
}
