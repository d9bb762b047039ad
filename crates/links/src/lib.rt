// How often each inode is named, in one pass over the directories' entries with a count for each inode in the lent numbers; and the rule S7.
#![tactic(auto)]

ghost use Rattle.std.specs.Prelude.{◌≡◌, ℕ, ◌+◌, ◌*◌, ◌<◌, ◌≤◌, length};
ghost use Rattle.base.specs.Bytes.{bytes};
ghost use Rattle.base.specs.Decide.{Decides};
ghost use Rattle.rules.specs.Tree.{tree, names_in};
ghost use Rattle.rules.specs.Rules.{S3, S7};
ghost use Rattle.reads.specs.Read.{Ends, shown};
ghost use Rattle.links.specs.Counts.{Added, Counts, LinkOk};

use reads::Card;

// Counts the entries of directory j from the third on, of n, at the numbers that they hold.
pub fn count_row(card: &Card<'_>, j: usize, n: usize, work: &mut [u32])
    requires { Ends (shown card.now) j n × (65536 ≤ length work.old) × (j < 65536) × ((i : ℕ) → i < 65536 → bytes work.old i ≤ j * 17152) × S3 card.now.sb (shown card.now) }
    ensures { (i : ℕ) → i < 65536 → Added i (bytes work.old i) (names_in (tree (shown card.now)) i j) (bytes work.new i) }
{
    for k in 2..n {
        work[card.num_of(j, k)] += 1;
    }
}

pub fn count_all(card: &Card<'_>, work: &mut [u32])
    requires { S3 card.now.sb (shown card.now) × (65536 ≤ length work.old) × ((i : ℕ) → i < 65536 → bytes work.old i ≡ 0) }
    ensures { Counts card.now.sb (tree (shown card.now)) (bytes work.new) }
{
    for j in 0..card.sb.ninodes as usize {
        count_row(card, j, card.entries_of(j), work);
    }
}

// ---- S7

// Inode i's link count, where n entries name it.
pub fn link_ok(card: &Card<'_>, i: usize, n: u32) -> bool
    ensures { Decides result (LinkOk (tree (shown card.now)) i n) }
{
    let links = card.nlink(i);
    match card.kind(i) {
        0 => true,
        1 => i == 1 || links == 2,
        _ => 1 <= links && links <= 32767 && links == n as usize,
    }
}

pub fn links_ok(card: &Card<'_>, work: &[u32]) -> bool
    requires { 65536 ≤ length work.now }
    ensures { Decides result ((i : ℕ) → 0 < i → i < card.now.sb.ninodes → LinkOk (tree (shown card.now)) i (bytes work.now i)) }
{
    (1..card.sb.ninodes as usize).all(|i| link_ok(card, i, work[i]))
}

pub fn s7(card: &Card<'_>, work: &[u32]) -> bool
    requires { (65536 ≤ length work.now) × Counts card.now.sb (tree (shown card.now)) (bytes work.now) }
    ensures { Decides result (S7 card.now.sb (tree (shown card.now))) }
{
    card.nlink(1) == 1 && links_ok(card, work)
}
