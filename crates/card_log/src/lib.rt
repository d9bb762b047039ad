// The write-ahead log (log.rs): a commit and a recovery, each a numbered block write and a run of as many as reach the card.
//
// The log starts at block 2 on every good card: block 2 is the header (a length, then the homes), logged block i is block 3 + i. Block number
// k's part of the lent image is passed mutably to the block copier. The homes are an array with their number n beside it, and a write goes by its
// number k: the theorem speaks of write k of n homes, and a slice of the first n would be another term than the theorem's. What a cut leaves is a theorem: specs/PulledCard.antt.
#![tactic(auto)]

ghost use Rattle.std.specs.Prelude.{◌≡◌, ℕ, ◌+◌, ◌-◌, ◌*◌, ◌≤◌, ◌<◌, min, length, get_or};
ghost use Rattle.base.specs.Bytes.{bytes, block, put_block};
ghost use Rattle.base.specs.Number.{get as num_at};
ghost use Rattle.base.specs.Decide.{Decides};
ghost use Rattle.card_log.specs.Words.{put_words};
ghost use Rattle.card_log.specs.Journal.{header, log_block, words, held, commit_write, commit as committing, commit_due, Ready};
ghost use Rattle.card_log.specs.Journal.{HomesIn, GoodLog, logged, install_write, recover as recovering, recover_due, Within};

use superblock::Super;

// The block copier.
pub fn copy_block(dst: &mut [u8], src: &[u8])
    requires { (length dst.old ≡ 1024) × (length src.now ≡ 1024) }
    ensures { dst.new ≡ src.now }
{
    dst.copy_from_slice(src);
}

// Block b of the image becomes src.
pub fn put_block(image: &mut [u8], b: usize, src: &[u8])
    requires { (b * 1024 + 1024 ≤ length image.old) × (length src.now ≡ 1024) }
    ensures { bytes image.new ≡ put_block (bytes image.old) b (bytes src.now) }
{
    let a = b * 1024;
    copy_block(&mut image[a..a + 1024], src);
}

// Block b of the image becomes the cache's buffer i.
#[tactic(auto, using(crate::specs::Words::block_same, crate::specs::Words::part_read))]
pub fn put_buffer(image: &mut [u8], b: usize, cache: &[u8], i: usize)
    requires { (b * 1024 + 1024 ≤ length image.old) × (i * 1024 + 1024 ≤ length cache.now) }
    ensures { bytes image.new ≡ put_block (bytes image.old) b (block (bytes cache.now) i) }
{
    let a = i * 1024;
    put_block(image, b, &cache[a..a + 1024]);
}

// The header: the length n, and the first n homes.
pub fn put_header(image: &mut [u8], homes: &[u32; 30], n: usize)
    requires { (n ≤ 29) × (3072 ≤ length image.old) }
    ensures { bytes image.new ≡ put_words (bytes image.old) header (n + 1) (words n (bytes homes.now)) }
{
    for i in 0..n {
        base::put_u32(image, 2052 + 4 * i, homes[i]);
    }
    base::put_u32(image, 2048, n as u32);
}

// Which of the n blocks write number k of a commit writes ..
fn source(n: usize, k: usize) -> usize
    requires { n ≤ 29 }
    ensures { (k < n → result ≡ k) × (n < k → result ≡ k - (n + 1)) }
{
    if n < k { k - (n + 1) } else { k }
}

// .. and to which block of the card: into the log before the header, home after it.
fn target(homes: &[u32; 30], n: usize, k: usize) -> usize
    requires { (n ≤ 29) × (k ≤ 2 * n) }
    ensures { (k < n → result ≡ log_block k) × (n < k → result ≡ bytes homes.now (k - (n + 1))) }
{
    if n < k {
        homes[k - (n + 1)] as usize
    } else {
        3 + k
    }
}

// Write number k of a commit.
pub fn commit_write(
    image: &mut [u8],
    cache: &[u8],
    homes: &[u32; 30],
    bufs: &[usize; 30],
    n: usize,
    k: usize,
)
    requires ready { Ready n (bytes homes.now) (bytes bufs.now) (length cache.now) (length image.old) }
    requires due { (0 < n) × (k < 2 * n + 2) }
    ensures { bytes image.new ≡ commit_write (held n (bytes homes.now) (bytes bufs.now) (bytes cache.now)) k (bytes image.old) }
{
    if k == n {
        put_header(image, homes, n);
    } else if k <= 2 * n {
        put_buffer(image, target(homes, n, k), cache, bufs[source(n, k)]);
    } else {
        base::put_u32(image, 2048, 0);
    }
}

// The writes that a commit of n blocks takes.
#[tactic(auto, using(crate::specs::Headers::commit_due_none, crate::specs::Headers::commit_due_some))]
pub fn commit_due(n: usize) -> usize
    requires { n ≤ 29 }
    ensures { result ≡ commit_due n }
{
    if n == 0 { 0 } else { 2 * n + 2 }
}

// A commit of which at most `writes` reach the card; how many did.
#[tactic(auto, using(base::specs::Run::run_none, base::specs::Run::run_more))]
pub fn commit(
    image: &mut [u8],
    cache: &[u8],
    homes: &[u32; 30],
    bufs: &[usize; 30],
    n: usize,
    writes: usize,
) -> usize
    requires { Ready n (bytes homes.now) (bytes bufs.now) (length cache.now) (length image.old) }
    ensures { (result ≡ min writes (commit_due n)) × (bytes image.new ≡ committing (held n (bytes homes.now) (bytes bufs.now) (bytes cache.now)) writes (bytes image.old)) }
{
    let w = writes.min(commit_due(n));
    for k in 0..w {
        commit_write(image, cache, homes, bufs, n, k);
    }
    w
}

// A block by value.
pub fn get_block(image: &[u8], b: usize) -> [u8; 1024]
    requires { b * 1024 + 1024 ≤ length image.now }
    ensures { (length result ≡ 1024) × ((j : ℕ) → j < 1024 → get_or result j 0 ≡ block (bytes image.now) b j) }
{
    let mut block = [0; 1024];
    let a = b * 1024;
    copy_block(&mut block, &image[a..a + 1024]);
    block
}

// The first n homes in the header.
pub fn get_homes(image: &[u8], n: usize) -> [u32; 30]
    requires { n ≤ 29 }
    ensures { (i : ℕ) → i < n → get_or result i 0 ≡ num_at (bytes image.now) (header + 4 * (i + 1)) 4 }
{
    let mut homes = [0; 30];
    for i in 0..n {
        homes[i] = base::get_u32(image, 2048 + 4 * (i + 1));
    }
    homes
}

// Write number k of installing the log's n blocks in these homes.
#[tactic(auto, using(crate::specs::Words::block_same, crate::specs::Installing::install_home, crate::specs::Installing::install_last), unfolding(crate::specs::Journal::held, crate::specs::Journal::home_write, crate::specs::Journal::emptied))]
pub fn recover_write(image: &mut [u8], homes: &[u32; 30], n: usize, k: usize)
    requires within { Within n (bytes homes.now) (length image.old) }
    requires k_le_n { k ≤ n }
    ensures { bytes image.new ≡ install_write (held n (bytes homes.now) log_block (bytes image.old)) k (bytes image.old) }
{
    if k < n {
        let block = get_block(image, 3 + k);
        put_block(image, homes[k] as usize, &block);
    } else {
        base::put_u32(image, 2048, 0);
    }
}

// The writes that a recovery of n blocks takes.
#[tactic(auto, using(crate::specs::Headers::recover_due_none, crate::specs::Headers::recover_due_some))]
pub fn recover_due(n: usize) -> usize
    requires { n ≤ 29 }
    ensures { result ≡ recover_due n }
{
    if n == 0 { 0 } else { n + 1 }
}

// A recovery of which at most `writes` reach the card; how many did.
pub fn recover(image: &mut [u8], writes: usize) -> usize
    requires { Within (logged (bytes image.old)).count (logged (bytes image.old)).home (length image.old) }
    ensures { (result ≡ min writes (recover_due (logged (bytes image.old)).count)) × (bytes image.new ≡ recovering writes (bytes image.old)) }
{
    let n = base::get_u32(image, 2048) as usize;
    let homes = get_homes(image, n);
    let w = writes.min(recover_due(n));
    for k in 0..w {
        recover_write(image, &homes, n, k);
    }
    w
}

// Whether the first n homes are distinct, and from `low` on and below `high`.
#[tactic(auto, using(crate::specs::Headers::homes_start, crate::specs::Headers::homes_more))]
pub fn good_homes(homes: &[u32; 30], n: usize, low: u32, high: u32) -> bool
    requires { n ≤ 29 }
    ensures { Decides result (HomesIn (bytes homes.now) n low high) }
{
    for i in 0..n {
        let h = homes[i];
        if h < low || high <= h || base::find(homes, i, h) < i {
            return false;
        }
    }
    true
}

// Whether the header on a card is good.
pub fn good_header(image: &[u8], sb: Super) -> bool
    ensures { Decides result (GoodLog sb (logged (bytes image.now))) }
{
    let n = base::get_u32(image, 2048);
    if 29 < n || sb.nlog <= n {
        return false;
    }
    let n = n as usize;
    good_homes(&get_homes(image, n), n, sb.inodestart, sb.size)
}
