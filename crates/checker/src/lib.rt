// The image checker: the first of the seven rules that an image breaks, each judged only if those before hold. The image is only read; of the lent
// numbers 65,536 are used, and left 0.
#![tactic(auto)]

ghost use Rattle.std.specs.Prelude.{◌≡◌, ℕ, ◌<◌, ◌≤◌, length};
ghost use Rattle.rules.specs.Verdicts.{Says};
ghost use Rattle.checker.specs.Judge.{Judged, Lower};

use base::Refusal;
use reads::Card;
use rules::{Rule, Verdict};

// S5 to S7, where S1 to S4 hold.
pub fn judge_tree(card: &Card<'_>, work: &mut [u32]) -> Verdict
    requires { Lower card.now.image.now card.now.sb × (65536 ≤ length work.old) }
    ensures { Judged card.now.image.now result }
{
    if !names::s5(card) {
        return Verdict::Unsound(Rule::S5);
    }
    blocks::clear(work, 65536);
    links::count_all(card, work);
    if !parents::s6(card, work) {
        return Verdict::Unsound(Rule::S6);
    }
    if !links::s7(card, work) {
        return Verdict::Unsound(Rule::S7);
    }
    Verdict::Sound
}

// All seven.
pub fn judge(image: &[u8], work: &mut [u32]) -> Verdict
    requires { 65536 ≤ length work.old }
    ensures { Judged image.now result }
{
    if !superblock::good(image) {
        return Verdict::Unsound(Rule::S1);
    }
    // how many blocks the log holds
    if base::get_u32(image, 2048) != 0 {
        return Verdict::Unsound(Rule::S2);
    }
    let card = Card {
        image,
        sb: superblock::super_of(image),
    };
    if !blocks::s3(&card) {
        return Verdict::Unsound(Rule::S3);
    }
    if !blocks::s4(&card, work) {
        return Verdict::Unsound(Rule::S4);
    }
    judge_tree(&card, work)
}

// The call: any image, of any length.
pub fn check(image: &[u8], work: &mut [u32]) -> Verdict
    ensures { Says image.now work.old work.new result }
{
    if work.len() < 65536 {
        return Verdict::Refused(Refusal::BadCall);
    }
    let verdict = judge(image, &mut work[..65536]);
    blocks::clear(work, 65536);
    verdict
}
