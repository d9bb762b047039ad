// The image program: reads an image of at most 64 blocks from standard input and writes its numbers, its used inodes and the checker's verdict. What
// it writes is tested (tests/card); the verdict is the checker's, which is proved. A line that can't be written is passed over.
#![tactic(auto)]

use rules::{Rule, Verdict};
use superblock::Super;

fn say_volume(rt: &impl Print, s: Super) {
    let _ = println!(rt;
        "volume {} blocks {} inodes {} log",
        s.size, s.ninodes, s.nlog
    );
}

// A line for each used inode. A link count is an i16 on the card.
fn say_inodes(rt: &impl Print, image: &[u8], s: Super) {
    for i in 1..s.ninodes {
        let r = superblock::inode_of(image, s.inodestart as usize * 1024 + 64 * (i as usize));
        if r.kind != 0 {
            let _ = println!(rt;
                "inode {i} kind {} links {} size {}",
                r.kind,
                r.nlink.cast_signed(),
                r.size
            );
        }
    }
}

fn say_verdict(rt: &impl Print, verdict: Verdict) {
    let _ = match verdict {
        Verdict::Sound => println!(rt; "sound"),
        Verdict::Unsound(rule) => println!(rt; "unsound {rule:?}"),
        Verdict::Refused(_) => println!(rt; "refused"),
    };
}

// Without S1 only the verdict; without S2 or S3 the volume's line before it; else the inodes' lines between.
fn report(rt: &impl Print, image: &[u8]) {
    let mut work = [0; 65536];
    let verdict = checker::check(image, &mut work);
    let s = superblock::super_of(image);
    match verdict {
        Verdict::Unsound(Rule::S1) => {}
        Verdict::Unsound(Rule::S2 | Rule::S3) => say_volume(rt, s),
        _ => {
            say_volume(rt, s);
            say_inodes(rt, image, s);
        }
    }
    say_verdict(rt, verdict);
}

fn main(rt: HostRuntime) {
    let mut buffer = io::large_buffer();
    let n = io::read_full(0, &mut buffer);
    let mut more = [0; 1];
    if io::read_full(0, &mut more) > 0 {
        // longer than 64 blocks
        say_verdict(&rt, Verdict::Unsound(Rule::S1));
        return;
    }
    report(&rt, &buffer[..n]);
}
