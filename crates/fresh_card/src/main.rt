// Formats case 1's card, 64 blocks with 16 inodes and 30 log blocks, over memory that is not zero, and prints the superblock's numbers and the
// first five bytes of the bitmap as they then stand in the image. A line that can't be written is passed over.
#![tactic(auto)]

fn say_super(rt: &impl Print, image: &[u8]) {
    let s = superblock::super_of(image);
    let _ = println!(rt; "magic {}", base::get_u32(image, 1024));
    let _ = println!(rt; "size {}", s.size);
    let _ = println!(rt; "nblocks {}", s.nblocks);
    let _ = println!(rt; "ninodes {}", s.ninodes);
    let _ = println!(rt; "nlog {}", s.nlog);
    let _ = println!(rt; "logstart {}", base::get_u32(image, 1044));
    let _ = println!(rt; "inodestart {}", s.inodestart);
    let _ = println!(rt; "bmapstart {}", s.bmapstart);
}

fn say_bitmap(rt: &impl Print, image: &[u8]) {
    let bitmap = superblock::super_of(image).bmapstart as usize * 1024;
    for i in 0..5 {
        let _ = println!(rt; "bitmap byte {i} {}", base::get_past(image, bitmap, i));
    }
}

fn main(rt: HostRuntime) {
    // As something else left it.
    let mut image = [255; 65536];
    match format::format(&mut image, 64, 16, 30) {
        Ok(()) => {
            say_super(&rt, &image);
            say_bitmap(&rt, &image);
        }
        Err(why) => {
            let _ = println!(rt; "refused {}", why.number());
        }
    }
}
