// What an image says: the parts of its Disk, read from its bytes. Every read is total; the numbers come as usize with their bounds, so that
// addresses are made of them without a cast.
#![tactic(auto)]

ghost use Rattle.superblock.specs.Geometry.{GoodNumbers};

use superblock::Super;

// A card's bytes, and the numbers of its superblock, which are good.
#[derive(Clone, Copy)]
pub struct Card<'a> {
    pub image: &'a [u8],
    pub sb: Super,
    pub ghost good: { GoodNumbers sb },
}

impl Card<'_> {
    ghost use Rattle.std.specs.Prelude.{◌≡◌, ℕ, ◌*◌, ◌<◌};
    ghost use Rattle.base.specs.Bytes.{bytes};
    ghost use Rattle.base.specs.Decide.{Decides};
    ghost use Rattle.superblock.specs.Geometry.{data_start};
    ghost use Rattle.rules.specs.Fit.{entry, held, slot_of};
    ghost use Rattle.rules.specs.Tree.{num_of};
    ghost use Rattle.rules.specs.Rules.{S3};
    ghost use Rattle.reads.specs.Read.{Is, Ends, Spot, InodeAt, field, shown};

    // The first block of the data area.
    pub fn data_start(&self) -> usize
        ensures { Is result (data_start self.now.sb) 8191 }
    {
        self.sb.bmapstart as usize + self.sb.size as usize / 8192 + 1
    }

    // The address of inode i, where there is such an inode.
    fn inode_at(&self, i: usize) -> Option<usize>
        ensures { InodeAt self.now.sb i result }
    {
        if 0 < i && i < self.sb.ninodes as usize {
            Some(self.sb.inodestart as usize * 1024 + 64 * i)
        } else {
            None
        }
    }

    // The number in the two or four bytes of inode i from byte o of it on, 0 where there is no such inode.
    pub fn field2(&self, i: usize, o: usize) -> usize
        requires { o < 64 }
        ensures { Is result (field self.now.sb (bytes self.now.image.now) i o 2) 65536 }
    {
        match self.inode_at(i) {
            Some(a) => base::get_u16(self.image, a + o) as usize,
            None => 0,
        }
    }

    pub fn field4(&self, i: usize, o: usize) -> usize
        requires { o < 64 }
        ensures { Is result (field self.now.sb (bytes self.now.image.now) i o 4) 4294967296 }
    {
        match self.inode_at(i) {
            Some(a) => base::get_u32(self.image, a + o) as usize,
            None => 0,
        }
    }

    // The fields of inode i, each 0 where there is no such inode. The kind is a number and no Kind: an unsound image may hold any.
    pub fn kind(&self, i: usize) -> usize
        ensures { Is result ((shown self.now).ino i).kind 65536 }
    {
        match self.inode_at(i) {
            Some(a) => base::get_u16(self.image, a) as usize,
            None => 0,
        }
    }

    pub fn nlink(&self, i: usize) -> usize
        ensures { Is result ((shown self.now).ino i).nlink 65536 }
    {
        match self.inode_at(i) {
            Some(a) => base::get_u16(self.image, a + 6) as usize,
            None => 0,
        }
    }

    pub fn size(&self, i: usize) -> usize
        ensures { Is result ((shown self.now).ino i).size 4294967296 }
    {
        match self.inode_at(i) {
            Some(a) => base::get_u32(self.image, a + 8) as usize,
            None => 0,
        }
    }

    pub fn addr(&self, i: usize, p: usize) -> usize
        requires { p < 13 }
        ensures { Is result (((shown self.now).ino i).addr p) 4294967296 }
    {
        match self.inode_at(i) {
            Some(a) => base::get_u32(self.image, a + 12 + 4 * p) as usize,
            None => 0,
        }
    }

    // Number k of the indirect block b.
    pub fn entry_of(&self, b: usize, k: usize) -> usize
        requires { (k < 256) × (b < 4294967296) }
        ensures { Is result (entry (shown self.now).mem b k) 4294967296 }
    {
        if b < self.data_start() {
            0
        } else {
            base::get_u32(self.image, b * 1024 + 4 * k) as usize
        }
    }

    // Slot p of inode i.
    pub fn slot_of(&self, i: usize, p: usize) -> usize
        requires { p < 269 }
        ensures { Is result (held (shown self.now) i p) 4294967296 }
    {
        if p < 13 {
            self.addr(i, p)
        } else {
            self.entry_of(self.addr(i, 12), p - 13)
        }
    }

    // Whether the bit of block b is set, of the 8,192 that there are.
    pub fn has_bit(&self, b: usize) -> bool
        requires { b < 8192 }
        ensures { Decides result ((shown self.now).bit b ≡ 1) }
    {
        let v = base::get(self.image, self.sb.bmapstart as usize * 1024 + b / 8);
        base::bit_of(v, (b % 8) as u8) == 1
    }

    // The address of entry k of directory i.
    pub fn spot(&self, i: usize, k: usize) -> usize
        requires { S3 self.now.sb (shown self.now) × (k < 17152) × (((shown self.now).ino i).kind ≡ 1) × (16 * k < ((shown self.now).ino i).size) }
        ensures { Spot (bytes self.now.image.now) (shown self.now) i k result }
    {
        self.slot_of(i, rules::slot_of(16 * k / 1024)) * 1024 + 16 * k % 1024
    }

    // The inode number in entry k of directory i, 0 where there is none.
    pub fn num_of(&self, i: usize, k: usize) -> usize
        requires { S3 self.now.sb (shown self.now) × (k < 17152) }
        ensures { Is result (num_of (shown self.now) i k) 65536 }
    {
        if self.kind(i) != 1 {
            return 0;
        }
        if self.size(i) <= 16 * k {
            return 0;
        }
        base::get_u16(self.image, self.spot(i, k)) as usize
    }

    // How many entries inode i has, as a directory.
    pub fn entries_of(&self, i: usize) -> usize
        requires { S3 self.now.sb (shown self.now) }
        ensures { Ends (shown self.now) i result }
    {
        if self.kind(i) == 1 {
            self.size(i) / 16
        } else {
            0
        }
    }
}
