// The blocks of a version, read from the first to the last.
ghost use Rattle.std.specs.Prelude.{◌≤◌};

use crate::numbers::{fill, start};
use vault_types::Version;

// How far the blocks were read: of the block before `next`, so many bytes are left behind a number.
#[derive(Drop)]
pub struct Blocks {
    pub seed: u64,
    pub version: Version,
    pub next: u32,
    pub left: u32,
    pub number: u64,
    ghost is_version: { (1 ≤ version) × (version ≤ 64) },
    ghost is_block: { next ≤ 64 },
}

impl Blocks {
    ghost use Rattle.std.specs.Prelude.{◌≡◌, ◌<◌, ◌++◌, [], length, take};
    ghost use Rattle.workload.specs.Numbers.{blocks_left, bytes_left};

    // All blocks of a version, from 1 to 64.
    pub fn new(seed: u64, version: Version) -> Blocks
        requires low { 1 ≤ version }
        requires high { version ≤ 64 }
        ensures { blocks_left result ≡ bytes_left seed version 0 0 0 }
    {
        Blocks {
            seed,
            version,
            next: 0,
            left: 0,
            number: 0,
        }
    }

    // Begins the next block, if there is one and nothing is left of the one before.
    fn begin(&mut self)
        ensures same { blocks_left self.new ≡ blocks_left self.old }
        ensures end { self.new.left ≡ 0 → blocks_left self.new ≡ [] }
    {
        if self.left == 0 && self.next < 64 {
            self.number = start(self.seed, self.next, self.version);
            self.left = 131_072;
            self.next += 1;
        }
    }

    // Reads up to the end of a block.
    pub fn read(&mut self, buf: &mut [u8]) -> usize
        requires { 0 < length buf.old }
        ensures fits { result ≤ length buf.old }
        ensures given { blocks_left self.old ≡ take result buf.new ++ blocks_left self.new }
        ensures end { result ≡ 0 → blocks_left self.old ≡ [] }
    {
        self.begin();
        let n = buf.len().min(self.left as usize);
        self.number = fill(&mut buf[..n], self.number);
        self.left -= n as u32;
        n
    }
}
