// A version as a source.
ghost use Rattle.std.specs.Prelude.{◌≡◌, ◌≤◌, ◌<◌, ◌++◌, [], Some, length, take, replicate, IfOk, IsOk, OnErr};
ghost use Rattle.vault_traits.specs.Counts.{HasFailed};
ghost use Rattle.vault_traits.specs.Told.{Gives};
ghost use Rattle.vault_types.specs.Generator.{generated};

use crate::blocks::Blocks;
use crate::numbers::clear;
use std::marker::Model;
use vault_traits::{Failed, Source};
use vault_types::Version;

/// A version of the generator, from its first byte to its last. It never fails, and takes no memory. Contracts see it as
/// the bytes that are left.
#[derive(Drop)]
pub struct Generated {
    zeros: u32,
    blocks: Blocks,
}

impl Model for Generated {
    ghost use Rattle.std.specs.Prelude.{ℕ, List, ◌++◌, replicate};
    ghost use Rattle.workload.specs.Numbers.{blocks_left};

    ghost Value = { List ℕ };

    ghost view = { λ g. replicate g.zeros 0 ++ blocks_left g.blocks };
}

impl Generated {
    /// The version, from 1 to 64, of this seed.
    pub fn new(seed: u64, version: Version) -> Generated
        requires low { 1 ≤ version }
        requires high { version ≤ 64 }
        ensures { result ≡ generated seed version }
    {
        let blocks = Blocks::new(seed, version);
        Generated {
            zeros: version - 1,
            blocks,
        }
    }
}

impl Source for Generated {
    ghost told = { λ g. record { left = Some g; faults = 0 } };

    /// Reads up to the end of the zeros or of a block.
    fn read(&mut self, buf: &mut [u8]) -> Result<usize, Failed>
        requires { 0 < length buf.old }
        ensures fits { IfOk result (λ n. n ≤ length buf.old) }
        ensures given { IfOk result (λ n. Gives (Some self.old) (Some self.new) (take n buf.new)) }
        ensures end { IfOk result (λ n. n ≡ 0 → self.old ≡ []) }
        ensures err { OnErr result (self.new ≡ self.old) }
        ensures cause { HasFailed 0 0 result }
        ensures never_fails { IsOk result }
    {
        if self.zeros > 0 {
            let n = buf.len().min(self.zeros as usize);
            clear(&mut buf[..n]);
            self.zeros -= n as u32;
            return Ok(n);
        }
        Ok(self.blocks.read(buf))
    }

    fn faults(&self) -> u64 {
        0
    }
}
