// The numbers of the generator.
ghost use Rattle.std.specs.Prelude.{◌≡◌, ◌≤◌, ◌<◌, ◌++◌, ◌+◌, take, length, replicate};
ghost use Rattle.vault_types.specs.Generator.{bytes_from, generation, next_number};
ghost use Rattle.workload.specs.Numbers.{number_after, first_number};

use vault_types::Version;

// How often a block has changed up to a version.
pub fn generation(block: u32, version: Version) -> u32
    requires low { 1 ≤ version }
    requires high { version ≤ 64 }
    ensures is { result ≡ generation block version }
    ensures few { result ≤ 63 }
{
    let mut count = 0;
    for earlier in 2..version + 1 {
        count += u32::from(block % 16 == earlier % 16);
    }
    count
}

// The number before the first byte of a block of a version.
pub fn start(seed: u64, block: u32, version: Version) -> u64
    requires low { 1 ≤ version }
    requires high { version ≤ 64 }
    requires block { block < 64 }
    ensures { result ≡ first_number seed block version }
{
    let generation = u64::from(generation(block, version));
    seed.wrapping_add(64 * generation)
        .wrapping_add(u64::from(block))
}

fn next(number: u64) -> u64
    ensures { result ≡ next_number number }
{
    number
        .wrapping_mul(6_364_136_223_846_793_005)
        .wrapping_add(1_442_695_040_888_963_407)
}

// Fills the buffer with the bytes behind a number, and returns the number behind them.
pub fn fill(buf: &mut [u8], number: u64) -> u64
    ensures len { length buf.new ≡ length buf.old }
    ensures bytes { buf.new ≡ bytes_from number (length buf.old) }
    ensures number { result ≡ number_after number (length buf.old) }
{
    let mut last = number;
    let mut at = 0;
    while at < buf.len() {
        last = next(last);
        buf[at] = (last >> 56) as u8;
        at += 1;
    }
    last
}

// Makes each byte 0.
pub fn clear(buf: &mut [u8])
    ensures { buf.new ≡ replicate (length buf.old) 0 }
{
    for byte in buf.iter_mut() {
        *byte = 0;
    }
}
