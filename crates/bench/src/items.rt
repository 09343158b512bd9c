// Numbers through a line between two threads.
ghost use Rattle.std.specs.Prelude.{◌≤◌};

use crate::watch::{Stop, Watch};
use stage_queue::{Rx, Tx, line};
use stage_threads::BackOff;
use std::sync::Wait;
use std::thread;
use std::thread::Threads;
use std::time::Clock;

const NUMBERS: u64 = 1_000_000;

fn send<R: Wait + Clock>(rt: &R, mut tx: Tx<Option<u64>>) {
    let mut back_off = BackOff::new();
    let mut number = 0u64;
    for _ in rt.forever() {
        let item = if number < NUMBERS { Some(number) } else { None };
        if tx.offer(rt, item).is_err() {
            back_off.wait(rt);
            continue;
        }
        back_off.reset();
        if number == NUMBERS {
            return;
        }
        number = number.saturating_add(1);
    }
}

// How many numbers came in order.
fn take<R: Wait + Clock>(rt: &R, mut rx: Rx<Option<u64>>) -> u64 {
    let mut back_off = BackOff::new();
    let mut came = 0u64;
    for _ in rt.forever() {
        match rx.take(rt) {
            Some(Some(number)) => {
                back_off.reset();
                if number == came {
                    came = came.saturating_add(1);
                }
            }
            Some(None) => return came,
            None => back_off.wait(rt),
        }
    }
    unreachable!()
}

fn sent<R: Threads + Wait + Clock + Sync>(rt: &R, tx: Tx<Option<u64>>, rx: Rx<Option<u64>>) -> u64 {
    let ((), came) = thread::join(rt, move || send(rt, tx), move || take(rt, rx));
    came
}

// The nanoseconds of all numbers through a line, and how many came.
fn time_line<R: Threads + Wait + Clock + Sync>(
    rt: &R,
    host: HostRuntime,
    capacity: u32,
) -> Result<(u64, u64), Stop>
    requires { 1 ≤ capacity }
{
    let (_, tx, rx) = line::<Option<u64>>(host.alloc(), capacity)?;
    let mut watch = Watch::start(host)?;
    let came = sent(rt, tx, rx);
    let took = watch.lap(host);
    watch.end()?;
    Ok((took, came))
}

fn show_line(rt: HostRuntime, capacity: u32, took: u64, came: u64) -> Result<(), Stop> {
    let rate = came.saturating_mul(1_000_000) / (took / 1_000).max(1);
    println!(rt; "line of {capacity}: {came} numbers in order, {rate} a second")?;
    Ok(())
}

pub fn run<R: Threads + Wait + Clock + Sync>(rt: &R, host: HostRuntime) -> Result<(), Stop> {
    for capacity in [1u32, 64, 1_024] {
        let (took, came) = time_line(rt, host, capacity)?;
        show_line(host, capacity, took, came)?;
    }
    Ok(())
}
