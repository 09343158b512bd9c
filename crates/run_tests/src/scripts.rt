// Scripts of lines that a number makes. Each test ends whatever the schedule.
use crate::both::{Case, are_same, ran_in_threads, ran_on_one};
use std::alloc::Global;
use std::sync::Wait;
use std::test::Fail;
use std::thread::Threads;
use std::time::Clock;
use vault_ports::MemShelf;

// Numbers that the first one makes.
#[derive(Clone, Copy)]
struct Numbers {
    state: u32,
}

impl Numbers {
    // One below the bound, which is at least 1.
    fn below(&mut self, bound: u32) -> u32 {
        self.state = self
            .state
            .wrapping_mul(1_664_525)
            .wrapping_add(1_013_904_223);
        (self.state >> 16) % bound.max(1)
    }
}

const FILES: [&str; 3] = ["a", "b", "c"];

fn file_of(numbers: &mut Numbers) -> &'static str {
    match FILES.get(numbers.below(3) as usize) {
        Some(name) => name,
        None => "a",
    }
}

// How many items a line holds: 1, 2, few, or any number.
fn queue_of(numbers: &mut Numbers) -> u32 {
    let most = match numbers.below(4) {
        0 => 1,
        1 => 2,
        2 => 16,
        _ => 1_024,
    };
    numbers.below(most).saturating_add(1)
}

// A line of a script; the outputs of its restores, where it may be one, are named by their places.
fn line_of(
    alloc: Global,
    numbers: &mut Numbers,
    place: u32,
    restores: bool,
) -> Result<String, Fail> {
    let set = numbers.below(2);
    match numbers.below(5) {
        0 => {
            let through = numbers.below(4).saturating_add(1);
            Ok(format!(in alloc; "delete {through} set={set}\n")?)
        }
        1 | 2 if restores => {
            let version = numbers.below(5).saturating_add(1);
            let cache = numbers.below(3).saturating_add(1);
            Ok(format!(in alloc; "restore {version} out{place} set={set} cache={cache}\n")?)
        }
        3 => {
            let name = file_of(numbers);
            Ok(format!(in alloc; "backup {name} set={set}\n")?)
        }
        _ => {
            let name = file_of(numbers);
            let size = numbers.below(2_000).saturating_add(50);
            let container = numbers.below(9_000).saturating_add(2_000);
            Ok(format!(in alloc;
                "backup {name} set={set} chunk=fixed size={size} container={container}\n"
            )?)
        }
    }
}

fn script_of(alloc: Global, numbers: &mut Numbers, restores: bool) -> Result<Vec<u8>, Fail> {
    let mut script = Vec::new(alloc);
    for place in 0..numbers.below(9).saturating_add(2) {
        let line = line_of(alloc, numbers, place, restores)?;
        script.extend_from_slice(line.as_bytes())?;
    }
    Ok(script)
}

// A byte below the bound.
fn byte_of(numbers: &mut Numbers, bound: u32) -> u8 {
    u8::try_from(numbers.below(bound)).unwrap_or(0)
}

// Bytes in which some come again.
fn bytes_of(alloc: Global, numbers: &mut Numbers) -> Result<Vec<u8>, Fail> {
    let mut bytes = Vec::new(alloc);
    for _ in 0..numbers.below(12).saturating_add(1) {
        let piece = [byte_of(numbers, 4); 1_000];
        bytes.extend_from_slice(piece.as_slice())?;
        bytes.push(byte_of(numbers, 256))?;
    }
    Ok(bytes)
}

fn files_of(alloc: Global, numbers: &mut Numbers) -> Result<Vec<(String, Vec<u8>)>, Fail> {
    let mut files = Vec::new(alloc);
    for name in FILES {
        files.push((String::from_str(alloc, name)?, bytes_of(alloc, numbers)?))?;
    }
    Ok(files)
}

// The words of a batch, with any settings of its threads.
fn words_of(alloc: Global, numbers: &mut Numbers) -> Result<String, Fail> {
    let queue = queue_of(numbers);
    let lanes = numbers.below(8).saturating_add(1);
    let workers = numbers.below(8).saturating_add(1);
    Ok(format!(in alloc; "batch --queue {queue} --lanes {lanes} --workers {workers}")?)
}

// Two scripts one behind the other over one store, both ways. Where a call of the store fails, which it is depends on how
// far the restores have come, so then there are none.
fn runs_are_same<H: Threads + Wait + Clock + Copy + Drop + Send>(
    host: H,
    alloc: Global,
    seed: u32,
    call: u64,
) -> Result<(), Fail> {
    let mut numbers = Numbers { state: seed };
    let mut shelves = (MemShelf::new(alloc), MemShelf::new(alloc));
    for _ in 0..2 {
        let words = words_of(alloc, &mut numbers)?;
        let words = words.as_str();
        let input = script_of(alloc, &mut numbers, call == 0)?;
        let files = files_of(alloc, &mut numbers)?;
        let case = Case {
            words,
            input: input.as_slice(),
            call,
            files: files.as_slice(),
        };
        let one = ran_on_one(alloc, case, shelves.0)?;
        let other = ran_in_threads(host, alloc, case, shelves.1)?;
        if !are_same(alloc, &one, &other)? {
            let text = format!(in alloc;
                "seed {seed}, call {call} failing, {words}: the runs are not the same"
            )?;
            return Err(Fail::new(text));
        }
        shelves = (one.shelf, other.shelf);
    }
    Ok(())
}

#[test]
fn threads_leave_what_one_thread_leaves(rt: HostRuntime) -> Result<(), Fail> {
    for seed in 1..=300 {
        runs_are_same(rt, rt.alloc(), seed, 0)?;
    }
    Ok(())
}

#[test]
fn a_failing_call_is_answered_alike(rt: HostRuntime) -> Result<(), Fail> {
    for call in 1..=40 {
        runs_are_same(rt, rt.alloc(), 7, call)?;
    }
    Ok(())
}
