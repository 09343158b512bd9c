//! So many checks at a time, each in a thread.
ghost use Rattle.std.specs.Prelude.{◌<◌, ◌-◌, ◌^◌, OnOk};
ghost use Rattle.scrub.specs.Scrubbing.{Scrubs};
ghost use Rattle.scrub.specs.Walking.{NotesOldest, NotesAtMostOne};

use crate::check::Check;
use crate::checking::Checking;
use crate::reading::read_next;
use keeper_core::Keeper;
use payload_health::Findings;
use std::alloc::Global;
use std::collections::VecDeque;
use std::sync::Wait;
use std::thread::{Scope, Threads};
use vault_traits::Shelf;
use vault_types::{Fault, Memory};

// Ends the oldest check, and notes what it found.
fn note_oldest<R: Threads + Wait>(
    rt: &R,
    running: &mut VecDeque<Checking>,
    findings: &mut Findings,
) -> Result<(), Memory>
    requires { findings.old.containers < 2 ^ 64 - 1 }
    ensures { OnOk result (NotesOldest running.old.items running.new.items findings.old findings.new) }
{
    match running.pop_front() {
        Some(oldest) => {
            let (id, health) = oldest.end(rt);
            findings.add(id, health)
        }
        None => Ok(()),
    }
}

// Ends the oldest check where so many run, and notes what it found.
fn make_room<R: Threads + Wait>(
    rt: &R,
    running: &mut VecDeque<Checking>,
    findings: &mut Findings,
    workers: usize,
) -> Result<(), Memory>
    requires { findings.old.containers < 2 ^ 64 - 1 }
    ensures { OnOk result (NotesAtMostOne running.old.items running.new.items findings.old findings.new) }
{
    if running.len() == workers {
        return note_oldest(rt, running, findings);
    }
    Ok(())
}

/// Does what `scrub_plain` does, with so many checks at a time, 1 to 8, each in a thread of the scope; one whose thread is
/// refused is made in this thread. At most one payload more than that is held. What is found does not depend on the threads.
pub fn scrub<'s, E: 's, R: Threads + Wait, S: Shelf, C: Check>(
    rt: &R,
    alloc: Global,
    scope: &'s Scope<'s, E>,
    keeper: &mut Keeper<S>,
    check: &'s C,
    workers: u32,
) -> Result<Findings, Fault>
    ensures { Scrubs keeper.old keeper.new result }
{
    scrub_on(rt, alloc, scope, None, keeper, check, workers)
}

/// The same, in threads with stacks of that size: the host refuses one that is too large.
pub fn scrub_on<'s, E: 's, R: Threads + Wait, S: Shelf, C: Check>(
    rt: &R,
    alloc: Global,
    scope: &'s Scope<'s, E>,
    stack: Option<usize>,
    keeper: &mut Keeper<S>,
    check: &'s C,
    workers: u32,
) -> Result<Findings, Fault>
    ensures { Scrubs keeper.old keeper.new result }
{
    let mut findings = Findings::new(alloc);
    let mut running = VecDeque::with_capacity(alloc, workers as usize)?;
    let mut passed = 0;
    while let Some(read) = read_next(alloc, keeper, passed)? {
        passed = read.id();
        make_room(rt, &mut running, &mut findings, workers as usize)?;
        running.push_back(Checking::start(scope, stack, check, read))?;
    }
    while !running.is_empty() {
        note_oldest(rt, &mut running, &mut findings)?;
    }
    Ok(findings)
}
