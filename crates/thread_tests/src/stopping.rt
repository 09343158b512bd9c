//! Holders in two threads. Each test ends whatever the schedule, also where no thread can be made.
ghost use Rattle.std.specs.Prelude.{◌≡◌, [], IfOk};

use std::alloc::Global;
use std::sync::Wait;
use std::test::Fail;
use std::thread;
use std::thread::Threads;
use stop_word::{Holder, gather, holders};
use vault_types::{Fault, Memory};

fn raise_if(raises: bool, mut holder: Holder) -> Holder
    ensures { result.family ≡ holder.family }
{
    if raises {
        holder.raise(&Fault::TooMany { limit: 4 });
    }
    holder
}

// Looks until the word is raised.
fn wait_for_it<R: Wait>(rt: &R, holder: &mut Holder)
    ensures { holder.new.family ≡ holder.old.family }
{
    for _ in rt.forever() {
        if holder.look() {
            return;
        }
        thread::yield_now();
    }
    unreachable!()
}

fn pair(alloc: Global) -> Result<(Holder, Holder, Vec<Holder>), Memory>
    ensures { IfOk result (λ r. (r.0.family ≡ r.1.family) × (r.0.family.count ≡ 2) × (r.2.items ≡ [])) }
{
    let mut all = holders(alloc, 2)?;
    let Some(second) = all.pop() else {
        unreachable!()
    };
    let Some(first) = all.pop() else {
        unreachable!()
    };
    Ok((first, second, all))
}

// Whether each of two holders has raised, what the second sees when both are back, and what `gather` tells.
fn told<R: Threads + Sync>(
    rt: &R,
    alloc: Global,
    raises: bool,
) -> Result<(bool, bool, bool, bool), Memory> {
    let (first, second, mut all) = pair(alloc)?;
    let (first, mut second) = thread::join(
        rt,
        move || -> Holder
            ensures { result.family ≡ first.family }
        { raise_if(raises, first) },
        move || -> Holder
            ensures { result.family ≡ second.family }
        { raise_if(false, second) },
    );
    let raised = (first.raised(), second.raised());
    let sees = second.look();
    all.push(first)?;
    all.push(second)?;
    Ok((raised.0, raised.1, sees, gather(all)))
}

#[test]
fn gather_tells_whether_one_has_raised(rt: HostRuntime) -> Result<(), Fail> {
    assert!(rt; told(&rt, rt.alloc(), true)? == (true, false, true, true));
    assert!(rt; told(&rt, rt.alloc(), false)? == (false, false, false, false));
    Ok(())
}

// The first holder raises in one thread while the second looks in another.
fn seen<R: Threads + Wait + Sync>(rt: &R, alloc: Global) -> Result<bool, Memory> {
    let (mut first, mut second, mut all) = pair(alloc)?;
    let (second, first) = thread::join(
        rt,
        move || -> Holder
            ensures { result.family ≡ second.family }
        {
            wait_for_it(rt, &mut second);
            second
        },
        move || -> Holder
            ensures { result.family ≡ first.family }
        {
            first.raise(&Fault::Memory);
            first
        },
    );
    all.push(second)?;
    all.push(first)?;
    Ok(gather(all))
}

#[test]
fn a_look_in_another_thread_sees_it(rt: HostRuntime) -> Result<(), Fail> {
    assert!(rt; seen(&rt, rt.alloc())?);
    Ok(())
}

// Whether so many holders have their numbers, and none has raised the word.
fn are_numbered(alloc: Global, n: u32) -> Result<bool, Fail> {
    if n < 1 {
        return Err(Fail::from("no holders"));
    }
    let all = holders(alloc, n)?;
    for (i, holder) in all.iter().enumerate() {
        if holder.number() as usize != i || holder.raised() {
            return Ok(false);
        }
    }
    Ok(all.len() == n as usize)
}

#[test]
fn holders_have_their_numbers(rt: HostRuntime) -> Result<(), Fail> {
    for n in [1, 2, 12] {
        assert!(rt; are_numbered(rt.alloc(), n)?, "of {n}");
    }
    Ok(())
}
