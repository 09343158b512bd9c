//! Lines between two threads, and lines on one. Each test ends whatever the schedule: the sender always sends an end.
ghost use Rattle.std.specs.Prelude.{◌≡◌, ◌≤◌};

use stage_queue::{Middle, Rx, Tx, close, line, rejoin};
use std::alloc::Global;
use std::snapshot::Snapshot;
use std::sync::Wait;
use std::test::Fail;
use std::thread;
use std::thread::{Promise, Threads};
use vault_types::Memory;

fn are_all(bytes: &[u8], value: u8) -> bool {
    for byte in bytes {
        if *byte != value {
            return false;
        }
    }
    true
}

#[derive(Drop)]
struct Parcel {
    number: u32,
    bytes: Vec<u8>,
}

impl Parcel {
    fn new(alloc: Global, number: u32) -> Result<Parcel, Memory> {
        let bytes = Vec::from_elem(alloc, (number % 251) as u8, (number % 3) as usize + 1)?;
        Ok(Parcel { number, bytes })
    }

    fn is_whole(&self) -> bool {
        let value = (self.number % 251) as u8;
        self.bytes.len() == (self.number % 3) as usize + 1 && are_all(self.bytes.as_slice(), value)
    }
}

// Sends the parcels 0 to `count - 1`, or fewer where there is no memory, and then one `None`.
fn send_all<R: Wait>(
    rt: &R,
    alloc: Global,
    mut tx: Tx<Option<Parcel>>,
    count: u32,
) -> Tx<Option<Parcel>>
    ensures { result.line ≡ tx.line }
{
    let mut number = 0u32;
    let mut next = Parcel::new(alloc, 0).ok();
    for _ in rt.forever() {
        let is_end = next.is_none();
        match tx.offer(rt, next) {
            Ok(()) => {
                if is_end {
                    return tx;
                }
                number = number.saturating_add(1);
                next = if number < count {
                    Parcel::new(alloc, number).ok()
                } else {
                    None
                };
            }
            Err(back) => {
                next = back;
                thread::yield_now();
            }
        }
    }
    unreachable!()
}

// Takes up to the first `None`, and tells how many parcels came in order and whole, and whether all did.
fn take_all<R: Wait>(rt: &R, rx: &mut Rx<Option<Parcel>>) -> (u32, bool)
    ensures { rx.new.line ≡ rx.old.line }
{
    let mut number = 0u32;
    let mut all = true;
    for _ in rt.forever() {
        match rx.take(rt) {
            Some(Some(parcel)) => {
                all = all && parcel.number == number && parcel.is_whole();
                number = number.saturating_add(1);
            }
            Some(None) => return (number, all),
            None => thread::yield_now(),
        }
    }
    unreachable!()
}

// That the end that comes back is one of this line.
#[derive(Drop)]
struct OfLine(Snapshot<Middle<Option<Parcel>>>);

impl Promise<Tx<Option<Parcel>>> for OfLine {
    ghost kept_by = { λ p tx. tx.line ≡ p.0.value };
}

// So many parcels between two threads: how many came, whether all came in order and whole, and how many items are left.
fn relay<R: Threads + Wait + Copy + Drop + Send + 'static>(
    rt: R,
    alloc: Global,
    capacity: u32,
    count: u32,
) -> Result<(u32, bool, usize), Memory>
    requires { 1 ≤ capacity }
{
    let (middle, tx, mut rx) = line::<Option<Parcel>>(alloc, capacity)?;
    let promise = OfLine(Snapshot::of(&middle));
    let Ok(sender) = thread::spawn_with(
        &rt,
        promise,
        move || -> Tx<Option<Parcel>>
            ensures { result.line ≡ tx.line }
        { send_all(&rt, alloc, tx, count) },
    ) else {
        return Err(Memory);
    };
    let (came, whole) = take_all(&rt, &mut rx);
    let tx = sender.join(&rt);
    let left = rejoin(&rt, alloc, middle, tx, rx)?;
    Ok((came, whole, left.len()))
}

#[test]
fn a_million_parcels_through_one_place(rt: HostRuntime) -> Result<(), Fail> {
    assert!(rt; relay(rt, rt.alloc(), 1, 1_000_000)? == (1_000_000, true, 0));
    Ok(())
}

#[test]
fn a_million_parcels_through_1024_places(rt: HostRuntime) -> Result<(), Fail> {
    assert!(rt; relay(rt, rt.alloc(), 1_024, 1_000_000)? == (1_000_000, true, 0));
    Ok(())
}

// A line of one place: what a take, an offer of 7, one of 8 and a take answer, and what is left.
fn one_place<R: Wait>(
    rt: &R,
    alloc: Global,
) -> Result<([Option<u32>; 2], [Result<(), u32>; 2], Vec<u32>), Memory> {
    let (middle, mut tx, mut rx) = line::<u32>(alloc, 1)?;
    let none = rx.take(rt);
    let sent = tx.offer(rt, 7);
    let back = tx.offer(rt, 8);
    let first = rx.take(rt);
    let left = rejoin(rt, alloc, middle, tx, rx)?;
    Ok(([none, first], [sent, back], left))
}

#[test]
fn a_full_line_gives_the_item_back(rt: HostRuntime) -> Result<(), Fail> {
    let (taken, sent, left) = one_place(&rt, rt.alloc())?;
    assert!(rt; taken == [None, Some(7)]);
    assert!(rt; sent == [Ok(()), Err(8)]);
    assert!(rt; left.is_empty());
    Ok(())
}

// A line of three places: what the offers of 1, 2 and 3 answer, and a take, and what is left.
fn three_places<R: Wait>(
    rt: &R,
    alloc: Global,
) -> Result<([Result<(), u32>; 3], Option<u32>, Vec<u32>), Memory> {
    let (middle, mut tx, mut rx) = line::<u32>(alloc, 3)?;
    let one = tx.offer(rt, 1);
    let two = tx.offer(rt, 2);
    let three = tx.offer(rt, 3);
    let first = rx.take(rt);
    let left = rejoin(rt, alloc, middle, tx, rx)?;
    Ok(([one, two, three], first, left))
}

#[test]
fn what_is_left_comes_back_in_order(rt: HostRuntime) -> Result<(), Fail> {
    let (sent, first, left) = three_places(&rt, rt.alloc())?;
    assert!(rt; sent == [Ok(()), Ok(()), Ok(())]);
    assert!(rt; first == Some(1) && left.as_slice() == [2, 3].as_slice());
    Ok(())
}

// Whether two parcels were sent and the first came whole, before the line was closed.
fn closed<R: Wait>(rt: &R, alloc: Global) -> Result<(bool, bool, bool), Fail> {
    let (middle, mut tx, mut rx) = line::<Parcel>(alloc, 2)?;
    let one = tx.offer(rt, Parcel::new(alloc, 0)?).is_ok();
    let two = tx.offer(rt, Parcel::new(alloc, 1)?).is_ok();
    let first = rx.take(rt).ok_or("no parcel")?;
    close(middle, tx, rx);
    Ok((one, two, first.number == 0 && first.is_whole()))
}

#[test]
fn a_line_is_closed_with_parcels_in_it(rt: HostRuntime) -> Result<(), Fail> {
    assert!(rt; closed(&rt, rt.alloc())? == (true, true, true));
    Ok(())
}
