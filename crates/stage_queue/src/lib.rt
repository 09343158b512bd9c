//! A line between two threads: one end sends, the other takes, and for every schedule what was taken and what the line
//! still holds is what was sent, in order. No clause says that a thread gets on: a full or an empty line is answered, and
//! the caller tries again.
#![tactic(auto)]

ghost use Rattle.std.specs.Prelude.{◌≡◌, ◌≢◌, ◌≤◌, true, [], ◌∷◌, ◌++◌, length, List, IfOk, IfErr, IfSome, IfNone, OnOk, OnErr};
ghost use Rattle.std.specs.Arc.{arc_value};
ghost use Rattle.crossbeam_queue.specs.Passes.{view as knows, IsPassOf};
ghost use Rattle.vault_types.specs.Stages.{IsLine};
ghost use Rattle.stage_queue.specs.Line.{log};

mod rule;

use crate::rule::{InOrder, Line, LinePass, Roles, Sends, Takes};
use std::alloc::Global;
use std::marker::Model;
use std::sync::{Arc, Wait};
use vault_types::Memory;

/// What the maker of a line keeps while its ends are away. Contracts see which line it is; `slots` of that is how many
/// items it holds at most.
#[derive(Drop)]
pub struct Middle<T> {
    queue: Arc<Line<T>, Global>,
}

impl<T> Model for Middle<T> {
    ghost use Rattle.std.specs.Arc.{arc_value};
    ghost use Rattle.atomic_table.specs.Seated.{TableId, table_id_coded};

    ghost Value = { TableId };

    ghost coded = { table_id_coded };

    ghost view = { λ m. (arc_value m.queue).table.shared.table_id };
}

/// The end of a line that sends. Contracts see its line, and the list of all that was sent.
#[derive(Drop)]
pub struct Tx<T> {
    queue: Arc<Line<T>, Global>,
    pass: LinePass<T>,
}

impl<T> Model for Tx<T> {
    ghost use Rattle.std.specs.Prelude.{◌≡◌, true, false, []};
    ghost use Rattle.std.specs.Arc.{arc_value};
    ghost use Rattle.crossbeam_queue.specs.Passes.{view as knows, IsPassOf};
    ghost use Rattle.stage_queue.specs.Ends.{Sender, sender_code};
    ghost use Rattle.stage_queue.specs.Line.{log};

    ghost Value = { Sender T };

    ghost coded = { sender_code T.code };

    ghost view = { λ t. record { line = t.pass.table_id; sent = (knows t.pass).sent } };

    ghost invariant = { λ t. IsPassOf (arc_value t.queue) t.pass
        × (knows t.pass ≡ log true false (knows t.pass).sent []) };
}

/// The end of a line that takes. Contracts see its line, and the list of all that was taken.
#[derive(Drop)]
pub struct Rx<T> {
    queue: Arc<Line<T>, Global>,
    pass: LinePass<T>,
}

impl<T> Model for Rx<T> {
    ghost use Rattle.std.specs.Prelude.{◌≡◌, true, false, []};
    ghost use Rattle.std.specs.Arc.{arc_value};
    ghost use Rattle.crossbeam_queue.specs.Passes.{view as knows, IsPassOf};
    ghost use Rattle.stage_queue.specs.Ends.{Receiver, receiver_code};
    ghost use Rattle.stage_queue.specs.Line.{log};

    ghost Value = { Receiver T };

    ghost coded = { receiver_code T.code };

    ghost view = { λ r. record { line = r.pass.table_id; taken = (knows r.pass).taken } };

    ghost invariant = { λ r. IsPassOf (arc_value r.queue) r.pass
        × (knows r.pass ≡ log false true [] (knows r.pass).taken) };
}

impl<T> Tx<T> {
    /// Sends an item, in one step. `Err` gives the item back: the line was full at a moment in the call, and the item was
    /// not sent. After 2^62 items it waits for ever. No memory.
    pub fn offer<R: Wait>(&mut self, rt: &R, item: T) -> Result<(), T>
        ensures sent { OnOk result (self.new ≡ record self.old { sent = self.old.sent ++ item ∷ [] }) }
        ensures back { IfErr result (λ x. (x ≡ item) × (self.new ≡ self.old)) }
        ensures full { OnErr result ((taken waiting : List T) × IsLine self.old.sent taken waiting
            × (length waiting ≡ self.old.line.slots)) }
    {
        self.queue.push_as::<Sends, R>(rt, &mut self.pass, item)
    }
}

impl<T> Rx<T> {
    /// Takes the oldest item, in one step. `None`: the line was empty at a moment in the call, and nothing was taken. No
    /// memory.
    pub fn take<R: Wait>(&mut self, rt: &R) -> Option<T>
        ensures taken { IfSome result (λ x. self.new ≡ record self.old { taken = self.old.taken ++ x ∷ [] }) }
        ensures none { IfNone result (self.new ≡ self.old) }
    {
        self.queue.pop_as::<Takes, R>(rt, &mut self.pass)
    }
}

/// A new line that holds this many items at most, and its two ends, by which nothing was sent or taken. All memory of the
/// line is taken here. The only error is `Memory`, after which there is no line.
pub fn line<T: Drop>(alloc: Global, capacity: u32) -> Result<(Middle<T>, Tx<T>, Rx<T>), Memory>
    requires { 1 ≤ capacity }
    ensures one { IfOk result (λ r. (r.1.line ≡ r.0) × (r.2.line ≡ r.0)) }
    ensures unused { IfOk result (λ r. (r.1.sent ≡ []) × (r.2.taken ≡ [])) }
    ensures room { IfOk result (λ r. r.0.slots ≡ capacity) }
{
    let (queue, mut pass) = Line::<T>::ruled(alloc, capacity as usize)?;
    let other = queue.another::<Roles>(&mut pass);
    let middle = Arc::new(alloc, queue)?;
    let near = Arc::try_clone(&middle)?;
    let far = Arc::try_clone(&middle)?;
    Ok((
        Middle { queue: middle },
        Tx { queue: near, pass },
        Rx {
            queue: far,
            pass: other,
        },
    ))
}

// The queue of a line, and the pass of both its ends.
fn reunite<T: Drop>(middle: Middle<T>, tx: Tx<T>, rx: Rx<T>) -> (Arc<Line<T>, Global>, LinePass<T>)
    requires { (tx.line ≡ middle) × (rx.line ≡ middle) }
    ensures { IsPassOf (arc_value result.0) result.1 × (knows result.1 ≡ log true true tx.sent rx.taken) }
{
    let Middle { queue } = middle;
    let Tx { queue: _, mut pass } = tx;
    let Rx {
        queue: _,
        pass: other,
    } = rx;
    queue.absorb::<Roles>(&mut pass, other);
    (queue, pass)
}

/// What is left in a line of which both ends are back, oldest first: what was taken and what is left together are what was
/// sent. The only error is `Memory`, and only where something is left; then the line and what it held are dropped, and what
/// was taken begins what was sent.
pub fn rejoin<T: Drop, R: Wait>(
    rt: &R,
    alloc: Global,
    middle: Middle<T>,
    tx: Tx<T>,
    rx: Rx<T>,
) -> Result<Vec<T>, Memory>
    requires { (tx.line ≡ middle) × (rx.line ≡ middle) }
    ensures left { IfOk result (λ left. IsLine tx.sent rx.taken left.items) }
    ensures memory { OnErr result ((left : List T) × IsLine tx.sent rx.taken left × (left ≢ [])) }
{
    let (queue, mut pass) = reunite(middle, tx, rx);
    let mut left = Vec::new(alloc);
    for _ in rt.forever() {
        match queue.pop_as::<Takes, R>(rt, &mut pass) {
            Some(item) => {
                if left.push(item).is_err() {
                    queue.learn_as::<Takes>(&mut pass);
                    return Err(Memory);
                }
            }
            None => return Ok(left),
        }
    }
    unreachable!()
}

/// Drops a line of which both ends are back, with what is left in it: what was taken begins what was sent. No memory.
pub fn close<T: Drop>(middle: Middle<T>, tx: Tx<T>, rx: Rx<T>)
    requires { (tx.line ≡ middle) × (rx.line ≡ middle) }
    ensures { (left : List T) × IsLine tx.sent rx.taken left }
{
    let (queue, mut both) = reunite(middle, tx, rx);
    queue.learn_as::<Takes>(&mut both);
}
