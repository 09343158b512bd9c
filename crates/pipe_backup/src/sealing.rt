// Filled containers on their way through the sealing lane, and onto the shelf as they come back.
ghost use Rattle.std.specs.Prelude.{◌≡◌, ◌∷◌, ◌++◌, [], List, None, Some, Ok, false, OnOk, IfOk, IfErr, option_to_list};
ghost use Rattle.vault_types.specs.declared.Flow.TheVariants.{Part};
ghost use Rattle.vault_types.specs.declared.Turn.TheVariants.{Moved, Idle, Done};
ghost use Rattle.vault_types.specs.Stages.{IsFront};
ghost use Rattle.vault_types.specs.Tables.{Container};
ghost use Rattle.stage_flows.specs.declared.Last.TheVariants.{End as EndItem};
ghost use Rattle.stage_flows.specs.Runs.{run};
ghost use Rattle.backup_jobs.specs.Going.{Began, AreOfJob, HasPut};
ghost use Rattle.pipe_backup.specs.Sealing.{IsSpanOf, HasHanded, IsPutHalt, IsHalt};

use backup_jobs::put_one;
use container_fill::Unsealed;
use container_store::Sealed;
use keeper_core::Keeper;
use seal_lane::SealLane;
use stage_flows::{parted, refill};
use stage_threads::BackOff;
use std::alloc::Global;
use std::sync::Wait;
use std::time::Clock;
use vault_traits::Shelf;
use vault_types::{Fault, Flow, Id, Turn};

// Why the filling with a job's parts broke off: a fault; or there came what never comes: more parts than the limit, a stop
// of a job that was not stopped, or another container than the next one.
#[derive(Drop)]
pub(crate) enum Halt {
    Failed(Fault),
    Never,
}

// The id of a job's first container, and how many chunks the job may have.
#[derive(Clone, Copy)]
pub(crate) struct Span {
    pub(crate) first: Id,
    pub(crate) limit: u32,
}

// Puts a container that came back.
fn put_sealed<S: Shelf>(
    alloc: Global,
    keeper: &mut Keeper<S>,
    span: Span,
    sealed: Sealed,
    lens: &mut Vec<u32>,
) -> Result<(), Halt>
    requires { (b : Began) × (put : List Container) × HasPut b keeper.old lens.old.items put
        × IsSpanOf b span }
    ensures ok { (b : Began) (put : List Container) → HasPut b keeper.old lens.old.items put
        → IsSpanOf b span
        → OnOk result (HasPut b keeper.new lens.new.items (put ++ sealed ∷ [])) }
    ensures err { (b : Began) (put : List Container) → HasPut b keeper.old lens.old.items put
        → IsSpanOf b span
        → IfErr result (IsPutHalt b keeper.new put sealed) }
{
    let count = lens.len();
    if count >= span.limit as usize {
        return Err(Halt::Never);
    }
    if sealed.table().id != span.first + count as u64 {
        return Err(Halt::Never);
    }
    match put_one(alloc, keeper, sealed, lens) {
        Ok(()) => Ok(()),
        Err(fault) => Err(Halt::Failed(fault)),
    }
}

// Gives a kept stage a turn, and puts what came back, if something has. Whether something moved.
pub(crate) fn put_some<R: Wait, S: Shelf>(
    rt: &R,
    alloc: Global,
    keeper: &mut Keeper<S>,
    lane: &mut SealLane,
    span: Span,
    lens: &mut Vec<u32>,
) -> Result<bool, Halt>
    requires { (b : Began) × (gone : List Container)
        × HasHanded b keeper.old lens.old.items lane.old (run gone None) × AreOfJob b gone × IsSpanOf b span }
    ensures ok { (b : Began) (gone : List Container)
        → HasHanded b keeper.old lens.old.items lane.old (run gone None) → AreOfJob b gone → IsSpanOf b span
        → OnOk result (HasHanded b keeper.new lens.new.items lane.new (run gone None)) }
    ensures err { (b : Began) (gone : List Container)
        → HasHanded b keeper.old lens.old.items lane.old (run gone None) → AreOfJob b gone → IsSpanOf b span
        → IfErr result (IsHalt b keeper.new lane.new) }
    ensures idle { result ≡ Ok false → (keeper.new ≡ keeper.old) × (lane.new ≡ lane.old)
        × (lens.new.items ≡ lens.old.items) }
{
    let kept = lane.turn(rt);
    match lane.take(rt) {
        None => Ok(kept == Turn::Moved),
        Some(item) => match parted(item) {
            Err(_) => Err(Halt::Never),
            Ok(sealed) => match put_sealed(alloc, keeper, span, sealed, lens) {
                Ok(()) => Ok(true),
                Err(halt) => Err(halt),
            },
        },
    }
}

// Hands an item to the lane. What comes back meanwhile is put.
fn hand<R: Wait + Clock, S: Shelf>(
    rt: &R,
    alloc: Global,
    keeper: &mut Keeper<S>,
    lane: &mut SealLane,
    item: Flow<Unsealed>,
    span: Span,
    lens: &mut Vec<u32>,
) -> Result<(), Halt>
    requires { (b : Began) × (gone : List Container)
        × HasHanded b keeper.old lens.old.items lane.old (run gone None) × AreOfJob b gone × IsSpanOf b span }
    ensures ok { (b : Began) (gone : List Container)
        → HasHanded b keeper.old lens.old.items lane.old (run gone None) → AreOfJob b gone → IsSpanOf b span
        → OnOk result (HasHanded b keeper.new lens.new.items lane.new (run gone None ++ item ∷ [])) }
    ensures err { (b : Began) (gone : List Container)
        → HasHanded b keeper.old lens.old.items lane.old (run gone None) → AreOfJob b gone → IsSpanOf b span
        → IfErr result (IsHalt b keeper.new lane.new) }
{
    let mut item = item;
    let mut back_off = BackOff::new();
    for _ in rt.forever() {
        let has_moved = match put_some(rt, alloc, keeper, lane, span, lens) {
            Err(halt) => return Err(halt),
            Ok(has_moved) => has_moved,
        };
        match lane.offer(rt, item) {
            Ok(()) => return Ok(()),
            Err(back) => item = back,
        }
        if has_moved {
            back_off.reset();
        } else {
            back_off.wait(rt);
        }
    }
    unreachable!()
}

// Hands the container that is held to the lane, if there is one and the lane has room: `Moved`. `Idle`, where it is held
// still; `Done`, where there is none.
pub(crate) fn hand_held<R: Wait>(rt: &R, lane: &mut SealLane, held: &mut Option<Unsealed>) -> Turn
    ensures none { result ≡ Done → (held.old ≡ None) × (held.new ≡ None) × (lane.new ≡ lane.old) }
    ensures idle { result ≡ Idle → (held.new ≡ held.old) × (lane.new ≡ lane.old) }
    ensures moved { result ≡ Moved → (c : Container) × (held.old ≡ Some c) × (held.new ≡ None)
        × (lane.new ≡ record lane.old { given = lane.old.given ++ Part c ∷ [] }) }
{
    let Some(unsealed) = held.take() else {
        return Turn::Done;
    };
    match lane.offer(rt, Flow::Part(unsealed)) {
        Ok(()) => Turn::Moved,
        Err(back) => match parted(back) {
            Ok(unsealed) => {
                refill(held, Some(unsealed));
                Turn::Idle
            }
            Err(_) => unreachable!(),
        },
    }
}

// Hands a container that the filler gave out to the lane, if there is one.
pub(crate) fn hand_on<R: Wait + Clock, S: Shelf>(
    rt: &R,
    alloc: Global,
    keeper: &mut Keeper<S>,
    lane: &mut SealLane,
    given: Option<Unsealed>,
    span: Span,
    lens: &mut Vec<u32>,
) -> Result<(), Halt>
    requires { (b : Began) × (gone : List Container)
        × HasHanded b keeper.old lens.old.items lane.old (run gone None) × AreOfJob b gone × IsSpanOf b span }
    ensures ok { (b : Began) (gone : List Container)
        → HasHanded b keeper.old lens.old.items lane.old (run gone None) → AreOfJob b gone → IsSpanOf b span
        → OnOk result
        (HasHanded b keeper.new lens.new.items lane.new (run (gone ++ option_to_list given) None)) }
    ensures err { (b : Began) (gone : List Container)
        → HasHanded b keeper.old lens.old.items lane.old (run gone None) → AreOfJob b gone → IsSpanOf b span
        → IfErr result (IsHalt b keeper.new lane.new) }
{
    match given {
        None => Ok(()),
        Some(unsealed) => hand(rt, alloc, keeper, lane, Flow::Part(unsealed), span, lens),
    }
}

// Puts all that comes back, to its last item.
fn collect<R: Wait + Clock, S: Shelf>(
    rt: &R,
    alloc: Global,
    keeper: &mut Keeper<S>,
    lane: &mut SealLane,
    span: Span,
    lens: &mut Vec<u32>,
) -> Result<(), Halt>
    requires { (b : Began) × (gone : List Container)
        × HasHanded b keeper.old lens.old.items lane.old (run gone (Some EndItem)) × AreOfJob b gone
        × IsSpanOf b span }
    ensures ok { (b : Began) (gone : List Container)
        → HasHanded b keeper.old lens.old.items lane.old (run gone (Some EndItem)) → AreOfJob b gone
        → IsSpanOf b span
        → OnOk result (IsFront lane.new.back lane.new.given → HasPut b keeper.new lens.new.items gone) }
    ensures err { (b : Began) (gone : List Container)
        → HasHanded b keeper.old lens.old.items lane.old (run gone (Some EndItem)) → AreOfJob b gone
        → IsSpanOf b span
        → IfErr result (IsHalt b keeper.new lane.new) }
{
    for _ in rt.forever() {
        match parted(lane.next(rt)) {
            Err(_) => return Ok(()),
            Ok(sealed) => {
                if let Err(halt) = put_sealed(alloc, keeper, span, sealed, lens) {
                    return Err(halt);
                }
            }
        }
    }
    unreachable!()
}

// Hands the container that the filler still held to the lane, and the end, and puts all that comes back.
pub(crate) fn hand_rest<R: Wait + Clock, S: Shelf>(
    rt: &R,
    alloc: Global,
    keeper: &mut Keeper<S>,
    lane: &mut SealLane,
    last: Option<Unsealed>,
    span: Span,
    lens: &mut Vec<u32>,
) -> Result<(), Halt>
    requires { (b : Began) × (gone : List Container)
        × HasHanded b keeper.old lens.old.items lane.old (run gone None) × AreOfJob b gone
        × AreOfJob b (gone ++ option_to_list last) × IsSpanOf b span }
    ensures ok { (b : Began) (gone : List Container)
        → HasHanded b keeper.old lens.old.items lane.old (run gone None) → AreOfJob b gone
        → AreOfJob b (gone ++ option_to_list last) → IsSpanOf b span
        → OnOk result (IsFront lane.new.back lane.new.given
        → HasPut b keeper.new lens.new.items (gone ++ option_to_list last)) }
    ensures err { (b : Began) (gone : List Container)
        → HasHanded b keeper.old lens.old.items lane.old (run gone None) → AreOfJob b gone
        → AreOfJob b (gone ++ option_to_list last) → IsSpanOf b span
        → IfErr result (IsHalt b keeper.new lane.new) }
{
    if let Err(halt) = hand_on(rt, alloc, keeper, lane, last, span, lens) {
        return Err(halt);
    }
    if let Err(halt) = hand(rt, alloc, keeper, lane, Flow::End, span, lens) {
        return Err(halt);
    }
    collect(rt, alloc, keeper, lane, span, lens)
}
