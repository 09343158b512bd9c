// The steps of a backup that runs.
ghost use Rattle.std.specs.Prelude.{◌≡◌, false, None, Ok, OnOk, IfErr};
ghost use Rattle.vault_types.specs.declared.Turn.TheVariants.{Idle as Rests};
ghost use Rattle.keeper_catalog.specs.View.{View as Keeping};
ghost use Rattle.backup_jobs.specs.Going.{Began};
ghost use Rattle.pipe_backup.specs.Piping.{IsPiping, HasCome};

use crate::piping::{Ended, Piping};
use crate::sealing::{Halt, hand_held, put_some};
use backup_jobs::take_part;
use keeper_core::Keeper;
use stage_flows::parted;
use std::alloc::Global;
use std::sync::Wait;
use vault_traits::{Shelf, Source};
use vault_types::{Fault, Turn};

// Takes the next part that came of the stages, if there is one. Whether something moved, the last container among it.
fn take_next<I: Source + Drop, R: Wait>(
    rt: &R,
    alloc: Global,
    piping: &mut Piping<I>,
    has_handed: bool,
) -> Result<bool, Ended>
    requires { piping.old.held ≡ None }
    ensures ok { (b : Began) (now : Keeping) → IsPiping b (λ (i : I). I.told i) now piping.old
        → OnOk result (IsPiping b (λ (i : I). I.told i) now piping.new) }
    ensures err { (b : Began) (now : Keeping) → IsPiping b (λ (i : I). I.told i) now piping.old
        → IfErr result (HasCome b (λ (i : I). I.told i) now piping.new) }
    ensures idle { result ≡ Ok false → (piping.new ≡ piping.old) × (has_handed ≡ false) }
{
    match piping.stages.take(rt) {
        None => Ok(has_handed),
        Some(item) => match parted(item) {
            Err(last) => Err(Ended { last: Ok(last) }),
            Ok(part) => {
                if piping.count >= piping.span.limit {
                    return Err(Ended {
                        last: Err(Halt::Never),
                    });
                }
                match take_part(alloc, &mut piping.filler, part) {
                    Err(_) => Err(Ended {
                        last: Err(Halt::Failed(Fault::Memory)),
                    }),
                    Ok(given) => {
                        piping.held = given;
                        piping.count += 1;
                        Ok(true)
                    }
                }
            }
        },
    }
}

// Hands the container that is held to the lane, and then takes the next part. Whether something moved.
fn fill_some<I: Source + Drop, R: Wait>(
    rt: &R,
    alloc: Global,
    piping: &mut Piping<I>,
) -> Result<bool, Ended>
    ensures ok { (b : Began) (now : Keeping) → IsPiping b (λ (i : I). I.told i) now piping.old
        → OnOk result (IsPiping b (λ (i : I). I.told i) now piping.new) }
    ensures err { (b : Began) (now : Keeping) → IsPiping b (λ (i : I). I.told i) now piping.old
        → IfErr result (HasCome b (λ (i : I). I.told i) now piping.new) }
    ensures idle { result ≡ Ok false → piping.new ≡ piping.old }
{
    match hand_held(rt, &mut piping.lane, &mut piping.held) {
        Turn::Idle => Ok(false),
        Turn::Moved => take_next(rt, alloc, piping, true),
        Turn::Done => take_next(rt, alloc, piping, false),
    }
}

/// One step of a backup that runs, which waits for nothing: puts the container that came back of the sealing lane, gives the
/// kept stages a turn each, and takes the next part that came of the stages, if the last container is on its way. `Moved`,
/// where it did any of this; `Idle`, where it did not, and then all is as it was. `Err` behind the last item of the stages,
/// and at once where a put failed or there was no memory: the backup has no more steps, and is to be ended. Between two steps
/// payloads may be loaded from the keeper (`IsLoaded`), but not behind an `Err`.
pub fn step_piped<I: Source + Drop, R: Wait, S: Shelf>(
    rt: &R,
    alloc: Global,
    keeper: &mut Keeper<S>,
    piping: &mut Piping<I>,
) -> Result<Turn, Ended>
    requires { (b : Began) × IsPiping b (λ (i : I). I.told i) keeper.old piping.old }
    ensures ok { (b : Began) → IsPiping b (λ (i : I). I.told i) keeper.old piping.old
        → OnOk result (IsPiping b (λ (i : I). I.told i) keeper.new piping.new) }
    ensures err { (b : Began) → IsPiping b (λ (i : I). I.told i) keeper.old piping.old
        → IfErr result (HasCome b (λ (i : I). I.told i) keeper.new piping.new) }
    ensures idle { result ≡ Ok Rests → (keeper.new ≡ keeper.old) × (piping.new ≡ piping.old) }
{
    let has_put = match put_some(
        rt,
        alloc,
        keeper,
        &mut piping.lane,
        piping.span,
        &mut piping.lens,
    ) {
        Err(halt) => return Err(Ended { last: Err(halt) }),
        Ok(has_put) => has_put,
    };
    let kept = piping.stages.turn_rest(rt);
    match fill_some(rt, alloc, piping) {
        Err(ended) => Err(ended),
        Ok(has_filled) => {
            if has_put || has_filled || kept == Turn::Moved {
                Ok(Turn::Moved)
            } else {
                Ok(Turn::Idle)
            }
        }
    }
}
