// Opens the store and runs lines over places.
ghost use Rattle.std.specs.Prelude.{true, IfOk, IfErr};
ghost use Rattle.std.specs.List.{AllByRecursion};
ghost use Rattle.store_model.specs.Outputs.{AreApartLines};
ghost use Rattle.store_model.specs.Ranges.{AreLimits, IsLineInRange};
ghost use Rattle.command_runner.specs.Going.{HasRun, HasRoom, HasNotOpened};

use crate::store::ShelfStore;
use script_runner::{Done, script_plain};
use std::alloc::Global;
use vault_traits::{Places, Shelf};
use vault_types::{Answer, Fault, Limits, Line};

// Opens the store, runs the lines over the places, and gives their answers and the shelf.
pub(crate) fn run_over<S: Shelf, K: ShelfStore<S>, P: Places>(
    alloc: Global,
    lines: &[Line],
    limits: &Limits,
    shelf: S,
    places: &mut P,
) -> Result<(Vec<Answer>, S), (Fault, S)>
    requires apart { AreApartLines lines.now }
    requires ranges { AllByRecursion IsLineInRange lines.now }
    requires limits { AreLimits limits.now }
    ensures ok { IfOk result (λ done. HasRun true (S.told shelf) limits.now lines.now (P.told places.old)
        (P.told places.new) done.0.items (S.told done.1)) }
    ensures room { IfOk result (λ done. HasRoom (S.told shelf) lines.now (P.told places.old) P.room
        done.0.items) }
    ensures err { IfErr result (λ e. HasNotOpened (S.told shelf) (P.told places.old) (P.told places.new)
        e.0 (S.told e.1)) }
{
    let store = match K::start(alloc, shelf) {
        Ok(store) => store,
        Err(refused) => return Err(refused),
    };
    match script_plain(alloc, store, lines, places, limits) {
        Err((_, store)) => Err((Fault::Memory, store.close())),
        Ok(done) => {
            let Done { store, answers } = done;
            Ok((answers, store.close()))
        }
    }
}
