// The command `migrate`.
ghost use Rattle.vault_traits.specs.Told.{PlacesTold};
ghost use Rattle.store_model.specs.Migrating.{RunsMigrate};
ghost use Rattle.store_model.specs.World.{world};
ghost use Rattle.command_runner.specs.Going.{GoesOn};

use crate::ending::{Ended, answer_from, ended_early, ended_on_out, one_answer, open_for_one};
use crate::store::ShelfStore;
use std::alloc::Global;
use vault_traits::{Shelf, Sink, Source};

// Puts recipes again; the report is on `out`.
pub(crate) fn run_migrate<S: Shelf, K: ShelfStore<S>, I: Source, O: Sink, R: Sink>(
    alloc: Global,
    shelf: S,
    input: I,
    out: O,
    report: &mut R,
) -> Ended<S, I, O>
    ensures { (places : PlacesTold) → GoesOn RunsMigrate
        (world (S.told shelf) places (I.told input) (O.told out) (R.told report.old))
        (world (S.told result.shelf) places (I.told result.input) (O.told result.out) (R.told report.new))
        result.answers.items result.fault result.status }
{
    let (store, room) = match open_for_one::<S, K>(alloc, shelf) {
        Ok(opened) => opened,
        Err((fault, shelf)) => return ended_early(alloc, fault, shelf, input, out, report),
    };
    let mut store = store;
    let result = store.migrate(alloc);
    ended_on_out(store, one_answer(room, answer_from(result)), input, out)
}
