// The recipe of a version, as text.
ghost use Rattle.std.specs.Prelude.{◌≡◌, ◌≤◌, ◌<◌, ◌^◌, ◌∷◌, [], length, IsTrue, None};
ghost use Rattle.vault_types.specs.State.{State};
ghost use Rattle.vault_traits.specs.Told.{PlacesTold};
ghost use Rattle.store_model.specs.Causes.{CausesRise, counts_of_sink};
ghost use Rattle.store_model.specs.Early.{IsSameBut};
ghost use Rattle.store_model.specs.Courses.{IsShown, RunsShow, fits_show};
ghost use Rattle.store_model.specs.World.{world};
ghost use Rattle.command_runner.specs.Going.{GoesOn};
ghost use Rattle.command_runner.specs.Showing.{IsWrittenRecipe};

use crate::ending::{Ended, ended_early, ended_on_report, one_answer, open_for_one};
use crate::store::ShelfStore;
use report_printer::write_all;
use script_words::show_text;
use std::alloc::Global;
use vault_traits::{Failed, Shelf, Sink, Source};
use vault_types::{Answer, Fault, Memory, Recipe, Set, Version};

// Writes the text of a recipe.
fn write_recipe<O: Sink>(
    alloc: Global,
    set: Set,
    version: Version,
    recipe: &Recipe,
    out: &mut O,
) -> Answer
    requires { length recipe.now.rows < 2 ^ 32 }
    ensures written { IsWrittenRecipe set version recipe.now (O.told out.old) (O.told out.new) result }
    ensures later { (O.told out.old).faults ≤ (O.told out.new).faults }
{
    let mut text = Vec::new(alloc);
    match show_text(recipe, &mut text) {
        Err(Memory) => Answer::Refused(Fault::Memory),
        Ok(()) => match write_all(text.as_slice(), out) {
            Err(Failed) => Answer::Refused(Fault::WriteFault(out.faults())),
            Ok(()) => Answer::Shown {
                set,
                version,
                rows: recipe.rows.as_slice().len() as u32,
            },
        },
    }
}

// Reads the recipe of a version, and writes its text.
fn show<S: Shelf, K: ShelfStore<S>, O: Sink>(
    alloc: Global,
    store: &mut K,
    set: Set,
    version: Version,
    out: &mut O,
) -> Answer
    ensures kind { IsTrue (fits_show set version result) }
    ensures causes { CausesRise (counts_of_sink (K.shelf store.old) (O.told out.old))
        (counts_of_sink (K.shelf store.new) (O.told out.new)) (result ∷ []) }
    ensures shown { (T : State) → K.keeps store.old T None
        → IsShown T set version result (O.told out.old) (O.told out.new) }
    ensures same { IsSameBut (K.shelf store.old) (K.shelf store.new) }
{
    match store.recipe(alloc, set, version) {
        Err(fault) => Answer::Refused(fault),
        Ok(recipe) => write_recipe(alloc, set, version, &recipe, out),
    }
}

// Shows the recipe of a version on `out`; the report is on `report`.
pub(crate) fn run_show<S: Shelf, K: ShelfStore<S>, I: Source, O: Sink, R: Sink>(
    alloc: Global,
    set: Set,
    version: Version,
    shelf: S,
    input: I,
    out: O,
    report: &mut R,
) -> Ended<S, I, O>
    ensures { (places : PlacesTold) → GoesOn (RunsShow set version)
        (world (S.told shelf) places (I.told input) (O.told out) (R.told report.old))
        (world (S.told result.shelf) places (I.told result.input) (O.told result.out) (R.told report.new))
        result.answers.items result.fault result.status }
{
    let (store, room) = match open_for_one::<S, K>(alloc, shelf) {
        Ok(opened) => opened,
        Err((fault, shelf)) => return ended_early(alloc, fault, shelf, input, out, report),
    };
    let (mut store, mut out) = (store, out);
    let answer = show::<S, K, O>(alloc, &mut store, set, version, &mut out);
    ended_on_report(store, one_answer(room, answer), input, out, report)
}
