// The script of `fill`, over places of its own.
ghost use Rattle.std.specs.Prelude.{true, ◌≡◌, ◌≤◌, ℕ, Bool, Some, IfOk, IfErr};
ghost use Rattle.vault_types.specs.Generator.{fill_lines};
ghost use Rattle.vault_types.specs.declared.Limits.{Limits as LimitsOf};
ghost use Rattle.vault_traits.specs.Told.{PlacesTold, ShelfTold};
ghost use Rattle.store_model.specs.Filling.{AreGenerated, RunsFill};
ghost use Rattle.store_model.specs.Ranges.{AreLimits};
ghost use Rattle.store_model.specs.World.{world};
ghost use Rattle.workload.specs.Places.{FilledPlaces, told_of};
ghost use Rattle.command_runner.specs.Going.{GoesOn, HasRun, HasRoom, HasNotOpened};

use crate::ending::{Ended, ended_early, ended_with};
use crate::opened::run_over;
use crate::outputs::print_filled;
use crate::store::ShelfStore;
use script_words::fill_script;
use std::alloc::Global;
use vault_traits::{Shelf, Sink, Source};
use vault_types::{Answer, Fault, Limits, Line, Memory};
use workload::FillPlaces;

/// The lines of the script of `fill`, and the places that it runs over.
pub fn script_and_places(
    alloc: Global,
    seed: u64,
    versions: u32,
) -> Result<(Vec<Line>, FillPlaces), Memory>
    requires { versions ≤ 64 }
    ensures lines { IfOk result (λ p. p.0.items ≡ fill_lines versions) }
    ensures places { IfOk result (λ p. AreGenerated seed versions (told_of p.1)) }
{
    let lines = fill_script(alloc, versions)?;
    let places = FillPlaces::with(alloc, seed)?;
    Ok((lines, places))
}

/// The end of a run of the script of `fill`, which gave this over these places: the report and the sums of what was
/// restored are on `out`. It takes no memory.
pub fn ended_fill<S: Shelf, I: Source, O: Sink, R: Sink>(
    alloc: Global,
    script: &[Line],
    left: &FillPlaces,
    ran: Result<(Vec<Answer>, S), (Fault, S)>,
    input: I,
    out: O,
    report: &mut R,
) -> Ended<S, I, O>
    ensures { (in_order : Bool) (seed versions : ℕ) (before : ShelfTold) (limits : LimitsOf)
        (made : FilledPlaces) (places : PlacesTold) → script.now ≡ fill_lines versions
        → AreGenerated seed versions (told_of made)
        → IfOk ran (λ done. HasRun in_order before limits script.now (told_of made) (told_of left.now)
        done.0.items (S.told done.1))
        → IfOk ran (λ done. HasRoom before script.now (told_of made) (Some 8388671) done.0.items)
        → IfErr ran (λ e. HasNotOpened before (told_of made) (told_of left.now) e.0 (S.told e.1))
        → GoesOn (RunsFill in_order seed versions limits)
        (world before places (I.told input) (O.told out) (R.told report.old))
        (world (S.told result.shelf) places (I.told result.input) (O.told result.out) (R.told report.new))
        result.answers.items result.fault result.status }
{
    match ran {
        Err((fault, shelf)) => ended_early(alloc, fault, shelf, input, out, report),
        Ok((answers, shelf)) => {
            let mut out = out;
            let fault = print_filled(script, answers.as_slice(), left, &mut out);
            ended_with(shelf, answers, fault, input, out)
        }
    }
}

// Runs the script of `fill`. The report and the sums of what was restored are on `out`.
pub(crate) fn run_fill<S: Shelf, K: ShelfStore<S>, I: Source, O: Sink, R: Sink>(
    alloc: Global,
    seed: u64,
    versions: u32,
    limits: &Limits,
    shelf: S,
    input: I,
    out: O,
    report: &mut R,
) -> Ended<S, I, O>
    requires few { versions ≤ 64 }
    requires limits { AreLimits limits.now }
    ensures { (places : PlacesTold) → GoesOn (RunsFill true seed versions limits.now)
        (world (S.told shelf) places (I.told input) (O.told out) (R.told report.old))
        (world (S.told result.shelf) places (I.told result.input) (O.told result.out) (R.told report.new))
        result.answers.items result.fault result.status }
{
    let (lines, made) = match script_and_places(alloc, seed, versions) {
        Ok(made) => made,
        Err(Memory) => return ended_early(alloc, Fault::Memory, shelf, input, out, report),
    };
    let mut made = made;
    let script = lines.as_slice();
    let ran = run_over::<S, K, FillPlaces>(alloc, script, limits, shelf, &mut made);
    ended_fill(alloc, script, &made, ran, input, out, report)
}
