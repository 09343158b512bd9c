// The end of a run whose lines have run.
ghost use Rattle.std.specs.Prelude.{◌≡◌, Bool, List, IfOk, IfErr};
ghost use Rattle.vault_types.specs.declared.Limits.{Limits as LimitsOf};
ghost use Rattle.vault_types.specs.declared.Line.{Line as LineOf};
ghost use Rattle.vault_traits.specs.Told.{PlacesTold, ShelfTold};
ghost use Rattle.store_model.specs.Run.{RanLines};
ghost use Rattle.store_model.specs.World.{world};
ghost use Rattle.command_runner.specs.Going.{GoesOn, HasRun, HasNotOpened};

use crate::ending::{Ended, ended_early, ended_with};
use report_printer::print_all;
use std::alloc::Global;
use vault_traits::{Shelf, Sink, Source};
use vault_types::{Answer, Fault};

/// The end of a run of lines, which gave this; their report is on `out`. It takes no memory.
pub fn ended_lines<S: Shelf, I: Source, O: Sink, R: Sink>(
    alloc: Global,
    ran: Result<(Vec<Answer>, S), (Fault, S)>,
    input: I,
    out: O,
    report: &mut R,
) -> Ended<S, I, O>
    ensures { (in_order : Bool) (before : ShelfTold) (limits : LimitsOf) (lines : List LineOf)
        (p q : PlacesTold)
        → IfOk ran (λ done. HasRun in_order before limits lines p q done.0.items (S.told done.1))
        → IfErr ran (λ e. HasNotOpened before p q e.0 (S.told e.1))
        → GoesOn (RanLines in_order lines limits)
        (world before p (I.told input) (O.told out) (R.told report.old))
        (world (S.told result.shelf) q (I.told result.input) (O.told result.out) (R.told report.new))
        result.answers.items result.fault result.status }
{
    match ran {
        Err((fault, shelf)) => ended_early(alloc, fault, shelf, input, out, report),
        Ok((answers, shelf)) => {
            let mut out = out;
            let fault = print_all(answers.as_slice(), &mut out);
            ended_with(shelf, answers, fault, input, out)
        }
    }
}
