// What `fill` prints.
ghost use Rattle.std.specs.Prelude.{◌≡◌, ◌≤◌, ◌++◌, ℕ, List};
ghost use Rattle.vault_types.specs.Names.{fp};
ghost use Rattle.vault_types.specs.Texts as texts;
ghost use Rattle.store_model.specs.Filling.{output_of, outputs_text};
ghost use Rattle.store_model.specs.World.{IsPrinted, report_text};
ghost use Rattle.workload.specs.Places.{file_at};

use report_printer::{print_all, write_all};
use script_words::output_text;
use vault_traits::{Failed, Sink};
use vault_types::{Answer, Fault, Fp, Line, Version};
use workload::FillPlaces;

// Prints the line of a version that was restored.
fn print_sum<O: Sink>(version: Version, sum: &Fp, out: &mut O) -> Option<Fault>
    ensures printed { (bytes : List ℕ) → sum.now ≡ fp bytes
        → IsPrinted (texts.output_text version bytes) (O.told out.old) (O.told out.new) result }
    ensures later { (O.told out.old).faults ≤ (O.told out.new).faults }
{
    let mut line = [0; 256];
    let len = output_text(version, sum, &mut line);
    match write_all(&line[..len], out) {
        Ok(()) => None,
        Err(Failed) => Some(Fault::WriteFault(out.faults())),
    }
}

// Prints the sum of what a restore wrote that was done.
fn print_output<O: Sink>(
    line: &Line,
    answer: &Answer,
    places: &FillPlaces,
    out: &mut O,
) -> Option<Fault>
    ensures printed { IsPrinted (output_of (file_at places.now.seed places.now.places) line.now answer.now)
        (O.told out.old) (O.told out.new) result }
    ensures later { (O.told out.old).faults ≤ (O.told out.new).faults }
{
    match line {
        Line::Restore { version, name, .. } => match answer {
            Answer::Restored { .. } => print_sum(*version, &places.sum(name.as_str()), out),
            _ => None,
        },
        _ => None,
    }
}

// Prints the sums of what the restores wrote that were done, one after another.
fn print_outputs<O: Sink>(
    lines: &[Line],
    answers: &[Answer],
    places: &FillPlaces,
    out: &mut O,
) -> Option<Fault>
    ensures { IsPrinted (outputs_text (file_at places.now.seed places.now.places) lines.now answers.now)
        (O.told out.old) (O.told out.new) result }
{
    let count = lines.len().min(answers.len());
    for at in 0..count {
        let line = &lines[at];
        let answer = &answers[at];
        if let Some(fault) = print_output(line, answer, places, out) {
            return Some(fault);
        }
    }
    None
}

// Prints the report, and the sums behind it. It takes no memory.
pub(crate) fn print_filled<O: Sink>(
    lines: &[Line],
    answers: &[Answer],
    places: &FillPlaces,
    out: &mut O,
) -> Option<Fault>
    ensures { IsPrinted
        (report_text answers.now
        ++ outputs_text (file_at places.now.seed places.now.places) lines.now answers.now)
        (O.told out.old) (O.told out.new) result }
{
    match print_all(answers, out) {
        Some(fault) => Some(fault),
        None => print_outputs(lines, answers, places, out),
    }
}
