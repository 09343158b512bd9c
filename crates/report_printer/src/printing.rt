// The report lines.
ghost use Rattle.std.specs.Prelude.{◌≤◌, OnOk, OnErr};
ghost use Rattle.vault_types.specs.Texts.{answer_text};
ghost use Rattle.vault_traits.specs.Counts.{Rose};
ghost use Rattle.vault_traits.specs.Told.{Takes};
ghost use Rattle.store_model.specs.World.{IsPrinted, IsTold, TakesFront, report_text};

use script_words::{answer_text, fault_text};
use vault_traits::{Failed, Sink};
use vault_types::{Answer, Fault};

/// Writes the whole text, unless the sink fails: then it has taken a front of it.
pub fn write_all<O: Sink>(text: &[u8], out: &mut O) -> Result<(), Failed>
    ensures ok { OnOk result (Takes (O.told out.old).taken (O.told out.new).taken text.now) }
    ensures err { OnErr result (Rose (O.told out.old).faults (O.told out.new).faults
        × TakesFront (O.told out.old) (O.told out.new) text.now) }
    ensures later { (O.told out.old).faults ≤ (O.told out.new).faults }
{
    vault_traits::write_all(text, out)
}

// Prints the line of an answer.
fn print<O: Sink>(answer: &Answer, out: &mut O) -> Option<Fault>
    ensures printed { IsPrinted (answer_text answer.now) (O.told out.old) (O.told out.new) result }
    ensures later { (O.told out.old).faults ≤ (O.told out.new).faults }
{
    let mut line = [0; 256];
    let len = answer_text(answer, &mut line);
    match write_all(&line[..len], out) {
        Ok(()) => None,
        Err(Failed) => Some(Fault::WriteFault(out.faults())),
    }
}

/// Prints the lines of the answers one after another. Where the sink fails, that is the fault, and a front is written.
pub fn print_all<O: Sink>(answers: &[Answer], out: &mut O) -> Option<Fault>
    ensures printed { IsPrinted (report_text answers.now) (O.told out.old) (O.told out.new) result }
    ensures later { (O.told out.old).faults ≤ (O.told out.new).faults }
{
    for answer in answers {
        if let Some(fault) = print(answer, out) {
            return Some(fault);
        }
    }
    None
}

/// Prints the line of a fault; a sink that fails changes nothing else.
pub fn tell<R: Sink>(fault: &Fault, report: &mut R)
    ensures { IsTold fault.now (R.told report.old) (R.told report.new) }
{
    let mut line = [0; 256];
    let len = fault_text(fault, &mut line);
    let _ = write_all(&line[..len], report);
}
