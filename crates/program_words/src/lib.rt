//! The words that a program was called with, and its end where it is refused before a run.
#![tactic(auto)]

ghost use Rattle.std.specs.Prelude.{◌≡◌};
ghost use Rattle.std.specs.Process.{exit_status};
ghost use Rattle.vault_types.specs.Texts.{status_of};
ghost use Rattle.store_model.specs.World.{IsTold};

use report_printer::tell;
use std::process::ExitCode;
use std::{env, io};
use vault_traits::Sink;
use vault_types::Fault;

/// The words after the program's name. `Usage` where they are no text, else `Memory`.
pub fn words_of<R: env::Env + AllocGlobal>(rt: &R) -> Result<Vec<String>, Fault> {
    match env::args(rt) {
        Ok(words) => Ok(words.skip(1).collect(rt.alloc())?),
        Err(e) if e.kind() == io::ErrorKind::OutOfMemory => Err(Fault::Memory),
        Err(_) => Err(Fault::Usage),
    }
}

/// Tells the fault on the report, and ends with its status.
pub fn refuse<R: Sink>(fault: Fault, report: &mut R) -> ExitCode
    ensures status { exit_status result ≡ status_of fault }
    ensures line { IsTold fault (R.told report.old) (R.told report.new) }
{
    tell(&fault, report);
    ExitCode::from(fault.status())
}
