// The exit status.
ghost use Rattle.std.specs.Prelude.{◌≡◌};
ghost use Rattle.store_model.specs.World as spec;

use vault_types::{Answer, Fault};

/// The status of a run: that of the first answer that is refused, else that of the fault, else 0.
pub fn status_after(answers: &[Answer], fault: Option<Fault>) -> u8
    ensures { result ≡ spec.status_after answers.now fault }
{
    match first_fault(answers) {
        Some(refused) => refused.status(),
        None => match fault {
            Some(fault) => fault.status(),
            None => 0,
        },
    }
}

fn first_fault(answers: &[Answer]) -> Option<Fault>
    ensures { result ≡ spec.first_fault answers.now }
{
    for answer in answers {
        if let Answer::Refused(fault) = answer {
            return Some(*fault);
        }
    }
    None
}
