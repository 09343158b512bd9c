// The end of a scrub.
ghost use Rattle.std.specs.Prelude.{◌≡◌, ◌≤◌, ◌∷◌, [], MatchOption, vec_len, vec_capacity};
ghost use Rattle.vault_types.specs.declared.Answer.TheVariants as answer;
ghost use Rattle.store_model.specs.World as spec;
ghost use Rattle.store_model.specs.World.{IsPrinted, IsTold, report_text};
ghost use Rattle.scrub_model.specs.Words as words;
ghost use Rattle.scrub_model.specs.Scrubbing.{EndsScrub, answer_to};

use crate::printing::print_findings;
use command_runner::{Ended, one_answer};
use payload_health::{Findings, Health};
use report_printer::{print_all, status_after, tell};
use vault_traits::Sink;
use vault_types::{Answer, Fault, Kind, Why};

// Why a payload is damaged; a good one is not.
fn why_of(health: Health) -> Option<Why>
    ensures { result ≡ words.why_of health }
{
    match health {
        Health::Good => None,
        Health::Absent => Some(Why::Absent),
        Health::Length { want, found } => Some(Why::Length { want, found }),
        Health::Sum { want, found } => Some(Why::Sum { want, found }),
        Health::Chunk { row, want, found } => Some(Why::Chunk { row, want, found }),
    }
}

// The fault of the first container that is damaged.
fn first_damage(found: &Findings) -> Option<Fault>
    ensures { result ≡ words.first_damage found.now.damaged }
{
    let bad = found.damaged.as_slice().first()?;
    let why = why_of(bad.health)?;
    Some(Fault::Damaged {
        kind: Kind::Payload,
        number: bad.id,
        why,
    })
}

// Tells the fault of the first container that is damaged.
fn tell_first<R: Sink>(found: &Findings, report: &mut R) -> Option<Fault>
    ensures is { result ≡ words.first_damage found.now.damaged }
    ensures told { MatchOption result (R.told report.new ≡ R.told report.old)
        (λ d. IsTold d (R.told report.old) (R.told report.new)) }
{
    let first = first_damage(found);
    if let Some(fault) = &first {
        tell(fault, report);
    }
    first
}

// Prints the lines and the report; where all of that was written, it tells the first damage.
fn print_and_tell<O: Sink, R: Sink>(
    found: &Findings,
    answers: &[Answer],
    out: &mut O,
    report: &mut R,
) -> Option<Fault>
    requires { answers.now ≡ answer_to found.now ∷ [] }
    ensures { EndsScrub found.now (O.told out.old) (O.told out.new) (R.told report.old) (R.told report.new) result }
{
    match print_findings(found, answers, out) {
        Some(fault) => Some(fault),
        None => tell_first(found, report),
    }
}

/// The end of a scrub that was done: the lines and the report are on `out`, and where all of that was written the line of
/// the first damage is on `report`. It takes no memory.
pub(crate) fn ended_done<S, I, O: Sink, R: Sink>(
    shelf: S,
    room: Vec<Answer>,
    found: &Findings,
    input: I,
    out: O,
    report: &mut R,
) -> Ended<S, I, O>
    requires { (room.items ≡ []) × (vec_len room ≡ 0) × (1 ≤ vec_capacity room) }
    ensures answers { result.answers.items ≡ answer_to found.now ∷ [] }
    ensures shelf { result.shelf ≡ shelf }
    ensures input { result.input ≡ input }
    ensures ends { EndsScrub found.now (O.told out) (O.told result.out) (R.told report.old) (R.told report.new)
        result.fault }
    ensures status { result.status ≡ spec.status_after result.answers.items result.fault }
{
    let answer = Answer::Scrubbed {
        containers: found.containers,
        damaged: found.damaged.as_slice().len() as u64,
    };
    let answers = one_answer(room, answer);
    let mut out = out;
    let fault = print_and_tell(found, answers.as_slice(), &mut out, report);
    Ended {
        status: status_after(answers.as_slice(), fault),
        fault,
        answers,
        shelf,
        input,
        out,
    }
}

/// The end of a scrub that was refused: the report is on `out`. It takes no memory.
pub(crate) fn ended_refused<S, I, O: Sink>(
    shelf: S,
    room: Vec<Answer>,
    refusal: Fault,
    input: I,
    out: O,
) -> Ended<S, I, O>
    requires { (room.items ≡ []) × (vec_len room ≡ 0) × (1 ≤ vec_capacity room) }
    ensures answers { result.answers.items ≡ answer.Refused refusal ∷ [] }
    ensures shelf { result.shelf ≡ shelf }
    ensures input { result.input ≡ input }
    ensures printed { IsPrinted (report_text result.answers.items) (O.told out) (O.told result.out) result.fault }
    ensures status { result.status ≡ spec.status_after result.answers.items result.fault }
{
    let answers = one_answer(room, Answer::Refused(refusal));
    let mut out = out;
    let fault = print_all(answers.as_slice(), &mut out);
    Ended {
        status: status_after(answers.as_slice(), fault),
        fault,
        answers,
        shelf,
        input,
        out,
    }
}
