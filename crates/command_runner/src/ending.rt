// The end of a run.
ghost use Rattle.std.specs.Prelude.{◌≡◌, ◌≤◌, None, Some, [], ◌∷◌, IfOk, IfErr, vec_len, vec_capacity};
ghost use Rattle.vault_types.specs.declared.Name.{Name as Named};
ghost use Rattle.vault_types.specs.State.{State};
ghost use Rattle.store_model.specs.Leaves.{Begins};
ghost use Rattle.store_model.specs.Steps.{answer_of};
ghost use Rattle.store_model.specs.Strays.{StraysOf};
ghost use Rattle.store_model.specs.Early.{HasOpened, IsSameBut, IsStartFault};
ghost use Rattle.store_model.specs.World as spec;
ghost use Rattle.store_model.specs.World.{IsPrinted, IsTold, report_text};

use crate::store::ShelfStore;
use report_printer::{print_all, status_after, tell};
use std::alloc::Global;
use vault_traits::{Shelf, Sink, Source};
use vault_types::{Answer, Fault};

/// What a run gives back. `fault` is why it ended before its first line, or that its report could not be written;
/// `answers` has one answer a line; `status` is the exit status.
#[derive(Drop)]
pub struct Ended<S, I, O> {
    pub status: u8,
    pub fault: Option<Fault>,
    pub answers: Vec<Answer>,
    pub shelf: S,
    pub input: I,
    pub out: O,
}

/// The end of a run with these answers. It takes no memory.
pub fn ended_with<S, I, O>(
    shelf: S,
    answers: Vec<Answer>,
    fault: Option<Fault>,
    input: I,
    out: O,
) -> Ended<S, I, O>
    ensures fault { result.fault ≡ fault }
    ensures answers { result.answers.items ≡ answers.items }
    ensures shelf { result.shelf ≡ shelf }
    ensures input { result.input ≡ input }
    ensures out { result.out ≡ out }
    ensures status { result.status ≡ spec.status_after answers.items fault }
{
    Ended {
        status: status_after(answers.as_slice(), fault),
        fault,
        answers,
        shelf,
        input,
        out,
    }
}

/// The end of a run before its first line: the fault's line is on `report`. It takes no memory.
pub fn ended_early<S: Shelf, I: Source, O: Sink, R: Sink>(
    alloc: Global,
    fault: Fault,
    shelf: S,
    input: I,
    out: O,
    report: &mut R,
) -> Ended<S, I, O>
    ensures fault { result.fault ≡ Some fault }
    ensures none { result.answers.items ≡ [] }
    ensures shelf { result.shelf ≡ shelf }
    ensures input { result.input ≡ input }
    ensures out { result.out ≡ out }
    ensures line { IsTold fault (R.told report.old) (R.told report.new) }
    ensures status { result.status ≡ spec.status_after [] (Some fault) }
{
    tell(&fault, report);
    ended_with(shelf, Vec::new(alloc), Some(fault), input, out)
}

/// The end of a run whose report is on `out`.
pub fn ended_on_out<S: Shelf, K: ShelfStore<S>, I: Source, O: Sink>(
    store: K,
    answers: Vec<Answer>,
    input: I,
    out: O,
) -> Ended<S, I, O>
    ensures answers { result.answers.items ≡ answers.items }
    ensures shelf { S.told result.shelf ≡ K.shelf store }
    ensures input { result.input ≡ input }
    ensures printed { IsPrinted (report_text answers.items) (O.told out) (O.told result.out) result.fault }
    ensures status { result.status ≡ spec.status_after answers.items result.fault }
{
    let mut out = out;
    let fault = print_all(answers.as_slice(), &mut out);
    ended_with(store.close(), answers, fault, input, out)
}

/// The end of a run whose report is on `report`.
pub fn ended_on_report<S: Shelf, K: ShelfStore<S>, I: Source, O: Sink, R: Sink>(
    store: K,
    answers: Vec<Answer>,
    input: I,
    out: O,
    report: &mut R,
) -> Ended<S, I, O>
    ensures answers { result.answers.items ≡ answers.items }
    ensures shelf { S.told result.shelf ≡ K.shelf store }
    ensures input { result.input ≡ input }
    ensures out { result.out ≡ out }
    ensures printed { IsPrinted (report_text answers.items)
        (R.told report.old) (R.told report.new) result.fault }
    ensures status { result.status ≡ spec.status_after answers.items result.fault }
{
    let fault = print_all(answers.as_slice(), report);
    ended_with(store.close(), answers, fault, input, out)
}

/// The answer of a call that ran a line.
pub fn answer_from(outcome: Result<Answer, Fault>) -> Answer
    ensures { result ≡ answer_of outcome }
{
    match outcome {
        Ok(answer) => answer,
        Err(fault) => Answer::Refused(fault),
    }
}

/// The answer, in the room that was taken for it.
pub fn one_answer(room: Vec<Answer>, answer: Answer) -> Vec<Answer>
    requires { (room.items ≡ []) × (vec_len room ≡ 0) × (1 ≤ vec_capacity room) }
    ensures { result.items ≡ answer ∷ [] }
{
    let mut answers = room;
    match answers.push(answer) {
        Ok(()) => answers,
        Err(_) => unreachable!(),
    }
}

/// Opens the store, and takes the room for one answer.
pub fn open_for_one<S: Shelf, K: ShelfStore<S>>(
    alloc: Global,
    shelf: S,
) -> Result<(K, Vec<Answer>), (Fault, S)>
    ensures opened { IfOk result (λ k. HasOpened (S.told shelf)) }
    ensures same { IfOk result (λ k. IsSameBut (S.told shelf) (K.shelf k.0)) }
    ensures keeps { IfOk result (λ k. (T : State) → Begins (S.told shelf) T → K.keeps k.0 T None) }
    ensures strays { IfOk result (λ k. (T : State) → Begins (S.told shelf) T → (n : Named) → K.strays k.0 n
        → StraysOf (S.told shelf) T n) }
    ensures room { IfOk result (λ k. (k.1.items ≡ []) × (vec_len k.1 ≡ 0) × (1 ≤ vec_capacity k.1)) }
    ensures err { IfErr result (λ e. IsSameBut (S.told shelf) (S.told e.1)
        × IsStartFault (S.told shelf) (S.told e.1) e.0) }
{
    let store = K::start(alloc, shelf)?;
    match Vec::with_capacity(alloc, 1) {
        Ok(answers) => Ok((store, answers)),
        Err(_) => Err((Fault::Memory, store.close())),
    }
}
