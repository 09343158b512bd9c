// A run of lines with restores beside them.
ghost use Rattle.std.specs.Prelude.{◌≡◌, ◌<◌, ◌≤◌, ◌+◌, ℕ, true, false, List, [], length, get_or, vec_len, vec_capacity, None, IfOk, OnOk, OnErr};
ghost use Rattle.std.specs.List.{AllByRecursion};
ghost use Rattle.vault_types.specs.declared.Answer.{Answer};
ghost use Rattle.vault_types.specs.declared.Line.{Line};
ghost use Rattle.store_model.specs.Outputs.{AreApartLines};
ghost use Rattle.store_model.specs.Ranges.{AreLimits, IsLineInRange};
ghost use Rattle.store_model.specs.Script.{RunsLines};
ghost use Rattle.store_model.specs.Steps.{Moment};
ghost use Rattle.beside_runner.specs.Turns.{is_restore};
ghost use Rattle.keeper_catalog.specs.View.{View};
ghost use Rattle.keeper_core.specs.Keeping.{IsKnownStray};
ghost use Rattle.restore_turns.specs.Entry.{IsStateBeside};
ghost use Rattle.beside_steps.specs.Holding.{Holds};
ghost use Rattle.beside_jobs.specs.Under.{IsUnder};

use crate::serving::{serve, serve_until};
use beside_jobs::backup_beside;
use beside_steps::{Beside, begin_restore, delete_line};
use keeper_core::Keeper;
use pipe_backup::Course;
use std::alloc::Global;
use std::sync::Wait;
use std::thread::{Scope, Threads};
use std::time::Clock;
use vault_traits::{Places, Shelf};
use vault_types::{Answer, Fault, Limits, Line, Memory};

// A turn of each restore that runs, and more of them until a worker is free where the line is a
// restore.
fn make_room<S: Shelf, P: Places, R: Threads + Wait + Clock>(
    rt: &R,
    alloc: Global,
    limits: &Limits,
    keeper: &mut Keeper<S>,
    places: &mut P,
    running: &mut Vec<Beside<S, P::Writer>>,
    answers: &mut Vec<Answer>,
    line: &Line,
    workers: usize,
)
where
    P::Writer: Drop,
    requires holds { Holds keeper.old (P.told places.old).files running.old.items }
    requires under { (lines : List Line) × (start : Moment View) × (i : ℕ)
        × IsUnder limits.now lines start i answers.old.items running.old.items keeper.old
        (P.told places.old) }
    ensures under { (lines : List Line) (start : Moment View) (i : ℕ)
        → IsUnder limits.now lines start i answers.old.items running.old.items keeper.old
        (P.told places.old)
        → IsUnder limits.now lines start i answers.new.items running.new.items keeper.new
        (P.told places.new) }
    ensures holds { Holds keeper.new (P.told places.new).files running.new.items }
    ensures room { vec_capacity running.new ≡ vec_capacity running.old }
    ensures free { is_restore line.now ≡ true → vec_len running.new < workers }
{
    serve(rt, alloc, limits, keeper, places, running, answers);
    if let Line::Restore { .. } = line {
        serve_until(rt, alloc, limits, keeper, places, running, answers, workers);
    }
}

// The line at this place.
fn one_line<'s, X: 's, S: Shelf, P: Places, R: Threads + Wait + Clock + Copy + Drop + Send + 's>(
    rt: R,
    alloc: Global,
    scope: &'s Scope<'s, X>,
    limits: &Limits,
    keeper: &mut Keeper<S>,
    places: &mut P,
    running: &mut Vec<Beside<S, P::Writer>>,
    answers: &mut Vec<Answer>,
    lines: &[Line],
    course: Course,
    at: usize,
)
where
    P::Reader: Drop + 's,
    P::Writer: Drop + 's,
    requires here { at < length lines.now }
    requires ranges { AllByRecursion IsLineInRange lines.now }
    requires limits { AreLimits limits.now }
    requires queue { 1 ≤ course.queue }
    requires lanes { (1 ≤ course.lanes) × (course.lanes ≤ 8) }
    requires holds { Holds keeper.old (P.told places.old).files running.old.items }
    requires room { (line : Line) → line ≡ get_or lines.now at line → is_restore line ≡ true
        → vec_len running.old < vec_capacity running.old }
    requires under { (start : Moment View)
        × IsUnder limits.now lines.now start at answers.old.items running.old.items keeper.old
        (P.told places.old) }
    ensures under { (start : Moment View)
        → IsUnder limits.now lines.now start at answers.old.items running.old.items keeper.old
        (P.told places.old)
        → IsUnder limits.now lines.now start (at + 1) answers.new.items running.new.items keeper.new
        (P.told places.new) }
    ensures holds { Holds keeper.new (P.told places.new).files running.new.items }
    ensures room { vec_capacity running.old ≤ vec_capacity running.new }
{
    let line = &lines[at];
    match line {
        Line::Backup { set, name, config } => {
            let answer = backup_beside(
                rt, alloc, scope, keeper, running, *set, name, config, places, limits, course,
            );
            answers[at] = answer;
        }
        Line::Restore {
            set,
            version,
            name,
            cache,
        } => match begin_restore(
            rt, alloc, scope, keeper, *set, *version, name, *cache, places, limits, at,
        ) {
            Err(answer) => answers[at] = answer,
            Ok(entry) => match running.push(entry) {
                Ok(()) => {}
                Err(_) => unreachable!(),
            },
        },
        Line::Delete { set, through } => {
            let answer = delete_line(keeper, *set, *through, &*places, limits);
            answers[at] = answer;
        }
    }
}

/// Runs the lines in order, backups in threads by the course, and with at most so many restores in
/// threads beside them. Each answers, at its place, and the answers have their causes in some order;
/// a restore gives what its version was as its line began. `Memory` comes before the first line, and
/// then nothing has changed.
pub fn run_lines<
    's,
    X: 's,
    S: Shelf,
    P: Places,
    R: Threads + Wait + Clock + Copy + Drop + Send + 's,
>(
    rt: R,
    alloc: Global,
    scope: &'s Scope<'s, X>,
    limits: &Limits,
    keeper: &mut Keeper<S>,
    places: &mut P,
    lines: &[Line],
    course: Course,
    workers: usize,
) -> Result<Vec<Answer>, Memory>
where
    P::Reader: Drop + 's,
    P::Writer: Drop + 's,
    requires apart { AreApartLines lines.now }
    requires ranges { AllByRecursion IsLineInRange lines.now }
    requires limits { AreLimits limits.now }
    requires queue { 1 ≤ course.queue }
    requires lanes { (1 ≤ course.lanes) × (course.lanes ≤ 8) }
    requires some { 1 ≤ workers }
    requires alone { (keeper.old.job ≡ None) × (keeper.old.pins ≡ []) }
    ensures runs { IfOk result (λ answers. RunsLines false (λ T. IsStateBeside keeper.old T None)
        (λ T name. IsKnownStray keeper.old name) limits.now lines.now answers.items keeper.old.told
        keeper.new.told (P.told places.old) (P.told places.new)) }
    ensures alone { OnOk result ((keeper.new.job ≡ None) × (keeper.new.pins ≡ [])) }
    ensures memory { OnErr result ((keeper.new ≡ keeper.old) × (P.told places.new ≡ P.told places.old)) }
{
    let mut answers = Vec::from_elem(alloc, Answer::Refused(Fault::Memory), lines.len())?;
    let mut running = Vec::with_capacity(alloc, workers)?;
    for at in 0..lines.len() {
        make_room(
            &rt,
            alloc,
            limits,
            keeper,
            places,
            &mut running,
            &mut answers,
            &lines[at],
            workers,
        );
        one_line(
            rt,
            alloc,
            scope,
            limits,
            keeper,
            places,
            &mut running,
            &mut answers,
            lines,
            course,
            at,
        );
    }
    serve_until(
        &rt,
        alloc,
        limits,
        keeper,
        places,
        &mut running,
        &mut answers,
        1,
    );
    Ok(answers)
}
