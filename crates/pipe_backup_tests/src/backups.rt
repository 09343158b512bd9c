// Backups of a source in memory into set 3, two versions of each. Each test ends whatever the schedule.
ghost use Rattle.std.specs.Prelude.{◌≡◌, ◌≤◌, None, IfOk};
ghost use Rattle.vault_types.specs.JobRanges.{IsInRange};
ghost use Rattle.backup_jobs.specs.Going.{Began};
ghost use Rattle.pipe_backup.specs.Piping.{IsPiping};

use keeper_core::Keeper;
use pipe_backup::{Course, Piping, backup_line_piped, start_piped, step_piped};
use pipe_run::StackSizes;
use serial_backup::backup_line;
use std::alloc::Global;
use std::sync::Wait;
use std::test::Fail;
use std::thread;
use std::thread::Threads;
use std::time::Clock;
use vault_ports::{FaultShelf, FaultSource, MemShelf, MemSource};
use vault_traits::{Shelf, Source};
use vault_types::{Answer, Cutting, Fault, JobConfig, Kind as BlobKind, Limits, Name, Rewrite};

// How a stream is cut and packed, and what is written again: nothing; what a segment refers to beside one container; or that
// and what is in containers of which a version uses less than 60 hundredths. A single chunk is a container by itself.
#[derive(Clone, Copy)]
enum Kind {
    Fixed,
    Single,
    Extremum,
    Capped,
    Sparse,
}

// Two versions of so many bytes within a limit of chunks. A read of each fails and a call of the shelf, where its number is
// not 0.
#[derive(Clone, Copy)]
struct Case {
    kind: Kind,
    len: usize,
    read: u64,
    call: u64,
    chunks: u32,
}

const WHOLE: Case = Case {
    kind: Kind::Fixed,
    len: 60_000,
    read: 0,
    call: 0,
    chunks: 1_000,
};

fn settings(kind: Kind) -> JobConfig
    ensures { IsInRange result }
{
    let mut config = JobConfig::standard();
    config.cutting = Cutting::Fixed { size: 1_000 };
    config.container = 10_000;
    config.rewrite = Rewrite::Off;
    match kind {
        Kind::Fixed => {}
        Kind::Single => config.container = 1_000,
        Kind::Extremum => {
            config.cutting = Cutting::Ae {
                window: 128,
                max: 2_048,
            };
        }
        Kind::Capped => {
            config.rewrite = Rewrite::Cap;
            config.segment = 8_000;
            config.cap = 1;
        }
        Kind::Sparse => {
            config.rewrite = Rewrite::Both;
            config.segment = 8_000;
            config.cap = 1;
            config.threshold = 60;
            config.limit = 100;
        }
    }
    config
}

// Bytes of which the later half is the earlier one once more. Every third thousand of a later version is new.
fn stream(alloc: Global, len: usize, version: usize) -> Result<Vec<u8>, Fail> {
    let mut bytes = Vec::new(alloc);
    let mut word = 12_345u32;
    for i in 0..len / 2 {
        word = word.wrapping_mul(1_664_525).wrapping_add(1_013_904_223);
        let byte = (word >> 24) as u8;
        let is_new = version > 1 && i / 1_000 % 3 == 0;
        bytes.push(if is_new { !byte } else { byte })?;
    }
    let half = bytes.as_slice().to_vec(alloc)?;
    bytes.extend_from_slice(half.as_slice())?;
    Ok(bytes)
}

fn source_of(alloc: Global, case: Case, version: usize) -> Result<FaultSource, Fail> {
    let inner = MemSource::new(stream(alloc, case.len, version)?, 5_000);
    Ok(FaultSource::new(inner, [case.read].to_vec(alloc)?))
}

fn opened(alloc: Global, case: Case) -> Result<Keeper<FaultShelf>, Fail>
    ensures { IfOk result (λ keeper. keeper.job ≡ None) }
{
    let shelf = FaultShelf::new(MemShelf::new(alloc), [case.call].to_vec(alloc)?, false);
    match Keeper::start(alloc, shelf) {
        Ok(keeper) => Ok(keeper),
        Err(_) => Err(Fail::from("the store opens")),
    }
}

fn limits_of(case: Case) -> Result<Limits, Fail>
    ensures { IfOk result (λ limits. (1 ≤ limits.chunks) × (limits.chunks ≤ 4194304)
        × (limits.last ≤ 4294967294)) }
{
    if case.chunks < 1 || case.chunks > 4_194_304 {
        return Err(Fail::from("the limit is in range"));
    }
    Ok(Limits {
        chunks: case.chunks,
        last: 10,
        script: 0,
    })
}

// A version on one thread.
fn serial(
    alloc: Global,
    keeper: &mut Keeper<FaultShelf>,
    case: Case,
    version: usize,
) -> Result<Result<Answer, Fault>, Fail>
    requires { keeper.old.job ≡ None }
    ensures { keeper.new.job ≡ None }
{
    let limits = limits_of(case)?;
    let mut source = source_of(alloc, case, version)?;
    Ok(backup_line(alloc, keeper, 3, &mut source, &settings(case.kind), &limits))
}

// What two versions answered, and the shelf behind them.
#[derive(Drop)]
struct Came {
    first: Result<Answer, Fault>,
    second: Result<Answer, Fault>,
    shelf: MemShelf,
}

// The same in threads, both versions.
fn piped<R: Threads + Wait + Clock + Copy + Drop + Send>(
    rt: R,
    alloc: Global,
    case: Case,
    course: Course,
) -> Result<Came, Fail>
    requires queue { 1 ≤ course.queue }
    requires lanes { (1 ≤ course.lanes) × (course.lanes ≤ 8) }
{
    thread::scope(
        thread::scope_env(),
        &rt,
        |scope| -> Result<Came, Fail>
            requires queue { 1 ≤ course.queue }
            requires lanes { (1 ≤ course.lanes) × (course.lanes ≤ 8) }
        {
            let mut keeper = opened(alloc, case)?;
            let (config, limits) = (settings(case.kind), limits_of(case)?);
            let source = source_of(alloc, case, 1)?;
            let (_, first) = backup_line_piped(
                rt,
                alloc,
                scope,
                &mut keeper,
                3,
                source,
                &config,
                &limits,
                course,
            );
            let source = source_of(alloc, case, 2)?;
            let (_, second) = backup_line_piped(
                rt,
                alloc,
                scope,
                &mut keeper,
                3,
                source,
                &config,
                &limits,
                course,
            );
            Ok(Came {
                first,
                second,
                shelf: keeper.close().into_inner(),
            })
        },
    )
}

// Whether two stores have the same blobs, of the same names.
fn are_same(alloc: Global, one: &MemShelf, other: &MemShelf) -> Result<bool, Fail> {
    let names = one.names(alloc)?;
    if other.names(alloc)?.as_slice() != names.as_slice() {
        return Ok(false);
    }
    for name in &names {
        if one.blob(*name) != other.blob(*name) {
            return Ok(false);
        }
    }
    Ok(true)
}

fn course_of(queue: u32, lanes: u32) -> Course
    ensures queue { result.queue ≡ queue }
    ensures lanes { result.lanes ≡ lanes }
{
    Course {
        queue,
        lanes,
        stacks: StackSizes::usual(),
        seal: None,
    }
}

// Whether two versions in threads answer as on one thread, and leave the same store.
fn is_as_one<R: Threads + Wait + Clock + Copy + Drop + Send>(
    rt: R,
    alloc: Global,
    case: Case,
    course: Course,
) -> Result<bool, Fail>
    requires queue { 1 ≤ course.queue }
    requires lanes { (1 ≤ course.lanes) × (course.lanes ≤ 8) }
{
    let mut one = opened(alloc, case)?;
    let first = serial(alloc, &mut one, case, 1)?;
    let second = serial(alloc, &mut one, case, 2)?;
    let other = piped(rt, alloc, case, course)?;
    let is_same = are_same(alloc, &other.shelf, &one.close().into_inner())?;
    Ok(other.first == first && other.second == second && is_same)
}

// The same where an allocation may fail: a version that memory failed is none, and the next one is stored as without it. The
// strays of a second one stay.
fn is_as_one_without<R: Threads + Wait + Clock + Copy + Drop + Send>(
    rt: R,
    alloc: Global,
    case: Case,
    course: Course,
) -> Result<bool, Fail>
    requires queue { 1 ≤ course.queue }
    requires lanes { (1 ≤ course.lanes) × (course.lanes ≤ 8) }
{
    let other = piped(rt, alloc, case, course)?;
    let mut one = opened(alloc, case)?;
    if other.first != Err(Fault::Memory) {
        let first = serial(alloc, &mut one, case, 1)?;
        if first != other.first {
            return Ok(first == Err(Fault::Memory));
        }
    }
    if other.second == Err(Fault::Memory) {
        return Ok(true);
    }
    let second = serial(alloc, &mut one, case, 2)?;
    if second != other.second {
        return Ok(second == Err(Fault::Memory));
    }
    are_same(alloc, &other.shelf, &one.close().into_inner())
}

// What a first version in threads answers.
fn answer_of<R: Threads + Wait + Clock + Copy + Drop + Send>(
    rt: R,
    alloc: Global,
    case: Case,
) -> Result<Result<Answer, Fault>, Fail> {
    Ok(piped(rt, alloc, case, course_of(2, 2))?.first)
}

#[test]
fn backups_store_what_one_thread_stores(rt: HostRuntime) -> Result<(), Fail> {
    for lanes in [1, 2, 3, 4, 5, 6, 7, 8] {
        for queue in [1, 2, 64] {
            assert!(rt;
                is_as_one(rt, rt.alloc(), WHOLE, course_of(queue, lanes))?,
                "{lanes} lanes, {queue} places"
            );
        }
    }
    Ok(())
}

#[test]
fn a_backup_that_memory_failed_is_none(rt: HostRuntime) -> Result<(), Fail> {
    assert!(rt; is_as_one_without(rt, rt.alloc(), WHOLE, course_of(2, 2))?);
    Ok(())
}

// The number behind this one.
fn next_number(number: u32) -> u32 {
    number.wrapping_mul(1_664_525).wrapping_add(1_013_904_223)
}

fn kind_of(number: u32) -> Kind {
    match number % 4 {
        0 => Kind::Fixed,
        1 => Kind::Extremum,
        2 => Kind::Capped,
        _ => Kind::Sparse,
    }
}

fn course_from(number: u32) -> Course
    ensures queue { 1 ≤ result.queue }
    ensures lanes { (1 ≤ result.lanes) × (result.lanes ≤ 8) }
{
    course_of(number % 70 + 1, number / 70 % 8 + 1)
}

#[test]
fn made_backups_store_what_one_thread_stores(rt: HostRuntime) -> Result<(), Fail> {
    let mut number = 1;
    for _ in 0..200 {
        number = next_number(number);
        let mut case = WHOLE;
        case.kind = kind_of(number >> 8);
        case.len = (number >> 10) as usize % 40_000;
        let course = course_from(number >> 12);
        assert!(rt;
            is_as_one(rt, rt.alloc(), case, course)?,
            "the backup of {number}"
        );
    }
    Ok(())
}

#[test]
fn backups_of_each_kind_store_what_one_thread_stores(rt: HostRuntime) -> Result<(), Fail> {
    for kind in [Kind::Single, Kind::Extremum, Kind::Capped, Kind::Sparse] {
        let mut case = WHOLE;
        case.kind = kind;
        assert!(rt; is_as_one(rt, rt.alloc(), case, course_of(4, 2))?);
    }
    Ok(())
}

#[test]
fn a_backup_of_nothing_is_a_version(rt: HostRuntime) -> Result<(), Fail> {
    let mut case = WHOLE;
    case.len = 0;
    assert!(rt; is_as_one(rt, rt.alloc(), case, course_of(1, 1))?);
    Ok(())
}

#[test]
fn a_source_that_fails_is_told(rt: HostRuntime) -> Result<(), Fail> {
    for read in 1..14u64 {
        let mut case = WHOLE;
        case.read = read;
        assert!(rt;
            answer_of(rt, rt.alloc(), case)? == Err(Fault::ReadFault(1)),
            "read {read}"
        );
    }
    Ok(())
}

#[test]
fn too_many_chunks_are_told(rt: HostRuntime) -> Result<(), Fail> {
    for chunks in [1, 20, 59] {
        let mut case = WHOLE;
        case.chunks = chunks;
        let told = Err(Fault::TooMany { limit: chunks });
        assert!(rt; answer_of(rt, rt.alloc(), case)? == told, "limit {chunks}");
    }
    let mut case = WHOLE;
    case.chunks = 60;
    assert!(rt; is_as_one(rt, rt.alloc(), case, course_of(2, 2))?);
    Ok(())
}

#[test]
fn a_shelf_that_fails_is_told_as_on_one_thread(rt: HostRuntime) -> Result<(), Fail> {
    for call in 2..24u64 {
        let mut case = WHOLE;
        case.call = call;
        assert!(rt;
            is_as_one(rt, rt.alloc(), case, course_of(1, 2))?,
            "call {call}"
        );
    }
    Ok(())
}

#[test]
fn a_shelf_that_fails_while_containers_are_sealed(rt: HostRuntime) -> Result<(), Fail> {
    for place in 0..12u64 {
        let call = 7 * place + 3;
        let mut case = WHOLE;
        case.kind = Kind::Single;
        case.call = call;
        assert!(rt;
            is_as_one(rt, rt.alloc(), case, course_of(1, 2))?,
            "call {call}"
        );
    }
    Ok(())
}

// A stack that no host gives to a thread, or the usual one.
fn size(is_refused: bool) -> Option<usize> {
    if is_refused { Some(usize::MAX) } else { None }
}

// Makes the steps of a backup, to the last one.
fn make_steps<I: Source + Drop, S: Shelf, R: Wait>(
    rt: &R,
    alloc: Global,
    keeper: &mut Keeper<S>,
    piping: &mut Piping<I>,
)
    requires { (b : Began) × IsPiping b (λ (i : I). I.told i) keeper.old piping.old }
{
    for _ in rt.forever() {
        match step_piped(rt, alloc, keeper, piping) {
            Ok(_) => {}
            Err(_) => return,
        }
    }
    unreachable!()
}

// Whether the steps of a backup without threads put a payload, before its end puts those that are left.
fn is_put_by_steps<R: Threads + Wait + Clock + Copy + Drop + Send>(
    rt: R,
    alloc: Global,
    case: Case,
) -> Result<bool, Fail> {
    let mut course = course_of(2, 2);
    course.stacks = StackSizes {
        read: size(true),
        sum: size(true),
        chunk: size(true),
        decide: size(true),
        lanes: size(true),
    };
    course.seal = size(true);
    thread::scope(
        thread::scope_env(),
        &rt,
        |scope| -> Result<bool, Fail>
            requires queue { 1 ≤ course.queue }
            requires lanes { (1 ≤ course.lanes) × (course.lanes ≤ 8) }
        {
            let mut keeper = opened(alloc, case)?;
            let (config, limits) = (settings(case.kind), limits_of(case)?);
            let source = source_of(alloc, case, 1)?;
            match start_piped(
                rt,
                alloc,
                scope,
                &mut keeper,
                3,
                source,
                &config,
                &limits,
                course,
            ) {
                Err(_) => Err(Fail::from("the backup starts")),
                Ok(piping) => {
                    let mut piping = piping;
                    make_steps(&rt, alloc, &mut keeper, &mut piping);
                    let payload = Name {
                        kind: BlobKind::Payload,
                        number: 1,
                    };
                    Ok(keeper.close().into_inner().blob(payload).is_some())
                }
            }
        },
    )
}

#[test]
fn steps_put_what_came_back(rt: HostRuntime) -> Result<(), Fail> {
    let mut case = WHOLE;
    case.kind = Kind::Single;
    assert!(rt; is_put_by_steps(rt, rt.alloc(), case)?);
    Ok(())
}

#[test]
fn a_backup_whose_threads_are_refused(rt: HostRuntime) -> Result<(), Fail> {
    for (read, sum, chunk, decide, lanes, seal) in [
        (true, false, false, false, false, false),
        (false, true, false, false, false, false),
        (false, false, true, false, false, false),
        (false, false, false, true, false, false),
        (false, false, false, false, true, false),
        (false, false, false, false, false, true),
        (true, true, true, true, true, true),
    ] {
        let mut course = course_of(2, 2);
        course.stacks = StackSizes {
            read: size(read),
            sum: size(sum),
            chunk: size(chunk),
            decide: size(decide),
            lanes: size(lanes),
        };
        course.seal = size(seal);
        let mut case = WHOLE;
        case.kind = Kind::Single;
        assert!(rt;
            is_as_one(rt, rt.alloc(), case, course)?,
            "refused: {read} {sum} {chunk} {decide} {lanes} {seal}"
        );
    }
    Ok(())
}
