// Backups of a source into set 3, in chunks of 4 bytes and containers of 8.
ghost use Rattle.std.specs.Prelude.{None, ◌≡◌};
ghost use Rattle.vault_types.specs.JobRanges.{IsInRange};

use keeper_core::Keeper;
use serial_backup::backup_plain;
use std::alloc::Global;
use std::test::Fail;
use vault_ports::{FaultShelf, FaultSource, MemShelf, MemSource};
use vault_traits::{Shelf, Source};
use vault_types::{Answer, Cutting, Fault, JobConfig, Limits, Rewrite};

// What is written again: nothing; what a segment of 16 bytes refers to beside one container; or what is in containers of
// which a version uses less than 60 hundredths.
#[derive(Clone, Copy)]
enum Again {
    Nothing,
    Capped,
    Sparse,
}

fn settings(again: Again) -> JobConfig
    ensures { IsInRange result }
{
    let mut config = JobConfig::standard();
    config.cutting = Cutting::Fixed { size: 4 };
    config.container = 8;
    config.rewrite = Rewrite::Off;
    match again {
        Again::Nothing => {}
        Again::Capped => {
            config.rewrite = Rewrite::Cap;
            config.segment = 16;
            config.cap = 1;
        }
        Again::Sparse => {
            config.rewrite = Rewrite::Har;
            config.threshold = 60;
            config.limit = 100;
        }
    }
    config
}

// A backup of a source of these bytes, of which a read fails, within limits of chunks and versions; and its answer.
#[derive(Clone, Copy)]
struct Row {
    bytes: &'static [u8],
    again: Again,
    read: u64,
    chunks: u32,
    last: u32,
    answer: Result<Answer, Fault>,
}

// Backs the source of a row up.
fn backed_up<S: Shelf>(
    alloc: Global,
    keeper: &mut Keeper<S>,
    row: &Row,
) -> Result<Result<Answer, Fault>, Fail>
    requires { keeper.old.job ≡ None }
    ensures { keeper.new.job ≡ None }
{
    if row.chunks < 1 || row.chunks > 4_194_304 || row.last > 4_294_967_294 {
        return Err(Fail::from("the limits are in range"));
    }
    let limits = Limits {
        chunks: row.chunks,
        last: row.last,
        script: 0,
    };
    let inner = MemSource::new(row.bytes.to_vec(alloc)?, 3);
    let mut source = FaultSource::new(inner, [row.read].to_vec(alloc)?);
    Ok(backup_plain(alloc, keeper, 3, &mut source, &settings(row.again), &limits))
}

macro_rules! stored {
    ($version:expr, $chunks:expr, $bytes:expr, $containers:expr, $written:expr, $sparse:expr) => {
        Ok(Answer::Stored {
            set: 3,
            version: $version,
            chunks: $chunks,
            bytes: $bytes,
            containers: $containers,
            written: $written,
            sparse: $sparse,
        })
    };
}

const PLAIN: Row = Row {
    bytes: b"aaaabbbbccccdddd",
    again: Again::Nothing,
    read: 0,
    chunks: 100,
    last: 10,
    answer: stored!(1, 4, 16, 2, 16, 0),
};

const A_SECOND_REFERS_TO_THE_FIRST: &[Row] = &[
    Row {
        bytes: b"aaaabbbbcccc",
        answer: stored!(1, 3, 12, 2, 12, 0),
        ..PLAIN
    },
    Row {
        bytes: b"bbbbddddaaaa",
        answer: stored!(2, 3, 12, 1, 4, 0),
        ..PLAIN
    },
];

const A_SET_IS_FULL_AT_ITS_LAST_VERSION: &[Row] = &[
    Row {
        bytes: b"aaaa",
        last: 1,
        answer: stored!(1, 1, 4, 1, 4, 0),
        ..PLAIN
    },
    Row {
        bytes: b"bbbb",
        last: 1,
        answer: Err(Fault::Full {
            set: 3,
            latest: 1,
            next: 2,
        }),
        ..PLAIN
    },
];

const A_REFUSED_BACKUP_LEAVES_NO_VERSION: &[Row] = &[
    Row {
        bytes: b"aaaabbbbcccc",
        chunks: 2,
        answer: Err(Fault::TooMany { limit: 2 }),
        ..PLAIN
    },
    Row {
        bytes: b"aaaabbbb",
        chunks: 2,
        read: 2,
        answer: Err(Fault::ReadFault(1)),
        ..PLAIN
    },
    Row {
        bytes: b"aaaabbbb",
        chunks: 2,
        answer: stored!(1, 2, 8, 1, 8, 0),
        ..PLAIN
    },
];

// One segment refers to containers 1, 1 and 2; it keeps the one that is used more, and writes the third chunk again.
const A_CAPPED_SEGMENT_KEEPS_ONE_CONTAINER: &[Row] = &[
    PLAIN,
    Row {
        bytes: b"aaaabbbbcccc",
        again: Again::Capped,
        answer: stored!(2, 3, 12, 1, 4, 0),
        ..PLAIN
    },
];

// The second version uses 4 of the 8 bytes of container 1, which is less than 60 hundredths; the third avoids it.
const A_SPARSE_CONTAINER_IS_AVOIDED: &[Row] = &[
    Row {
        again: Again::Sparse,
        ..PLAIN
    },
    Row {
        bytes: b"aaaaccccdddd",
        again: Again::Sparse,
        answer: stored!(2, 3, 12, 0, 0, 1),
        ..PLAIN
    },
    Row {
        bytes: b"aaaabbbb",
        again: Again::Sparse,
        answer: stored!(3, 2, 8, 1, 8, 0),
        ..PLAIN
    },
];

// Opens the shelf, and backs the source of the row up.
fn opened_for<S: Shelf + Drop>(
    alloc: Global,
    shelf: S,
    row: &Row,
) -> Result<(Result<Answer, Fault>, S), Fail> {
    let Ok(mut keeper) = Keeper::start(alloc, shelf) else {
        return Err(Fail::from("the store opens"));
    };
    let answer = backed_up(alloc, &mut keeper, row)?;
    Ok((answer, keeper.close()))
}

// Backs up row by row. Gives the place of the first that is answered in another way, and how many names are left.
fn rows_are(alloc: Global, rows: &[Row]) -> Result<(Option<usize>, usize), Fail> {
    let mut shelf = MemShelf::new(alloc);
    for (place, row) in rows.iter().enumerate() {
        let (answer, left) = opened_for(alloc, shelf, row)?;
        if answer != row.answer {
            return Ok((Some(place), 0));
        }
        shelf = left;
    }
    Ok((None, shelf.names(alloc)?.as_slice().len()))
}

// The place of the first group that is answered in another way, and the place in it.
fn first_other(alloc: Global, groups: &[&[Row]]) -> Result<Option<(usize, usize)>, Fail> {
    for (at, rows) in groups.iter().enumerate() {
        if let (Some(place), _) = rows_are(alloc, rows)? {
            return Ok(Some((at, place)));
        }
    }
    Ok(None)
}

#[test]
fn backups_answer_as_their_rows_say(rt: HostRuntime) -> Result<(), Fail> {
    let groups = [
        A_SET_IS_FULL_AT_ITS_LAST_VERSION,
        A_REFUSED_BACKUP_LEAVES_NO_VERSION,
        A_CAPPED_SEGMENT_KEEPS_ONE_CONTAINER,
        A_SPARSE_CONTAINER_IS_AVOIDED,
    ];
    assert!(rt; first_other(rt.alloc(), groups.as_slice())? == None);
    Ok(())
}

// Three containers of two blobs, two recipes and a floor.
#[test]
fn a_second_backup_refers_to_the_first(rt: HostRuntime) -> Result<(), Fail> {
    assert!(rt; rows_are(rt.alloc(), A_SECOND_REFERS_TO_THE_FIRST)? == (None, 9));
    Ok(())
}

const OF_ONE_CHUNK: Row = Row {
    bytes: b"aaaa",
    answer: stored!(1, 1, 4, 1, 4, 0),
    ..PLAIN
};

// What is answered to a first backup over a shelf of which a call fails, with the write done, and to the same once more.
type Twice = [Result<Answer, Fault>; 2];

fn backed_up_twice(alloc: Global, call: u64) -> Result<Twice, Fail> {
    let shelf = FaultShelf::new(MemShelf::new(alloc), [call].to_vec(alloc)?, true);
    let Ok(mut keeper) = Keeper::start(alloc, shelf) else {
        return Err(Fail::from("the store opens"));
    };
    let first = backed_up(alloc, &mut keeper, &OF_ONE_CHUNK)?;
    let second = backed_up(alloc, &mut keeper, &OF_ONE_CHUNK)?;
    Ok([first, second])
}

// Each call but the list of names. Gives the first whose failure is not told, or after which the next backup is not as if
// the first had not been tried.
fn first_untold(alloc: Global) -> Result<Option<u64>, Fail> {
    let want = [Err(Fault::StoreFault(1)), OF_ONE_CHUNK.answer];
    for call in 2..10u64 {
        if backed_up_twice(alloc, call)? != want {
            return Ok(Some(call));
        }
    }
    Ok(None)
}

#[test]
fn a_shelf_that_fails_is_told(rt: HostRuntime) -> Result<(), Fail> {
    assert!(rt; first_untold(rt.alloc())? == None);
    Ok(())
}
