// Sources that never end: what is read of them has a bound.
ghost use Rattle.std.specs.Prelude.{None};

use crate::running::{as_said, run_with};
use program_rows::{BACKUP, QUIET, Row};
use std::alloc::Global;
use std::test::Fail;
use vault_ports::{MemPlaces, MemShelf};
use vault_traits::{Failed, Source};
use vault_types::{Fault, Limits};

/// A source that gives one byte without end, at most so many at a read, and counts what it gave.
#[derive(Drop)]
struct Endless {
    byte: u8,
    piece: usize,
    given: u64,
}

impl Source for Endless {
    ghost told = { λ s. record { left = None; faults = 0 } };

    fn read(&mut self, buf: &mut [u8]) -> Result<usize, Failed> {
        let most = buf.len().min(self.piece);
        let piece = &mut buf[..most];
        for byte in piece {
            *byte = self.byte;
        }
        self.given = self.given.saturating_add(most as u64);
        Ok(most)
    }

    fn faults(&self) -> u64 {
        0
    }
}

const LIMITS: Limits = Limits {
    chunks: 2,
    last: 10,
    script: 100,
};

const TOO_MANY: Row = Row {
    words: BACKUP,
    status: 9,
    out: b"error 9: too many chunks\n",
    ..QUIET
};

const TOO_LONG: Row = Row {
    words: "batch",
    status: 12,
    fault: Some(Fault::ScriptTooLong { limit: 100 }),
    report: b"error 12: script too long\n",
    ..QUIET
};

// How many bytes a run takes of an endless source that gives at most so many at a read.
fn taken(alloc: Global, row: &Row, words: &str, piece: usize) -> Result<u64, Fail> {
    let source = Endless {
        byte: 7,
        piece,
        given: 0,
    };
    let mut places = MemPlaces::with(alloc, Vec::new(alloc), 0)?;
    let shelf = MemShelf::new(alloc);
    let seen = run_with(alloc, words, &LIMITS, shelf, &mut places, source, 100)?;
    as_said(alloc, row, &seen)?;
    Ok(seen.input.given)
}

const COMMANDS: &[&str] = &[
    "backup",
    "backup --chunk fixed --size 4",
    "backup --chunk fixed --size 65536",
];

const PIECES: &[usize] = &[4096, 40_000, 65_536, 100_000];

// Says where a backup takes more than the limit's two chunks of 65,536 bytes and one read.
fn each_backup_stops(alloc: Global) -> Result<(), Fail> {
    for words in COMMANDS {
        for piece in PIECES {
            let given = taken(alloc, &TOO_MANY, words, *piece)?;
            let read = (*piece).min(65_536) as u64;
            if given > 2 * 65_536 + read {
                return Err(Fail::new(format!(in alloc; "at {words} {piece}: {given}")?));
            }
        }
    }
    Ok(())
}

#[test]
fn a_backup_of_an_endless_source_ends(rt: HostRuntime) -> Result<(), Fail> {
    each_backup_stops(rt.alloc())
}

// Says where a script takes more than the limit's bytes and one.
fn each_script_stops(alloc: Global) -> Result<(), Fail> {
    for piece in PIECES {
        let given = taken(alloc, &TOO_LONG, "batch", *piece)?;
        if given != 101 {
            return Err(Fail::new(format!(in alloc; "at {piece}: {given}")?));
        }
    }
    Ok(())
}

#[test]
fn an_endless_script_ends(rt: HostRuntime) -> Result<(), Fail> {
    each_script_stops(rt.alloc())
}
