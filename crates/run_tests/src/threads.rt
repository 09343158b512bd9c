// Runs that no run on one thread could do, and a job that is stopped.
ghost use Rattle.std.specs.Prelude.{◌<◌, length, All, OnOk};

use crate::running::{places_of, words_of};
use destor_top::{Ended, run, run_plain};
use meeting_places::MeetingPlaces;
use program_rows::{PAYLOAD, STANDARD, TWO_FILES};
use std::alloc::Global;
use std::sync::Wait;
use std::test::Fail;
use std::thread;
use std::thread::Threads;
use std::time::Clock;
use vault_gates::{GatePlaces, GateShelf, GateSource, gates};
use vault_ports::{FaultShelf, MemPlaces, MemShelf, MemSink, MemSource};
use vault_types::{Kind, Name};

const FOUR: &str = "backup --chunk fixed --size 4 --segment 4 --container 4";

const FOUR_STORED: &[u8] =
    b"backup 1: 4 chunks, 16 bytes, 4 new containers, 16 bytes written, 0 sparse\n";

// Puts a piece behind the others.
fn push_piece(pieces: &mut Vec<Vec<u8>>, alloc: Global, bytes: &[u8]) -> Result<(), Fail>
    requires some { 0 < length bytes.now }
    requires others { All (λ p. 0 < length p.items) pieces.old.items }
    ensures { OnOk result (All (λ p. 0 < length p.items) pieces.new.items) }
{
    let piece = bytes.to_vec(alloc)?;
    pieces.push(piece)?;
    Ok(())
}

// The status and the text of a backup whose second read waits for the first put of a payload, as that put for that read.
fn read_and_put_meet<H: Threads + Wait + Clock + Copy + Drop + Send>(
    host: H,
    alloc: Global,
) -> Result<(u8, Vec<u8>), Fail> {
    let words = words_of(alloc, FOUR)?;
    thread::scope(
        thread::scope_env(),
        &host,
        |scope| -> Result<(u8, Vec<u8>), Fail> {
            let (reads, puts) = gates(alloc)?;
            let mut pieces = Vec::new(alloc);
            push_piece(&mut pieces, alloc, b"aaaabbbbcccc")?;
            push_piece(&mut pieces, alloc, b"dddd")?;
            let mut places = MemPlaces::with(alloc, Vec::new(alloc), 0)?;
            let mut report = MemSink::with(alloc, 1_000)?;
            let ended = run(
                host,
                alloc,
                scope,
                words.as_slice(),
                &STANDARD,
                GateShelf::new(MemShelf::new(alloc), Kind::Payload, 1, puts),
                &mut places,
                GateSource::new(pieces, 2, reads),
                MemSink::with(alloc, 1_000)?,
                &mut report,
            );
            let Ended { status, out, .. } = ended;
            Ok((status, out.into_vec()))
        },
    )
}

#[test]
fn a_backup_puts_while_it_reads(rt: HostRuntime) -> Result<(), Fail> {
    let (status, out) = read_and_put_meet(rt, rt.alloc())?;
    assert!(rt; status == 0 && out.as_slice() == FOUR_STORED);
    Ok(())
}

// Bytes of which no four are the four before.
fn counted(alloc: Global) -> Result<Vec<u8>, Fail> {
    let mut bytes = Vec::new(alloc);
    for at in 0..4_000u32 {
        bytes.push((at % 251) as u8)?;
    }
    Ok(bytes)
}

// The status of a backup whose first put of a payload fails, and how many bytes of its source are left.
fn left_behind_a_failed_put<H: Threads + Wait + Clock + Copy + Drop + Send>(
    host: H,
    alloc: Global,
) -> Result<(u8, usize), Fail> {
    let text = format!(in alloc; "{FOUR} --queue 1")?;
    let words = words_of(alloc, text.as_str())?;
    thread::scope(
        thread::scope_env(),
        &host,
        |scope| -> Result<(u8, usize), Fail> {
            let mut places = MemPlaces::with(alloc, Vec::new(alloc), 0)?;
            let mut report = MemSink::with(alloc, 1_000)?;
            let ended = run(
                host,
                alloc,
                scope,
                words.as_slice(),
                &STANDARD,
                FaultShelf::new(MemShelf::new(alloc), [5].to_vec(alloc)?, false),
                &mut places,
                MemSource::new(counted(alloc)?, 4),
                MemSink::with(alloc, 1_000)?,
                &mut report,
            );
            Ok((ended.status, ended.input.left().len()))
        },
    )
}

#[test]
fn a_job_stops_behind_a_failed_put(rt: HostRuntime) -> Result<(), Fail> {
    let (status, left) = left_behind_a_failed_put(rt, rt.alloc())?;
    assert!(rt; status == 6 && left >= 3_000);
    Ok(())
}

const BESIDE: &[u8] = b"backup a chunk=fixed size=4 rewrite=none\n\
    backup b chunk=fixed size=4 rewrite=none\n\
    restore 1 x\n\
    delete 1\n";

const BESIDE_TEXT: &[u8] =
    b"backup 1: 1 chunks, 4 bytes, 1 new containers, 4 bytes written, 0 sparse\n\
    backup 2: 1 chunks, 4 bytes, 1 new containers, 4 bytes written, 0 sparse\n\
    restore 1: 4 bytes, 1 loads\n\
    delete 1: floor 2, 1 containers reclaimed\n";

const SECOND_PAYLOAD: Name = Name {
    kind: Kind::Payload,
    number: 2,
};

// Whether a restore whose first write waits for a deletion's floor, as that floor for the write, is done beside it: the
// texts, the bytes, and then the containers.
fn write_and_floor_meet<H: Threads + Wait + Clock + Copy + Drop + Send>(
    host: H,
    alloc: Global,
) -> Result<(u8, bool, bool, bool), Fail> {
    let words = words_of(alloc, "batch")?;
    thread::scope(
        thread::scope_env(),
        &host,
        |scope| -> Result<(u8, bool, bool, bool), Fail> {
            let (writes, floors) = gates(alloc)?;
            let mut places = GatePlaces::new(places_of(alloc, TWO_FILES)?, writes);
            let mut report = MemSink::with(alloc, 1_000)?;
            let ended = run(
                host,
                alloc,
                scope,
                words.as_slice(),
                &STANDARD,
                GateShelf::new(MemShelf::new(alloc), Kind::Floor, 2, floors),
                &mut places,
                MemSource::new(BESIDE.to_vec(alloc)?, 100),
                MemSink::with(alloc, 1_000)?,
                &mut report,
            );
            let Ended {
                status,
                out,
                shelf,
                ..
            } = ended;
            let shelf = shelf.into_inner();
            let is_restored = places.bytes("x") == Some(b"aaaa".as_slice());
            let is_left = shelf.blob(PAYLOAD).is_none() && shelf.blob(SECOND_PAYLOAD).is_some();
            Ok((
                status,
                out.into_vec().as_slice() == BESIDE_TEXT,
                is_restored,
                is_left,
            ))
        },
    )
}

#[test]
fn a_restore_writes_while_its_version_is_deleted(rt: HostRuntime) -> Result<(), Fail> {
    assert!(rt; write_and_floor_meet(rt, rt.alloc())? == (0, true, true, true));
    Ok(())
}

// A shelf with one version, of four containers.
fn with_four(alloc: Global) -> Result<MemShelf, Fail> {
    let words = words_of(alloc, FOUR)?;
    let mut places = MemPlaces::with(alloc, Vec::new(alloc), 0)?;
    let mut report = MemSink::with(alloc, 1_000)?;
    let ended = run_plain(
        alloc,
        words.as_slice(),
        &STANDARD,
        MemShelf::new(alloc),
        &mut places,
        MemSource::new(b"aaaabbbbccccdddd".to_vec(alloc)?, 16),
        MemSink::with(alloc, 1_000)?,
        &mut report,
    );
    Ok(ended.shelf)
}

const WITHIN: &[u8] = b"restore 1 x\nbackup a chunk=fixed size=4 rewrite=none\n";

const WITHIN_TEXT: &[u8] = b"restore 1: 16 bytes, 4 loads\n\
    backup 2: 1 chunks, 4 bytes, 0 new containers, 0 bytes written, 0 sparse\n";

// Whether a restore is done whose last write a later backup's first read waits for, as that write for the read: the texts,
// and the bytes.
fn read_and_last_write_meet<H: Threads + Wait + Clock + Copy + Drop + Send>(
    host: H,
    alloc: Global,
) -> Result<(u8, bool, bool), Fail> {
    let words = words_of(alloc, "batch")?;
    thread::scope(
        thread::scope_env(),
        &host,
        |scope| -> Result<(u8, bool, bool), Fail> {
            let mut places = MeetingPlaces::new(alloc, places_of(alloc, TWO_FILES)?, 3)?;
            let mut report = MemSink::with(alloc, 1_000)?;
            let ended = run(
                host,
                alloc,
                scope,
                words.as_slice(),
                &STANDARD,
                with_four(alloc)?,
                &mut places,
                MemSource::new(WITHIN.to_vec(alloc)?, 100),
                MemSink::with(alloc, 1_000)?,
                &mut report,
            );
            let is_restored = places.bytes("x") == Some(b"aaaabbbbccccdddd".as_slice());
            Ok((
                ended.status,
                ended.out.into_vec().as_slice() == WITHIN_TEXT,
                is_restored,
            ))
        },
    )
}

#[test]
fn a_restore_gets_its_payloads_while_a_backup_reads(rt: HostRuntime) -> Result<(), Fail> {
    assert!(rt; read_and_last_write_meet(rt, rt.alloc())? == (0, true, true));
    Ok(())
}
