//! Runs a command of the store, with the streams of backups in threads, over the folder that the first word names:
//! `destor FOLDER WORD ..`.
#![tactic(auto)]

use destor_top::run;
use folder_shelf::{ErrSink, FolderPlaces, FolderShelf, InSource, OutSink};
use program_words::{refuse, words_of};
use std::fs::File;
use std::process::ExitCode;
use std::thread;
use vault_types::{Fault, Limits};

fn main(rt: HostRuntime) -> ExitCode {
    let alloc = rt.alloc();
    let mut err = ErrSink::new(rt.stderr());
    let words = match words_of(&rt) {
        Ok(words) => words,
        Err(fault) => return refuse(fault, &mut err),
    };
    let Some((folder, words)) = words.as_slice().split_first() else {
        return refuse(Fault::Usage, &mut err);
    };
    let shelf = match FolderShelf::start(alloc, rt, folder.as_str()) {
        Ok(shelf) => shelf,
        Err(fault) => return refuse(fault, &mut err),
    };
    // Another run may have the store. The host lets go of the lock when this file is closed, also where a run is killed.
    let itself = match File::open(&rt, folder.as_str()) {
        Ok(itself) => itself,
        Err(_) => return refuse(Fault::StoreFault(1), &mut err),
    };
    if itself.try_lock().is_err() {
        return refuse(Fault::StoreFault(1), &mut err);
    }
    let status = thread::scope(thread::scope_env(), &rt, |scope| -> u8 {
        let mut places = FolderPlaces::new(rt);
        let mut err = ErrSink::new(rt.stderr());
        run(
            rt,
            alloc,
            scope,
            words,
            &Limits::standard(),
            shelf,
            &mut places,
            InSource::new(rt.stdin()),
            OutSink::new(rt.stdout()),
            &mut err,
        )
        .status
    });
    ExitCode::from(status)
}
