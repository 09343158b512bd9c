//! Times single stages, lines between threads, and a keeper over a shelf in memory. What each measures stands in
//! docs/PERFORMANCE.md; bench/run runs them all.
//!
//! `bench cut < FILE`, `find`, `decide`, `growth`, `plan` and `recipe < FILE` time single stages. `items` sends numbers from
//! one thread to another, `wait` has two stages wait for one second, `carry` carries numbers through two stages and tells how
//! many came. `job LANES QUEUE < FILE` runs a backup's job whose parts are thrown away, in one thread where LANES is 0.
//! `keeper VERSIONS` makes a store of so many versions of 1,000 chunks, opens it, backs up a version of ten new
//! containers, and deletes the first version, with which ten containers go; each other version has a container of its own.
//! Without a word it carries numbers, and does with three versions what `keeper` does, and prints what is left.
#![tactic(auto)]

mod cut;
mod decide;
mod find;
mod items;
mod job;
mod made;
mod plan;
mod recipe;
mod relay;
mod row;
mod store;
mod watch;

use crate::store::{show_store, time_store};
use crate::watch::{Stop, Watch};
use std::env;
use std::process::ExitCode;
use std::sync::Wait;
use std::thread::Threads;
use std::time::{Clock, Duration};

fn main(rt: HostRuntime) -> ExitCode {
    match run(rt, rt) {
        Ok(()) => ExitCode::SUCCESS,
        Err(_) => ExitCode::FAILURE,
    }
}

// The words after the program's name.
fn words_of(rt: HostRuntime) -> Result<Vec<String>, Stop> {
    Ok(env::args(&rt)?.skip(1).collect(rt.alloc())?)
}

// A word, empty where it is not there.
fn word(words: &[String], place: usize) -> &str {
    match words.get(place) {
        Some(word) => word.as_str(),
        None => "",
    }
}

// `host` is the same runtime, for what starts no thread.
fn run<R: Threads + Wait + Clock + Copy + Drop + Send + Sync>(
    rt: R,
    host: HostRuntime,
) -> Result<(), Stop> {
    let words = words_of(host)?;
    match word(words.as_slice(), 0) {
        "" => show(rt, host),
        "items" => items::run(&rt, host),
        "wait" => wait(rt, host),
        "carry" => carry(rt, host),
        "job" => job::run(
            rt,
            host,
            word(words.as_slice(), 1),
            word(words.as_slice(), 2),
        ),
        other => time_stage(host, other, word(words.as_slice(), 1)),
    }
}

fn time_stage(rt: HostRuntime, word: &str, versions: &str) -> Result<(), Stop> {
    match word {
        "cut" => cut::run(rt),
        "find" => find::run(rt),
        "decide" => decide::run(rt),
        "growth" => decide::growth(rt),
        "plan" => plan::run(rt),
        "recipe" => recipe::run(rt),
        "keeper" => time_keeper(rt, versions),
        _ => Err(Stop::Refused),
    }
}

fn time_keeper(rt: HostRuntime, versions: &str) -> Result<(), Stop> {
    match versions.parse::<u32>() {
        Ok(versions) => time_store(rt, versions),
        Err(_) => Err(Stop::Refused),
    }
}

fn show<R: Threads + Wait + Clock + Copy + Drop + Send>(
    rt: R,
    host: HostRuntime,
) -> Result<(), Stop> {
    carry(rt, host)?;
    show_store(host)
}

fn wait<R: Threads + Wait + Clock + Copy + Drop + Send>(
    rt: R,
    host: HostRuntime,
) -> Result<(), Stop> {
    let mut watch = Watch::start(host)?;
    let came = row::carried(rt, host.alloc(), 64, 1_000, Duration::from_secs(1))?;
    let took = watch.lap(host) / 1_000_000;
    watch.end()?;
    println!(host; "wait: {came} numbers in {took} ms")?;
    Ok(())
}

fn show_carried(rt: HostRuntime, capacity: u32, came: u64) -> Result<(), Stop> {
    println!(rt; "carry: {came} numbers through lines of {capacity}")?;
    Ok(())
}

fn carry<R: Threads + Wait + Clock + Copy + Drop + Send>(
    rt: R,
    host: HostRuntime,
) -> Result<(), Stop> {
    for capacity in [1, 64] {
        let came = row::carried(rt, host.alloc(), capacity, 20_000, Duration::from_secs(0))?;
        show_carried(host, capacity, came)?;
    }
    Ok(())
}
