//! The words of a command.
use script_words::{Command, read_replica, read_words};
use std::alloc::Global;
use std::test::Fail;
use vault_types::{Cutting, Fault, JobConfig, Rewrite, Set, Version};

fn words_of(alloc: Global, words: &[&str]) -> Result<Vec<String>, Fail> {
    let mut list = Vec::new(alloc);
    for word in words {
        list.push(String::from_str(alloc, word)?)?;
    }
    Ok(list)
}

const OUTSIDE: &[&[&str]] = &[
    &[],
    &["--"],
    &["--help"],
    &["backup", "--"],
    &["backup", "="],
    &["backup", "--="],
    &["backup", "-h"],
    &["backup", "--help"],
    &["backup", "--size", "0"],
    &["backup", "--size", "65537"],
    &["backup", "--size"],
    &["backup", "--size", "4", "--size", "4"],
    &["backup", "--size=4", "--size", "4"],
    &["backup", "--size", "four"],
    &["backup", "--size", "04"],
    &["backup", "--size", "+4"],
    &["backup", "--size", "4096a6789012345678901"],
    &["backup", "--rewrite", "HAR"],
    &["backup", "--colour", "1"],
    &["backup", "--max", "4096"],
    &["backup", "--sample=1"],
    &["fill", "--seed=18446744073709551616", "--versions=1"],
    &["restore"],
    &["restore", "--version=1", "--area=65536", "--cache=2"],
    &["restore", "--version=1", "--area=65535"],
    &["migrate", "--set=1"],
];

fn is_refused(alloc: Global, words: &[&str]) -> Result<bool, Fail> {
    let words = words_of(alloc, words)?;
    Ok(matches!(read_words(alloc, &words), Err(Fault::Usage)))
}

fn all_are_refused(alloc: Global, rows: &[&[&str]]) -> Result<bool, Fail> {
    for words in rows {
        if !is_refused(alloc, words)? {
            return Ok(false);
        }
    }
    Ok(true)
}

#[test]
fn words_outside_the_grammar_are_refused(rt: HostRuntime) -> Result<(), Fail> {
    assert!(rt; all_are_refused(rt.alloc(), OUTSIDE)?);
    Ok(())
}

fn command_of(alloc: Global, words: &[&str]) -> Result<Command, Fail> {
    let words = words_of(alloc, words)?;
    match read_words(alloc, &words) {
        Ok(command) => Ok(command),
        Err(_) => Err(Fail::from("refused")),
    }
}

#[test]
fn words_of_a_restore_give_its_command(rt: HostRuntime) -> Result<(), Fail> {
    let command = command_of(rt.alloc(), &["restore", "--version=3"])?;
    let found = matches!(
        command,
        Command::Restore {
            set: 0,
            version: 3,
            cache: 16,
            area: None
        }
    );
    assert!(rt; found);
    Ok(())
}

// The set, queue, lanes and sample of a backup.
type Given = (Set, u32, u32, Option<(u32, u32)>);

fn backup_of(alloc: Global, words: &[&str]) -> Result<(Given, JobConfig), Fail> {
    match command_of(alloc, words)? {
        Command::Backup {
            set,
            config,
            queue,
            lanes,
            sample,
        } => Ok(((set, queue, lanes, sample), config)),
        _ => Err(Fail::from("no backup")),
    }
}

#[test]
fn words_of_a_backup_give_its_settings(rt: HostRuntime) -> Result<(), Fail> {
    let words = [
        "backup",
        "--chunk",
        "fixed",
        "--size=4",
        "--sample",
        "1",
        "--prefetch=2",
    ];
    let (given, config) = backup_of(rt.alloc(), &words)?;
    assert!(rt; given == (0, 64, 1, Some((1, 2))));
    assert!(rt; config.cutting == Cutting::Fixed { size: 4 });
    assert!(rt; (config.rewrite, config.container) == (Rewrite::Har, 4_194_304));
    Ok(())
}

fn replica_is(
    alloc: Global,
    words: &[&str],
    read: Result<(Set, Version), Fault>,
) -> Result<bool, Fail> {
    let words = words_of(alloc, words)?;
    Ok(read_replica(alloc, &words) == read)
}

#[test]
fn a_replica_names_its_version(rt: HostRuntime) -> Result<(), Fail> {
    assert!(rt; replica_is(rt.alloc(), &["--version", "2", "--set=3"], Ok((3, 2)))?);
    let words = ["show", "--version", "2"];
    assert!(rt; replica_is(rt.alloc(), &words, Err(Fault::Usage))?);
    Ok(())
}
