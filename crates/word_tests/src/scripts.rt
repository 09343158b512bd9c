//! The lines of a script, and those of `fill`.
use script_words::{Line, fill_script, read_script};
use std::alloc::Global;
use std::test::Fail;
use vault_types::{Fault, Set, Version};

// A script, and the number of its first bad line.
const BAD: &[(&[u8], u32)] = &[
    (b"delete 1\ndelete 01", 2),
    (b"restore 1 x\nrestore 1 x\n", 2),
    (b"restore 1 x\nbackup x\n", 2),
    (b"backup x\nrestore 1 x\n", 2),
    (b"\n", 1),
    (b"restore 1 x area=65536", 1),
    (b"backup a  size=4\n", 1),
    (b"backup .a\n", 1),
];

fn is_told(alloc: Global, text: &[u8], number: u32) -> bool {
    text.len() < 1_000 && matches!(read_script(alloc, text), Err(Fault::BadLine(n)) if n == number)
}

fn all_are_told(alloc: Global, rows: &[(&[u8], u32)]) -> bool {
    for (text, number) in rows {
        if !is_told(alloc, text, *number) {
            return false;
        }
    }
    true
}

#[test]
fn the_first_bad_line_is_told(rt: HostRuntime) {
    assert!(rt; all_are_told(rt.alloc(), BAD));
}

fn lines_of(alloc: Global, text: &[u8]) -> Result<Vec<Line>, Fail> {
    if text.len() >= 1_000 {
        return Err(Fail::from("too long"));
    }
    match read_script(alloc, text) {
        Ok(lines) => Ok(lines),
        Err(_) => Err(Fail::from("refused")),
    }
}

// Whether a line of a script is a backup of a source.
fn is_backup(lines: &[Line], at: usize, source: &str) -> bool {
    match lines.get(at) {
        Some(Line::Backup { name, .. }) => name.as_str() == source,
        _ => false,
    }
}

// Whether a line of a script is a restore of a version to an output, with so many containers in its cache.
fn is_restore(lines: &[Line], at: usize, from: (Set, Version), output: &str, with: u32) -> bool {
    match lines.get(at) {
        Some(
            Line::Restore {
                set,
                version,
                name,
                cache,
            },
        ) => (*set, *version, *cache) == (from.0, from.1, with) && name.as_str() == output,
        _ => false,
    }
}

fn is_delete(lines: &[Line], at: usize, from: Set, last: Version) -> bool {
    match lines.get(at) {
        Some(Line::Delete { set, through }) => (*set, *through) == (from, last),
        _ => false,
    }
}

#[test]
fn the_lines_of_a_script_are_read(rt: HostRuntime) -> Result<(), Fail> {
    let text = b"backup a\nrestore 1 x cache=3 set=2\ndelete 4 set=5";
    let lines = lines_of(rt.alloc(), text)?;
    assert!(rt; lines.len() == 3 && is_backup(&lines, 0, "a"));
    assert!(rt; is_restore(&lines, 1, (2, 1), "x", 3) && is_delete(&lines, 2, 5, 4));
    Ok(())
}

fn filled(alloc: Global, versions: u32) -> Result<Vec<Line>, Fail> {
    match fill_script(alloc, versions) {
        Ok(lines) => Ok(lines),
        Err(_) => Err(Fail::from("no memory")),
    }
}

#[test]
fn fill_backs_up_and_restores_each_version(rt: HostRuntime) -> Result<(), Fail> {
    let lines = filled(rt.alloc(), 10)?;
    assert!(rt; lines.len() == 21 && is_backup(&lines, 9, "gen-10"));
    assert!(rt; is_restore(&lines, 19, (0, 10), "out-10", 16) && is_delete(&lines, 20, 0, 5));
    Ok(())
}
