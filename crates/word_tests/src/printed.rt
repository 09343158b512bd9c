//! The lines that are printed.
use script_words::{Damage, answer_text, fault_text, output_text, show_text};
use std::alloc::Global;
use std::test::Fail;
use vault_types::list::ListOf;
use vault_types::{Answer, Fault, Fp, Kind, Recipe, Row, Why};

// Whether the front of this length is the line.
fn is_front(out: &[u8; 256], len: usize, line: &[u8]) -> bool {
    len <= 256 && &out[..len] == line
}

const FAULTS: &[(Fault, &[u8])] = &[
    (Fault::Usage, b"error 2: usage\n"),
    (
        Fault::NotKept {
            set: 0,
            version: 1,
            floor: 2,
            latest: 3,
        },
        b"error 3: version not kept\n",
    ),
    (Fault::ReadFault(1), b"error 4: source failed\n"),
    (Fault::WriteFault(1), b"error 5: sink failed\n"),
    (Fault::StoreFault(1), b"error 6: store failed\n"),
    (
        Fault::Damaged {
            kind: Kind::Table,
            number: 7,
            why: Why::Absent,
        },
        b"error 7: store damaged, table 7\n",
    ),
    (
        Fault::Damaged {
            kind: Kind::Payload,
            number: 8,
            why: Why::Absent,
        },
        b"error 7: store damaged, payload 8\n",
    ),
    (
        Fault::Damaged {
            kind: Kind::Recipe,
            number: 4_294_967_297,
            why: Why::Absent,
        },
        b"error 7: store damaged, recipe 4294967297\n",
    ),
    (
        Fault::Damaged {
            kind: Kind::Floor,
            number: 0,
            why: Why::Absent,
        },
        b"error 7: store damaged, floor 0\n",
    ),
    (Fault::Memory, b"error 8: out of memory\n"),
    (Fault::TooMany { limit: 4 }, b"error 9: too many chunks\n"),
    (
        Fault::LastVersion {
            set: 0,
            through: 1,
            latest: 1,
        },
        b"error 10: latest version\n",
    ),
    (Fault::PlaceFault(1), b"error 11: place failed\n"),
    (Fault::BadLine(2), b"error 12: bad script, line 2\n"),
    (
        Fault::ScriptTooLong { limit: 8 },
        b"error 12: script too long\n",
    ),
    (
        Fault::Full {
            set: 0,
            latest: 1,
            next: 2,
        },
        b"error 14: store full\n",
    ),
];

fn faults_have(rows: &[(Fault, &[u8])]) -> bool {
    for (fault, line) in rows {
        let mut out = [0; 256];
        let len = fault_text(fault, &mut out);
        if !is_front(&out, len, line) {
            return false;
        }
    }
    true
}

#[test]
fn each_fault_has_its_line(rt: HostRuntime) {
    assert!(rt; faults_have(FAULTS));
}

const ANSWERS: &[(Answer, &[u8])] = &[
    (
        Answer::Stored {
            set: 0,
            version: 1,
            chunks: 3,
            bytes: 10,
            containers: 1,
            written: 6,
            sparse: 0,
        },
        b"backup 1: 3 chunks, 10 bytes, 1 new containers, 6 bytes written, 0 sparse\n",
    ),
    (
        Answer::Stored {
            set: 255,
            version: u32::MAX,
            chunks: u32::MAX,
            bytes: u64::MAX,
            containers: u64::MAX,
            written: u64::MAX,
            sparse: u32::MAX,
        },
        b"backup 255/4294967295: 4294967295 chunks, 18446744073709551615 bytes, 18446744073709551615 new containers, 18446744073709551615 bytes written, 4294967295 sparse\n",
    ),
    (
        Answer::Restored {
            set: 0,
            version: 2,
            bytes: 8,
            loads: 4,
        },
        b"restore 2: 8 bytes, 4 loads\n",
    ),
    (
        Answer::Removed {
            set: 3,
            through: 1,
            floor: 2,
            reclaimed: 1,
        },
        b"delete 3/1: floor 2, 1 containers reclaimed\n",
    ),
    (
        Answer::Shown {
            set: 0,
            version: 1,
            rows: 1,
        },
        b"",
    ),
    (Answer::Migrated { recipes: 2 }, b"migrate: 2 recipes\n"),
    (
        Answer::Scrubbed {
            containers: 5,
            damaged: 1,
        },
        b"scrub: 5 containers, 1 damaged\n",
    ),
    (Answer::Refused(Fault::Usage), b"error 2: usage\n"),
];

fn answers_have(rows: &[(Answer, &[u8])]) -> bool {
    for (answer, line) in rows {
        let mut out = [0; 256];
        let len = answer_text(answer, &mut out);
        if !is_front(&out, len, line) {
            return false;
        }
    }
    true
}

#[test]
fn each_answer_has_its_line(rt: HostRuntime) {
    assert!(rt; answers_have(ANSWERS));
}

// The SHA-1 of `abc`, by FIPS 180-4.
const ABC: Fp = Fp([
    0xa9, 0x99, 0x3e, 0x36, 0x47, 0x06, 0x81, 0x6a, 0xba, 0x3e, 0x25, 0x71, 0x78, 0x50, 0xc2, 0x6c,
    0x9c, 0xd0, 0xd8, 0x9d,
]);

fn output_has(line: &[u8]) -> bool {
    let mut out = [0; 256];
    let len = output_text(2, &ABC, &mut out);
    is_front(&out, len, line)
}

const DAMAGES: &[(Damage, &[u8])] = &[
    (Damage::Absent, b"container 7 absent\n"),
    (Damage::Length, b"container 7 length\n"),
    (Damage::Sum, b"container 7 sum\n"),
    (Damage::Chunk(3), b"container 7 chunk 3\n"),
];

fn damages_have(rows: &[(Damage, &[u8])]) -> bool {
    for (damage, line) in rows {
        let mut out = [0; 256];
        let len = damage.text(7, &mut out);
        if !is_front(&out, len, line) {
            return false;
        }
    }
    true
}

#[test]
fn outputs_and_damaged_containers_have_their_lines(rt: HostRuntime) {
    assert!(rt; output_has(b"output 2 a9993e364706816aba3e25717850c26c9cd0d89d\n"));
    assert!(rt; damages_have(DAMAGES));
}

fn shown(alloc: Global, before: &[u8]) -> Result<Vec<u8>, Fail> {
    let row = Row {
        fp: ABC,
        id: 1,
        len: 3,
    };
    let recipe = Recipe {
        set: 0,
        version: 1,
        next: 2,
        length: 3,
        rows: ListOf::from_vec(vec![in alloc; row]?),
        sparse: ListOf::from_vec(vec![in alloc; 1]?),
        whole: None,
    };
    let mut out = Vec::from_slice(alloc, before)?;
    show_text(&recipe, &mut out)?;
    Ok(out)
}

#[test]
fn a_recipe_is_shown_line_by_line(rt: HostRuntime) -> Result<(), Fail> {
    let text: &[u8] =
        b"> version 1 length 3 next 2 chunks 1 sparse 1\na9993e364706816aba3e25717850c26c9cd0d89d 1 3\nsparse 1\n";
    assert!(rt; shown(rt.alloc(), b"> ")?.as_slice() == text);
    Ok(())
}
