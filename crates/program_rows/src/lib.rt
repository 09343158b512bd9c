//! The rows of docs/RULES.md that single commands and scripts are tested by: what is run, and what it ends with and
//! prints. Both calls of the program are tested by them.
#![tactic(auto)]

mod commands;
mod scripts;

pub use commands::{GROUPS, LIMITED, LIMITS, SECOND};
pub use scripts::{
    BAD_SCRIPTS, BATCH, FAILED_CALLS, FailedCalls, File, Group, LINE_BY_LINE, SCRIPTS, TWO_AND_TWO,
    TWO_FILES,
};
use vault_types::{Fault, Kind, Limits, Name};

/// A run: its words, its input, and what it should end with and print.
#[derive(Clone, Copy)]
pub struct Row {
    pub words: &'static str,
    pub input: &'static [u8],
    pub status: u8,
    pub fault: Option<Fault>,
    pub out: &'static [u8],
    pub report: &'static [u8],
}

/// A run that reads nothing, prints nothing and ends well.
pub const QUIET: Row = Row {
    words: "",
    input: b"",
    status: 0,
    fault: None,
    out: b"",
    report: b"",
};

pub const BACKUP: &str = "backup --chunk fixed --size 4";

pub const TEXT: &[u8] = b"abcdabcdab";

/// The first backup of the text.
pub const FIRST: Row = Row {
    words: BACKUP,
    input: TEXT,
    out: b"backup 1: 3 chunks, 10 bytes, 1 new containers, 6 bytes written, 0 sparse\n",
    ..QUIET
};

pub const STANDARD: Limits = Limits {
    chunks: 4_194_304,
    last: 4_294_967_294,
    script: 1_048_576,
};

pub const TABLE: Name = Name {
    kind: Kind::Table,
    number: 1,
};

pub const PAYLOAD: Name = Name {
    kind: Kind::Payload,
    number: 1,
};

pub const RECIPE: Name = Name {
    kind: Kind::Recipe,
    number: 1,
};

pub const FLOOR: Name = Name {
    kind: Kind::Floor,
    number: 0,
};
