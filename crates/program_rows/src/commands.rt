// Rows of single commands, each group over an empty shelf.
use crate::{BACKUP, FIRST, QUIET, Row, TEXT};
use vault_types::{Fault, Limits};

const AN_EMPTY_STREAM_COMES_BACK: &[Row] = &[
    Row {
        words: "backup",
        out: b"backup 1: 0 chunks, 0 bytes, 0 new containers, 0 bytes written, 0 sparse\n",
        ..QUIET
    },
    Row {
        words: "restore --version 1",
        report: b"restore 1: 0 bytes, 0 loads\n",
        ..QUIET
    },
];

const VERSIONS_COME_BACK_AND_OTHERS_DO_NOT: &[Row] = &[
    FIRST,
    Row {
        words: "restore --version 1",
        out: b"abcdabcdab",
        report: b"restore 1: 10 bytes, 1 loads\n",
        ..QUIET
    },
    Row {
        words: "restore --version 0",
        status: 3,
        report: b"error 3: version not kept\n",
        ..QUIET
    },
    Row {
        words: "restore --version 2",
        status: 3,
        report: b"error 3: version not kept\n",
        ..QUIET
    },
    Row {
        words: BACKUP,
        input: b"ababcd",
        out: b"backup 2: 2 chunks, 6 bytes, 1 new containers, 6 bytes written, 0 sparse\n",
        ..QUIET
    },
    Row {
        words: "restore --version 2",
        out: b"ababcd",
        report: b"restore 2: 6 bytes, 1 loads\n",
        ..QUIET
    },
    Row {
        words: "delete --through 1",
        out: b"delete 1: floor 2, 1 containers reclaimed\n",
        ..QUIET
    },
    Row {
        words: "restore --version 1",
        status: 3,
        report: b"error 3: version not kept\n",
        ..QUIET
    },
];

const THE_LATEST_VERSION_STAYS: &[Row] = &[
    Row {
        words: "delete --through 0",
        status: 10,
        out: b"error 10: latest version\n",
        ..QUIET
    },
    FIRST,
    Row {
        words: "delete --through 1",
        status: 10,
        out: b"error 10: latest version\n",
        ..QUIET
    },
];

const A_RECIPE_IS_SHOWN: &[Row] = &[
    Row {
        words: "backup --chunk fixed",
        input: b"abc",
        out: b"backup 1: 1 chunks, 3 bytes, 1 new containers, 3 bytes written, 0 sparse\n",
        ..QUIET
    },
    Row {
        words: "show --version 1",
        out: b"version 1 length 3 next 2 chunks 1 sparse 0\n\
            a9993e364706816aba3e25717850c26c9cd0d89d 1 3\n",
        ..QUIET
    },
    Row {
        words: "show --version 2",
        status: 3,
        report: b"error 3: version not kept\n",
        ..QUIET
    },
];

/// A second version, of twelve bytes, behind the first one.
pub const SECOND: Row = Row {
    words: BACKUP,
    input: b"abcdefghefgh",
    out: b"backup 2: 3 chunks, 12 bytes, 1 new containers, 4 bytes written, 0 sparse\n",
    ..QUIET
};

const TWO_VERSIONS_COME_BACK: &[Row] = &[
    FIRST,
    SECOND,
    Row {
        words: "restore --version 1",
        out: TEXT,
        report: b"restore 1: 10 bytes, 1 loads\n",
        ..QUIET
    },
    Row {
        words: "restore --version 2 --cache 1",
        out: b"abcdefghefgh",
        report: b"restore 2: 12 bytes, 2 loads\n",
        ..QUIET
    },
    Row {
        words: "restore --version 3",
        status: 3,
        report: b"error 3: version not kept\n",
        ..QUIET
    },
    Row {
        words: "show --version 2",
        out: b"version 2 length 12 next 3 chunks 3 sparse 0\n\
            81fe8bfe87576c3ecb22426f8e57847382917acf 1 4\n\
            2aed8aa9f826c21ef07d5ee15b48eea06e9c8a62 2 4\n\
            2aed8aa9f826c21ef07d5ee15b48eea06e9c8a62 2 4\n",
        ..QUIET
    },
];

const A_SCRUB_FINDS_ALL_GOOD: &[Row] = &[
    Row {
        words: "scrub",
        out: b"scrub: 0 containers, 0 damaged\n",
        ..QUIET
    },
    FIRST,
    SECOND,
    Row {
        words: "scrub --workers 8",
        out: b"scrub: 2 containers, 0 damaged\n",
        ..QUIET
    },
];

/// Groups of rows within the standard limits.
pub const GROUPS: &[&[Row]] = &[
    AN_EMPTY_STREAM_COMES_BACK,
    VERSIONS_COME_BACK_AND_OTHERS_DO_NOT,
    THE_LATEST_VERSION_STAYS,
    A_RECIPE_IS_SHOWN,
    TWO_VERSIONS_COME_BACK,
    A_SCRUB_FINDS_ALL_GOOD,
];

/// Limits of three chunks, one version and scripts of eight bytes.
pub const LIMITS: Limits = Limits {
    chunks: 3,
    last: 1,
    script: 8,
};

/// Rows within those limits.
pub const LIMITED: &[Row] = &[
    Row {
        words: BACKUP,
        input: b"abcdefghijklm",
        status: 9,
        out: b"error 9: too many chunks\n",
        ..QUIET
    },
    Row {
        words: BACKUP,
        input: b"abcdefghijkl",
        out: b"backup 1: 3 chunks, 12 bytes, 1 new containers, 12 bytes written, 0 sparse\n",
        ..QUIET
    },
    Row {
        words: BACKUP,
        input: b"aaaa",
        status: 14,
        out: b"error 14: store full\n",
        ..QUIET
    },
    Row {
        words: "batch",
        input: b"delete 0\n",
        status: 12,
        fault: Some(Fault::ScriptTooLong { limit: 8 }),
        report: b"error 12: script too long\n",
        ..QUIET
    },
    Row {
        words: "batch",
        input: b"delete 0",
        out: b"delete 0: floor 1, 0 containers reclaimed\n",
        ..QUIET
    },
];
