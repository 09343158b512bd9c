// Rows of scripts.
use crate::{QUIET, Row};
use vault_types::Fault;

/// A file's name and its bytes.
pub type File = (&'static str, &'static [u8]);

/// Scripts that are run over these files and an empty shelf, each row for itself.
pub struct Group {
    pub files: &'static [File],
    pub rows: &'static [Row],
}

/// The run of a script.
pub const BATCH: Row = Row {
    words: "batch",
    ..QUIET
};

const WHAT_IS_SPARSE_IS_WRITTEN_AGAIN: Group = Group {
    files: &[
        ("a", b"aaaabbbbccccdddd"),
        ("b", b"aaaa"),
        ("c", b"aaaaaaaaaaaa"),
    ],
    rows: &[
        Row {
            input: b"backup a chunk=fixed size=4 rewrite=none container=16\n\
                backup b chunk=fixed size=4 rewrite=none limit=100\n\
                backup c chunk=fixed size=4 rewrite=har\n",
            out: b"backup 1: 4 chunks, 16 bytes, 1 new containers, 16 bytes written, 0 sparse\n\
                backup 2: 1 chunks, 4 bytes, 0 new containers, 0 bytes written, 1 sparse\n\
                backup 3: 3 chunks, 12 bytes, 1 new containers, 4 bytes written, 0 sparse\n",
            ..BATCH
        },
        Row {
            input: b"backup a chunk=fixed size=4 rewrite=none container=16\n\
                backup b chunk=fixed size=4 rewrite=none\n\
                backup c chunk=fixed size=4 rewrite=har\n",
            out: b"backup 1: 4 chunks, 16 bytes, 1 new containers, 16 bytes written, 0 sparse\n\
                backup 2: 1 chunks, 4 bytes, 0 new containers, 0 bytes written, 0 sparse\n\
                backup 3: 3 chunks, 12 bytes, 0 new containers, 0 bytes written, 0 sparse\n",
            ..BATCH
        },
        // what is sparse in one set's version is not rewritten in another set
        Row {
            input: b"backup a chunk=fixed size=4 rewrite=none container=16\n\
                backup b set=1 chunk=fixed size=4 rewrite=none limit=100\n\
                backup c chunk=fixed size=4 rewrite=har\n",
            out: b"backup 1: 4 chunks, 16 bytes, 1 new containers, 16 bytes written, 0 sparse\n\
                backup 1/1: 1 chunks, 4 bytes, 0 new containers, 0 bytes written, 1 sparse\n\
                backup 2: 3 chunks, 12 bytes, 0 new containers, 0 bytes written, 0 sparse\n",
            ..BATCH
        },
        Row {
            input: b"backup a chunk=fixed size=4 rewrite=none container=16\n\
                backup b chunk=fixed size=4 rewrite=none limit=100\n\
                backup c chunk=fixed size=4 rewrite=both cap=1\n",
            out: b"backup 1: 4 chunks, 16 bytes, 1 new containers, 16 bytes written, 0 sparse\n\
                backup 2: 1 chunks, 4 bytes, 0 new containers, 0 bytes written, 1 sparse\n\
                backup 3: 3 chunks, 12 bytes, 1 new containers, 4 bytes written, 0 sparse\n",
            ..BATCH
        },
    ],
};

const A_DELETION_GIVES_BACK_WHAT_IT_FREES: Group = Group {
    files: &[
        ("a", b"aaaabbbbccccdddd"),
        ("b", b"aaaacccc"),
        ("c", b"dddd"),
        ("d", b"cccc"),
    ],
    rows: &[
        Row {
            input: b"backup b chunk=fixed size=4 rewrite=none\n\
                backup c chunk=fixed size=4 rewrite=none\n\
                delete 1\n\
                delete 1\n",
            out: b"backup 1: 2 chunks, 8 bytes, 1 new containers, 8 bytes written, 0 sparse\n\
                backup 2: 1 chunks, 4 bytes, 1 new containers, 4 bytes written, 0 sparse\n\
                delete 1: floor 2, 1 containers reclaimed\n\
                delete 1: floor 2, 0 containers reclaimed\n",
            ..BATCH
        },
        Row {
            input: b"backup a chunk=fixed size=4 rewrite=none container=8\n\
                backup b chunk=fixed size=4 rewrite=cap cap=1\n\
                backup c chunk=fixed size=4 rewrite=none\n\
                delete 2\n\
                backup d chunk=fixed size=4 rewrite=none\n",
            out: b"backup 1: 4 chunks, 16 bytes, 2 new containers, 16 bytes written, 0 sparse\n\
                backup 2: 2 chunks, 8 bytes, 1 new containers, 4 bytes written, 0 sparse\n\
                backup 3: 1 chunks, 4 bytes, 0 new containers, 0 bytes written, 0 sparse\n\
                delete 2: floor 3, 2 containers reclaimed\n\
                backup 4: 1 chunks, 4 bytes, 0 new containers, 0 bytes written, 0 sparse\n",
            ..BATCH
        },
        Row {
            input: b"backup a chunk=fixed size=4 rewrite=none container=8\n\
                backup b chunk=fixed size=4 rewrite=cap cap=2\n",
            out: b"backup 1: 4 chunks, 16 bytes, 2 new containers, 16 bytes written, 0 sparse\n\
                backup 2: 2 chunks, 8 bytes, 0 new containers, 0 bytes written, 0 sparse\n",
            ..BATCH
        },
    ],
};

const SETS_SHARE_THEIR_CONTAINERS: Group = Group {
    files: &[("a", b"aaaa"), ("b", b"bbbb")],
    rows: &[
        Row {
            input: b"backup a chunk=fixed size=4\n\
                backup a set=3 chunk=fixed size=4\n\
                backup b chunk=fixed size=4\n\
                delete 1\n\
                backup b set=3 chunk=fixed size=4\n\
                delete 1 set=3\n",
            out: b"backup 1: 1 chunks, 4 bytes, 1 new containers, 4 bytes written, 0 sparse\n\
                backup 3/1: 1 chunks, 4 bytes, 0 new containers, 0 bytes written, 0 sparse\n\
                backup 2: 1 chunks, 4 bytes, 1 new containers, 4 bytes written, 0 sparse\n\
                delete 1: floor 2, 0 containers reclaimed\n\
                backup 3/2: 1 chunks, 4 bytes, 0 new containers, 0 bytes written, 0 sparse\n\
                delete 3/1: floor 2, 1 containers reclaimed\n",
            ..BATCH
        },
        BATCH,
    ],
};

/// Groups of scripts.
pub const SCRIPTS: &[Group] = &[
    WHAT_IS_SPARSE_IS_WRITTEN_AGAIN,
    A_DELETION_GIVES_BACK_WHAT_IT_FREES,
    SETS_SHARE_THEIR_CONTAINERS,
];

/// A script over a place `one` with the text, which leaves the text under `back`.
pub const LINE_BY_LINE: Row = Row {
    input: b"backup one chunk=fixed size=4\n\
        backup two\n\
        restore 1 back\n\
        delete 1\n",
    status: 11,
    out: b"backup 1: 3 chunks, 10 bytes, 1 new containers, 6 bytes written, 0 sparse\n\
        error 11: place failed\n\
        restore 1: 10 bytes, 1 loads\n\
        error 10: latest version\n",
    ..BATCH
};

const BAD: Row = Row {
    status: 12,
    fault: Some(Fault::BadLine(2)),
    report: b"error 12: bad script, line 2\n",
    ..BATCH
};

/// Scripts of which no line runs.
pub const BAD_SCRIPTS: &[Row] = &[
    Row {
        input: b"restore 1 x\nrestore 1 x\n",
        ..BAD
    },
    Row {
        input: b"restore 1 x\nbackup x\n",
        ..BAD
    },
    Row {
        input: b"backup x\nback up x\n",
        ..BAD
    },
];

/// Two versions over the two files, and a deletion of the first, twice.
pub const TWO_AND_TWO: Row = Row {
    input: b"backup a chunk=fixed size=4 rewrite=none\n\
        backup b chunk=fixed size=4 rewrite=none\n\
        delete 1\n\
        delete 1\n",
    out: b"backup 1: 1 chunks, 4 bytes, 1 new containers, 4 bytes written, 0 sparse\n\
        backup 2: 1 chunks, 4 bytes, 1 new containers, 4 bytes written, 0 sparse\n\
        delete 1: floor 2, 1 containers reclaimed\n\
        delete 1: floor 2, 0 containers reclaimed\n",
    ..BATCH
};

/// The script of `TWO_AND_TWO` where one call of its shelf fails, for each call from `first` to `last`.
pub struct FailedCalls {
    pub first: u64,
    pub last: u64,
    pub row: Row,
}

/// All calls of that script's shelf, from the one that opens the store on. With a failed call from the first deletion on
/// the shelf ends with the second version alone.
pub const FAILED_CALLS: &[FailedCalls] = &[
    // the opening
    FailedCalls {
        first: 1,
        last: 1,
        row: Row {
            status: 6,
            fault: Some(Fault::StoreFault(1)),
            out: b"",
            report: b"error 6: store failed\n",
            ..TWO_AND_TWO
        },
    },
    // the first backup
    FailedCalls {
        first: 2,
        last: 9,
        row: Row {
            status: 6,
            out: b"error 6: store failed\n\
                backup 1: 1 chunks, 4 bytes, 1 new containers, 4 bytes written, 0 sparse\n\
                error 10: latest version\n\
                error 10: latest version\n",
            ..TWO_AND_TWO
        },
    },
    // the second one
    FailedCalls {
        first: 10,
        last: 14,
        row: Row {
            status: 6,
            out: b"backup 1: 1 chunks, 4 bytes, 1 new containers, 4 bytes written, 0 sparse\n\
                error 6: store failed\n\
                error 10: latest version\n\
                error 10: latest version\n",
            ..TWO_AND_TWO
        },
    },
    // the first deletion, before anything goes
    FailedCalls {
        first: 15,
        last: 16,
        row: Row {
            status: 6,
            out: b"backup 1: 1 chunks, 4 bytes, 1 new containers, 4 bytes written, 0 sparse\n\
                backup 2: 1 chunks, 4 bytes, 1 new containers, 4 bytes written, 0 sparse\n\
                error 6: store failed\n\
                delete 1: floor 2, 1 containers reclaimed\n",
            ..TWO_AND_TWO
        },
    },
    // what it removes
    FailedCalls {
        first: 17,
        last: 19,
        row: TWO_AND_TWO,
    },
];

pub const TWO_FILES: &[File] = &[("a", b"aaaa"), ("b", b"bbbb")];
