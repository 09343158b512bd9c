//! The settings that there are, and what their values may be.
ghost use Rattle.std.specs.Prelude.{◌≡◌, true, ◌&&◌, ◌++◌, ◌∷◌, [], codes};
ghost use Rattle.std.specs.List.{list_any};
ghost use Rattle.std.specs.Str.{bytes_eq};
ghost use Rattle.vault_types.specs.Words as spec;
ghost use Rattle.script_words.specs.Settings.{allowed_by, kinds_of, kinds_fit};

use crate::values::{is_number_in, is_one_of};

/// What a value may be: a number in a range, or one of some words.
#[derive(Clone, Copy)]
pub(crate) enum Range {
    Number { low: u64, high: u64 },
    Word(&'static [&'static [u8]]),
}

/// A setting that there may be.
#[derive(Clone, Copy)]
pub(crate) struct SettingKind {
    name: &'static [u8],
    range: Range,
}

const SET: SettingKind = SettingKind {
    name: b"set",
    range: Range::Number { low: 0, high: 255 },
};

const SIZE: SettingKind = SettingKind {
    name: b"size",
    range: Range::Number {
        low: 1,
        high: 65_536,
    },
};

const WINDOW: SettingKind = SettingKind {
    name: b"window",
    range: Range::Number {
        low: 1,
        high: 65_535,
    },
};

const MAX: SettingKind = SettingKind {
    name: b"max",
    range: Range::Number {
        low: 2,
        high: 65_536,
    },
};

const SEGMENT: SettingKind = SettingKind {
    name: b"segment",
    range: Range::Number {
        low: 1,
        high: 67_108_864,
    },
};

const CAP: SettingKind = SettingKind {
    name: b"cap",
    range: Range::Number {
        low: 1,
        high: 4_096,
    },
};

const THRESHOLD: SettingKind = SettingKind {
    name: b"threshold",
    range: Range::Number { low: 0, high: 100 },
};

const LIMIT: SettingKind = SettingKind {
    name: b"limit",
    range: Range::Number { low: 0, high: 100 },
};

const CONTAINER: SettingKind = SettingKind {
    name: b"container",
    range: Range::Number {
        low: 1,
        high: 4_194_304,
    },
};

const QUEUE: SettingKind = SettingKind {
    name: b"queue",
    range: Range::Number {
        low: 1,
        high: 1_024,
    },
};

const LANES: SettingKind = SettingKind {
    name: b"lanes",
    range: Range::Number { low: 1, high: 8 },
};

const WORKERS: SettingKind = SettingKind {
    name: b"workers",
    range: Range::Number { low: 1, high: 8 },
};

const CACHE: SettingKind = SettingKind {
    name: b"cache",
    range: Range::Number { low: 1, high: 64 },
};

const AREA: SettingKind = SettingKind {
    name: b"area",
    range: Range::Number {
        low: 65_536,
        high: 67_108_864,
    },
};

const SAMPLE: SettingKind = SettingKind {
    name: b"sample",
    range: Range::Number {
        low: 1,
        high: 65_536,
    },
};

const PREFETCH: SettingKind = SettingKind {
    name: b"prefetch",
    range: Range::Number { low: 1, high: 16 },
};

const VERSION: SettingKind = SettingKind {
    name: b"version",
    range: Range::Number {
        low: 0,
        high: 4_294_967_295,
    },
};

const THROUGH: SettingKind = SettingKind {
    name: b"through",
    range: Range::Number {
        low: 0,
        high: 4_294_967_295,
    },
};

const SEED: SettingKind = SettingKind {
    name: b"seed",
    range: Range::Number {
        low: 0,
        high: 18_446_744_073_709_551_615,
    },
};

const VERSIONS: SettingKind = SettingKind {
    name: b"versions",
    range: Range::Number { low: 1, high: 64 },
};

const CHUNK: SettingKind = SettingKind {
    name: b"chunk",
    range: Range::Word(&[b"fixed", b"ae"]),
};

const REWRITE: SettingKind = SettingKind {
    name: b"rewrite",
    range: Range::Word(&[b"none", b"cap", b"har", b"both"]),
};

/// The settings of a backup.
pub(crate) fn backup_kinds() -> [SettingKind; 15]
    ensures rows { kinds_of result
        ≡ spec.set_kind ++ spec.job_kinds ++ spec.queue_kinds ++ spec.sample_kinds }
    ensures fit { kinds_fit (kinds_of result) ≡ true }
{
    [
        SET, CHUNK, SIZE, WINDOW, MAX, REWRITE, SEGMENT, CAP, THRESHOLD, LIMIT, CONTAINER, QUEUE,
        LANES, SAMPLE, PREFETCH,
    ]
}

/// The settings of a restore.
pub(crate) fn restore_kinds() -> [SettingKind; 4]
    ensures rows { kinds_of result
        ≡ spec.set_kind ++ spec.version_kind (codes "version") ++ spec.cache_kind ++ spec.area_kind }
    ensures fit { kinds_fit (kinds_of result) ≡ true }
{
    [SET, VERSION, CACHE, AREA]
}

/// The settings of a deletion.
pub(crate) fn delete_kinds() -> [SettingKind; 2]
    ensures rows { kinds_of result ≡ spec.set_kind ++ spec.version_kind (codes "through") }
    ensures fit { kinds_fit (kinds_of result) ≡ true }
{
    [SET, THROUGH]
}

/// The settings that name a version.
pub(crate) fn version_kinds() -> [SettingKind; 2]
    ensures rows { kinds_of result ≡ spec.set_kind ++ spec.version_kind (codes "version") }
    ensures fit { kinds_fit (kinds_of result) ≡ true }
{
    [SET, VERSION]
}

/// The settings of a batch.
pub(crate) fn batch_kinds() -> [SettingKind; 3]
    ensures rows { kinds_of result ≡ spec.queue_kinds ++ spec.workers_kind }
    ensures fit { kinds_fit (kinds_of result) ≡ true }
{
    [QUEUE, LANES, WORKERS]
}

/// The settings of a fill.
pub(crate) fn fill_kinds() -> [SettingKind; 5]
    ensures rows { kinds_of result
        ≡ (codes "seed", spec.Number 0 18446744073709551615) ∷ (codes "versions", spec.Number 1 64)
        ∷ spec.queue_kinds
        ++ spec.workers_kind }
    ensures fit { kinds_fit (kinds_of result) ≡ true }
{
    [SEED, VERSIONS, QUEUE, LANES, WORKERS]
}

/// The settings of a scrub.
pub(crate) fn scrub_kinds() -> [SettingKind; 1]
    ensures rows { kinds_of result ≡ spec.workers_kind }
    ensures fit { kinds_fit (kinds_of result) ≡ true }
{
    [WORKERS]
}

/// The settings of a line that backs up.
pub(crate) fn backup_line_kinds() -> [SettingKind; 11]
    ensures rows { kinds_of result ≡ spec.set_kind ++ spec.job_kinds }
    ensures fit { kinds_fit (kinds_of result) ≡ true }
{
    [
        SET, CHUNK, SIZE, WINDOW, MAX, REWRITE, SEGMENT, CAP, THRESHOLD, LIMIT, CONTAINER,
    ]
}

/// The settings of a line that restores.
pub(crate) fn restore_line_kinds() -> [SettingKind; 2]
    ensures rows { kinds_of result ≡ spec.set_kind ++ spec.cache_kind }
    ensures fit { kinds_fit (kinds_of result) ≡ true }
{
    [SET, CACHE]
}

/// The settings of a line that deletes.
pub(crate) fn delete_line_kinds() -> [SettingKind; 1]
    ensures rows { kinds_of result ≡ spec.set_kind }
    ensures fit { kinds_fit (kinds_of result) ≡ true }
{
    [SET]
}

/// Whether a value is one that there may be.
pub(crate) fn is_in(range: Range, value: &[u8]) -> bool
    ensures { result ≡ spec.is_allowed (allowed_by range) value.now }
{
    match range {
        Range::Number { low, high } => is_number_in(value, low, high),
        Range::Word(texts) => is_one_of(texts, value),
    }
}

/// Whether a name is one of the table's, and may have the value.
pub(crate) fn may_be(kinds: &[SettingKind], name: &[u8], value: &[u8]) -> bool
    ensures { result
        ≡ list_any (λ k. bytes_eq k.0 name.now && spec.is_allowed k.1 value.now) (kinds_of kinds.now) }
{
    for kind in kinds {
        if kind.name == name && is_in(kind.range, value) {
            return true;
        }
    }
    false
}
