//! The types that the crates of the store share, and the definitions that their contracts cite.
//!
//! The definitions stand in `specs/`, one subject a file: how a stream is cut (`Cuts`), how chunks are named (`Names`),
//! stored (`Decide`, `Fill`, `Sparse`), spelled as blobs (`Blobs`, `Shelf`), kept (`State`, `Backup`, `Delete`,
//! `Events`) and restored (`Bytes`, `Plans`); what a script means (`Script`, `Refusals`), and what is read and printed
//! (`Words`, `Texts`). The rules are after Destor (Fu and others, FAST 2015), history-aware rewriting (Fu and others,
//! USENIX ATC 2014), capping (Lillibridge and others, FAST 2013), asymmetric-extremum chunking (Zhang and others,
//! INFOCOM 2015) and Belady's rule of eviction (1966).
#![tactic(auto)]

ghost use Rattle.std.specs.Prelude.{◌≡◌, ◌<◌, ◌+◌, ◌++◌, List, ℕ, [], map, length};
ghost use Rattle.vault_types.specs.declared.Fault.TheVariants as fault;
ghost use Rattle.vault_types.specs.Cuts.{cuts};
ghost use Rattle.vault_types.specs.Names.{NoClash};
ghost use Rattle.vault_types.specs.Tables.{id_of};
ghost use Rattle.vault_types.specs.State.{State, named, latest_of};
ghost use Rattle.vault_types.specs.Bytes.{bytes_of, all_chunks, IsSound};
ghost use Rattle.vault_types.specs.Backup.{backup};
ghost use Rattle.vault_types.specs.Delete.{delete};

pub mod list;
pub mod text;

use crate::list::ListOf;
use crate::text::Text;
use std::alloc::{AllocError, AllocFailed};

/// The number of a container, from 1 on. It is given once and never again.
pub type Id = u64;

/// The number of a version in its set, 1 to 4,294,967,294.
pub type Version = u32;

/// The number of a dataset, 0 to 255. Each has versions of its own; all share their chunks.
pub type Set = u8;

/// There is no memory. What stands after this answer is said where it is given.
#[derive(Clone, Copy, Debug, PartialEq, Eq)]
pub struct Memory;

impl From<AllocError> for Memory {
    ghost from_gives = { λ _ e. Unit {0} };

    fn from(_: AllocError) -> Self {
        Memory
    }
}

impl<T: Drop> From<AllocFailed<T>> for Memory {
    ghost from_gives = { λ _ e. Unit {0} };

    fn from(_: AllocFailed<T>) -> Self {
        Memory
    }
}

/// A fingerprint: the SHA-1 of some bytes (FIPS 180-4).
#[derive(Clone, Copy, Debug, PartialEq, Eq, PartialOrd, Ord, Hash)]
pub struct Fp(pub [u8; 20]);

/// A chunk in a container: its fingerprint and its length in bytes, 1 to 65,536.
#[derive(Clone, Copy, Debug, PartialEq, Eq)]
pub struct TableRow {
    pub fp: Fp,
    pub len: u32,
}

/// What a container has: its chunks in the order of its payload, and the SHA-1 of the payload.
#[derive(Drop)]
pub struct Table {
    pub id: Id,
    pub rows: ListOf<TableRow>,
    pub payload_sum: Fp,
}

/// A chunk of a version: its fingerprint, the container that has it, and its length in bytes.
#[derive(Clone, Copy, Debug, PartialEq, Eq)]
pub struct Row {
    pub fp: Fp,
    pub id: Id,
    pub len: u32,
}

/// A version as its chunks in order. `next` is the first container id that was free after it, `length` its bytes,
/// `sparse` the containers of which it uses little, ascending, and `whole` the SHA-1 of its bytes, which the first
/// format of recipes has not.
#[derive(Drop)]
pub struct Recipe {
    pub set: Set,
    pub version: Version,
    pub next: Id,
    pub length: u64,
    pub rows: ListOf<Row>,
    pub sparse: ListOf<Id>,
    pub whole: Option<Fp>,
}

/// The sum that a version should have, and the number of the recipe that says so.
#[derive(Clone, Copy, Debug, PartialEq, Eq)]
pub struct Whole {
    pub number: u64,
    pub want: Fp,
}

/// Where a chunk of a version lies: in which container, from which byte of its payload, and how many bytes.
#[derive(Clone, Copy, Debug, PartialEq, Eq)]
pub struct Spot {
    pub id: Id,
    pub at: u32,
    pub len: u32,
}

/// How a stream is cut into chunks: in pieces of a fixed size (1 to 65,536 bytes), or at asymmetric extrema with a
/// window (1 to 65,535) and a greatest length (above the window, to 65,536).
#[derive(Clone, Copy, Debug, PartialEq, Eq)]
pub enum Cutting {
    Fixed { size: u32 },
    Ae { window: u32, max: u32 },
}

/// Which duplicates are written again: those outside the most used containers of a segment, those in
/// sparse containers, or both.
#[derive(Clone, Copy, Debug, PartialEq, Eq)]
pub enum Rewrite {
    Off,
    Cap,
    Har,
    Both,
}

/// The settings of a backup: `segment` is a segment's bytes, `cap` how many old containers a segment may refer to,
/// `threshold` the hundredths of a container below whose use it is sparse, `limit` the hundredths of a version that
/// sparse containers may hold, `container` a container's bytes.
#[derive(Clone, Copy, Debug, PartialEq, Eq)]
pub struct JobConfig {
    pub cutting: Cutting,
    pub rewrite: Rewrite,
    pub segment: u32,
    pub cap: u32,
    pub threshold: u32,
    pub limit: u32,
    pub container: u32,
}

/// The limits of a run: chunks of a version, versions of a set, and bytes of a script.
#[derive(Clone, Copy, Debug, PartialEq, Eq)]
pub struct Limits {
    pub chunks: u32,
    pub last: Version,
    pub script: u32,
}

/// How a chunk of a backup is stored: in an older container, by an earlier write of this backup, or by a
/// write of its own.
#[derive(Clone, Copy, Debug, PartialEq, Eq)]
pub enum How {
    Old(Id),
    Own,
    Write,
}

/// A step of a restore with a cache of payloads.
#[derive(Clone, Copy, Debug, PartialEq, Eq)]
pub enum Step {
    Load(Id),
    Evict(Id),
    Serve,
}

/// A kind of blob, in the order in which a shelf lists them.
#[derive(Clone, Copy, Debug, PartialEq, Eq, PartialOrd, Ord)]
pub enum Kind {
    Table,
    Payload,
    Recipe,
    Floor,
}

/// The name of a blob. The number of a table or payload is its container's, that of a recipe 2^32 times its set plus
/// its version, that of a floor its set.
#[derive(Clone, Copy, Debug, PartialEq, Eq, PartialOrd, Ord)]
pub struct Name {
    pub kind: Kind,
    pub number: u64,
}

/// What is wrong with a blob: it is not there; its bytes are not in the format; its `next` is below that of the version
/// before; its row is in no table; it has another length, or another SHA-1; the version's bytes, or a chunk, have
/// another SHA-1 than was noted.
#[derive(Clone, Copy, Debug, PartialEq, Eq)]
pub enum Why {
    Absent,
    Spelling,
    Lower { before: Id, found: Id },
    BadRow(u32),
    Length { want: u64, found: u64 },
    Sum { want: Fp, found: Fp },
    Whole { want: Fp, found: Fp },
    Chunk { row: u32, want: Fp, found: Fp },
}

/// Why a call or a line was refused. The number of a read, write, store or place fault is the device's count of faults
/// right after the call that failed.
#[derive(Clone, Copy, Debug, PartialEq, Eq)]
pub enum Fault {
    Usage,
    NotKept {
        set: Set,
        version: Version,
        floor: Version,
        latest: Version,
    },
    ReadFault(u64),
    WriteFault(u64),
    StoreFault(u64),
    Damaged {
        kind: Kind,
        number: u64,
        why: Why,
    },
    Memory,
    TooMany {
        limit: u32,
    },
    LastVersion {
        set: Set,
        through: Version,
        latest: Version,
    },
    PlaceFault(u64),
    BadLine(u32),
    ScriptTooLong {
        limit: u32,
    },
    Full {
        set: Set,
        latest: Version,
        next: Id,
    },
}

impl From<Memory> for Fault {
    ghost from_gives = { λ _ e. e ≡ fault.Memory };

    fn from(_: Memory) -> Self {
        Fault::Memory
    }
}

impl From<AllocError> for Fault {
    ghost from_gives = { λ _ e. e ≡ fault.Memory };

    fn from(_: AllocError) -> Self {
        Fault::Memory
    }
}

impl<T: Drop> From<AllocFailed<T>> for Fault {
    ghost from_gives = { λ _ e. e ≡ fault.Memory };

    fn from(_: AllocFailed<T>) -> Self {
        Fault::Memory
    }
}

/// The answer to a line or a command. Lengths are in bytes.
#[derive(Clone, Copy, Debug, PartialEq, Eq)]
pub enum Answer {
    Stored {
        set: Set,
        version: Version,
        chunks: u32,
        bytes: u64,
        containers: u64,
        written: u64,
        sparse: u32,
    },
    Restored {
        set: Set,
        version: Version,
        bytes: u64,
        loads: u64,
    },
    Removed {
        set: Set,
        through: Version,
        floor: Version,
        reclaimed: u64,
    },
    Shown {
        set: Set,
        version: Version,
        rows: u32,
    },
    Migrated {
        recipes: u64,
    },
    Scrubbed {
        containers: u64,
        damaged: u64,
    },
    Refused(Fault),
}

/// What travels between two stages of a backup. `Stopped` is the end of one that has failed elsewhere.
#[derive(Drop)]
pub enum Flow<T> {
    Part(T),
    End,
    Failed(Fault),
    Stopped,
}

/// What a turn of a stage did.
#[derive(Clone, Copy, Debug, PartialEq, Eq)]
pub enum Turn {
    Moved,
    Idle,
    Done,
}

/// Whether blobs have to be mended before the next write: not, since the shelf was opened, or since a write for a
/// set failed.
#[derive(Clone, Copy, Debug, PartialEq, Eq)]
pub enum Pending {
    Not,
    Opened,
    FailedFor(Set),
}

/// A line of a script.
#[derive(Drop)]
pub enum Line {
    Backup {
        set: Set,
        name: Text,
        config: JobConfig,
    },
    Restore {
        set: Set,
        version: Version,
        name: Text,
        cache: u32,
    },
    Delete {
        set: Set,
        through: Version,
    },
}

/// A command of the program.
#[derive(Drop)]
pub enum Command {
    Backup {
        set: Set,
        config: JobConfig,
        queue: u32,
        lanes: u32,
        sample: Option<(u32, u32)>,
    },
    Restore {
        set: Set,
        version: Version,
        cache: u32,
        area: Option<u32>,
    },
    Delete {
        set: Set,
        through: Version,
    },
    Show {
        set: Set,
        version: Version,
    },
    Batch {
        queue: u32,
        lanes: u32,
        workers: u32,
    },
    Fill {
        seed: u64,
        versions: u32,
        queue: u32,
        lanes: u32,
        workers: u32,
    },
    Migrate,
    Scrub {
        workers: u32,
    },
}

impl Name {
    ghost use Rattle.vault_types.specs.Shelf.{recipe_name, floor_name};

    /// The name of a version's recipe.
    pub fn recipe(set: Set, version: Version) -> Name
        ensures { result ≡ recipe_name set version }
    {
        Name {
            kind: Kind::Recipe,
            number: u64::from(set) * 4_294_967_296 + u64::from(version),
        }
    }

    /// The name of a set's floor.
    pub fn floor(set: Set) -> Name
        ensures { result ≡ floor_name set }
    {
        Name {
            kind: Kind::Floor,
            number: u64::from(set),
        }
    }
}

impl Limits {
    ghost use Rattle.vault_types.specs.Standard.{standard_limits};

    /// The limits of a program's run: 4,194,304 chunks a version, 4,294,967,294 versions a set, and scripts of
    /// 1,048,576 bytes.
    pub fn standard() -> Limits
        ensures { result ≡ standard_limits }
    {
        Limits {
            chunks: 4_194_304,
            last: 4_294_967_294,
            script: 1_048_576,
        }
    }
}

impl JobConfig {
    ghost use Rattle.vault_types.specs.Standard.{standard_config};

    /// The settings of a backup that none is given.
    pub fn standard() -> JobConfig
        ensures { result ≡ standard_config }
    {
        JobConfig {
            cutting: Cutting::Ae {
                window: 4_096,
                max: 65_536,
            },
            rewrite: Rewrite::Har,
            segment: 4_194_304,
            cap: 16,
            threshold: 50,
            limit: 5,
            container: 4_194_304,
        }
    }
}

impl Fault {
    ghost use Rattle.vault_types.specs.Texts.{status_of};

    /// The exit status of a program that ends with this fault.
    pub fn status(&self) -> u8
        ensures { result ≡ status_of self.now }
    {
        match *self {
            Fault::Usage => 2,
            Fault::NotKept { .. } => 3,
            Fault::ReadFault(_) => 4,
            Fault::WriteFault(_) => 5,
            Fault::StoreFault(_) => 6,
            Fault::Damaged { .. } => 7,
            Fault::Memory => 8,
            Fault::TooMany { .. } => 9,
            Fault::LastVersion { .. } => 10,
            Fault::PlaceFault(_) => 11,
            Fault::BadLine(_) => 12,
            Fault::ScriptTooLong { .. } => 12,
            Fault::Full { .. } => 14,
        }
    }
}

/// Empty input has no chunk.
pub fn empty_has_no_chunk()
    ensures { (c : Cutting) → cuts [] c ≡ [] }
{}

/// Over a sound state and without a clash of fingerprints, the bytes of the version that a backup adds are those
/// of the stream.
pub fn backup_keeps_bytes()
    ensures { (S : State) (s : ℕ) (x : List ℕ) (config : JobConfig) → IsSound S → s < length S.datasets
        → NoClash (all_chunks S ++ cuts x config.cutting)
        → bytes_of (backup S s x config) s (latest_of S s + 1) ≡ x }
{}

/// A deletion leaves exactly the containers that are still named.
pub fn delete_keeps_named()
    ensures { (S : State) (s n : ℕ) → map id_of S.containers ≡ named S
        → map id_of (delete S s n).containers ≡ named (delete S s n) }
{}
