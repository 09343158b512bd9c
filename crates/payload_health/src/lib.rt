//! Whether the payload of a container is what its table says: a verdict that goes on to each chunk, and what a check of
//! many containers finds.
#![tactic(auto)]

ghost use Rattle.std.specs.Prelude.{◌≡◌, ◌<◌, ◌+◌, ◌-◌, ◌^◌, ◌∷◌, ◌++◌, [], ℕ, List, Option, length, option_map, OnOk};
ghost use Rattle.vault_types.specs.declared.Table.{Table as Tables};
ghost use Rattle.vault_types.specs.Tables.{Container, IsTable, payload_len};
ghost use Rattle.payload_health.specs.Health.{health_of, first_bad, is_good, IsGoodWhereWhole};
ghost use Rattle.payload_health.specs.Findings.{findings_in};

use fingerprint_stage::sum;
use std::alloc::Global;
use vault_types::list::ListOf;
use vault_types::{Fp, Id, Memory, Table, TableRow};

/// How a container's payload is: good; not there; of another length than its table says; of another SHA-1; or with a chunk,
/// that of a row of the table counted from 0, that has another SHA-1 than the row's fingerprint. Lengths are in bytes.
#[derive(Clone, Copy, Debug, PartialEq, Eq)]
pub enum Health {
    Good,
    Absent,
    Length { want: u64, found: u64 },
    Sum { want: Fp, found: Fp },
    Chunk { row: u32, want: Fp, found: Fp },
}

/// A container that is not good.
#[derive(Clone, Copy, Debug, PartialEq, Eq)]
pub struct Bad {
    pub id: Id,
    pub health: Health,
}

/// What a check of containers finds: how many there are, and those that are not good, ids ascending.
#[derive(Drop)]
pub struct Findings {
    pub containers: u64,
    pub damaged: ListOf<Bad>,
}

impl Health {
    /// Whether it is `Good`.
    pub fn is_good(&self) -> bool
        ensures { result ≡ is_good self.now }
    {
        match *self {
            Health::Good => true,
            _ => false,
        }
    }
}

impl Findings {
    /// What is found of no container.
    pub fn new(alloc: Global) -> Findings
        ensures { result ≡ findings_in [] }
    {
        Findings {
            containers: 0,
            damaged: ListOf::from_vec(Vec::new(alloc)),
        }
    }

    /// Adds the next container, with its health. The only error is `Memory`.
    pub fn add(&mut self, id: Id, health: Health) -> Result<(), Memory>
        requires { self.old.containers < 2 ^ 64 - 1 }
        ensures count { OnOk result (self.new.containers ≡ self.old.containers + 1) }
        ensures found { OnOk result ((cs : List Container) (c : Container) → self.old ≡ findings_in cs
            → c.table.id ≡ id → health_of c.table c.payload ≡ health
            → self.new ≡ findings_in (cs ++ c ∷ [])) }
    {
        if !health.is_good() {
            self.damaged.push(Bad { id, health })?;
        }
        self.containers += 1;
        Ok(())
    }
}

// How many bytes the payload of these rows has.
fn payload_len(rows: &[TableRow]) -> u64
    requires { payload_len rows.now < 2 ^ 64 }
    ensures { result ≡ payload_len rows.now }
{
    rows.iter().map(|row| u64::from(row.len)).sum()
}

// How a payload is by its chunks alone, where it has the length that the rows say.
fn chunk_health(rows: &[TableRow], payload: &[u8]) -> Health
    requires few { length rows.now < 2 ^ 32 }
    requires len { length payload.now ≡ payload_len rows.now }
    ensures { result ≡ first_bad 0 rows.now payload.now }
{
    let mut rest = payload;
    let mut number = 0u32;
    for row in rows {
        let (chunk, behind) = rest.split_at(row.len as usize);
        let found = sum(chunk);
        if found != row.fp {
            return Health::Chunk {
                row: number,
                want: row.fp,
                found,
            };
        }
        rest = behind;
        number += 1;
    }
    Health::Good
}

/// How the payload of a container is, by its table, where the shelf has one: the first of absent, another length, another
/// SHA-1, and the first chunk with another SHA-1 that applies, and else good. It takes no memory.
pub fn verdict(table: &Table, payload: Option<&[u8]>) -> Health
    requires { IsTable table.now }
    ensures { result ≡ health_of table.now (option_map (λ bytes. bytes.now) payload.entry) }
{
    let Some(bytes) = payload else {
        return Health::Absent;
    };
    let rows = table.rows.as_slice();
    let want = payload_len(rows);
    let found = bytes.len() as u64;
    if found != want {
        return Health::Length { want, found };
    }
    let found = sum(bytes);
    if found != table.payload_sum {
        return Health::Sum {
            want: table.payload_sum,
            found,
        };
    }
    chunk_health(rows, bytes)
}

/// A payload is good exactly where it is there and is whole: the chunks of its table one after the other, with the table's
/// sum.
pub fn good_is_whole()
    ensures { (t : Tables) (payload : Option (List ℕ)) → IsGoodWhereWhole t payload }
{}
