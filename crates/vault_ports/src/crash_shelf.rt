// A shelf in memory that fails from one call on, and tells what a crash may leave.
ghost use Rattle.std.specs.Prelude.{◌≡◌, ◌≢◌, ◌≤◌, ◌<◌, ◌++◌, ◌∷◌, ◌↔◌, ◌⊎◌, [], Some, None, IfOk, OnOk, OnErr, IsErr, IsErrOf, IsTrue, is_err, length, vec_len, vec_capacity};
ghost use Rattle.std.specs.Option.{option_map};
ghost use Rattle.std.specs.FinMap as map;
ghost use Rattle.vault_types.specs.Shelf.{Blobs, floor_name};
ghost use Rattle.vault_traits.specs.Counts.{counted, HasCause, HasFailed};
ghost use Rattle.vault_traits.specs.Crash.{Wrote, IsImage};
ghost use Rattle.vault_traits.specs.Shelf.{gets_after, history_settled, IsWritten, MayBeWritten, IsAsBefore, IsListing};
ghost use Rattle.vault_ports.specs.Failing.{is_failed};
ghost use Rattle.vault_ports.specs.Record.{room, entry_write, entry_step, reading, history_of, image_of, IsCounted, IsWriteRefused};

use crate::entries::{Entry, Writing};
use crate::mem_shelf::{MemShelf, count_get};
use crate::replaying::{choose, choose_last, replay, settled_len};
use std::alloc::Global;
use std::marker::Model;
use vault_traits::{Failed, Refused, Shelf};
use vault_types::{Kind, Memory, Name, Set};

// What becomes of a writing call or a settle: it is done, it is the one at which the shelf stops, or it is refused.
#[derive(Clone, Copy)]
enum Turn {
    Goes,
    Stops,
    Refused,
}

const ROOM: usize = 1024;

/// A shelf in memory whose calls fail from one on. It tells what a crash may leave.
#[derive(Drop)]
pub struct CrashShelf {
    start: MemShelf,
    current: MemShelf,
    entries: Vec<Entry>,
    last: Option<Entry>,
    stop: u64,
    calls: u64,
    faults: u64,
    gets: u64,
}

impl Model for CrashShelf {
    ghost use Rattle.std.specs.Prelude.{◌≡◌, ◌≤◌, [], IsSome, vec_capacity};
    ghost use Rattle.vault_ports.specs.Record.{Record, coded_record, reading, steps_after, entry_write};

    ghost Value = { Record };

    ghost coded = { coded_record };

    ghost view = { λ s.
        record {
          base = s.start.blobs;
          steps = steps_after s.start.blobs [] s.entries.items;
          last = entry_write s.last;
          stop = s.stop;
          calls = s.calls;
          faults = s.faults;
          gets = s.gets;
        } };

    ghost invariant = { λ s.
        (s.current.blobs ≡ reading s.start.blobs (steps_after s.start.blobs [] s.entries.items))
        × (IsSome s.last → s.stop ≤ s.calls) × (1024 ≤ vec_capacity s.entries) × (s.start.gets ≡ 0) };
}

fn keep_entry(entries: &mut Vec<Entry>, entry: Entry)
    requires { vec_len entries.old < vec_capacity entries.old }
    ensures items { entries.new.items ≡ entries.old.items ++ entry ∷ [] }
    ensures capacity { vec_capacity entries.old ≤ vec_capacity entries.new }
{
    match entries.push(entry) {
        Ok(()) => {}
        Err(_) => unreachable!(),
    }
}

impl CrashShelf {
    /// As `inner`, but the call numbered `stop` and each later one fails and leaves the old content, counted from 1 over
    /// all six kinds. It has room for a record of 1,024 writing calls and settles; one that finds no room fails.
    pub fn new(alloc: Global, inner: MemShelf, stop: u64) -> Result<Self, Memory>
        ensures { IfOk result
            (λ s.
            s
            ≡ record {
              base = inner.blobs;
              steps = [];
              last = None;
              stop = stop;
              calls = 0;
              faults = 0;
              gets = 0;
            }) }
    {
        let start = inner.copy()?;
        Ok(CrashShelf {
            start,
            current: inner,
            entries: Vec::with_capacity(alloc, ROOM)?,
            last: None,
            stop,
            calls: 0,
            faults: 0,
            gets: 0,
        })
    }

    /// The shelf after a crash. It begins as the last settle that succeeded left it. Of the writing calls in the record
    /// since then, the one at which the shelf stopped among them, the first is carried out where bit 0 of `taken` is 1,
    /// the next where bit 1 is, and so on; past the 64th none is.
    pub fn image(self, alloc: Global, taken: u64) -> Result<MemShelf, Memory>
        ensures exact { IfOk result (λ m. m.blobs ≡ image_of (history_of self) taken) }
        ensures image { IfOk result (λ m. IsImage (history_of self) m.blobs) }
        ensures gets { IfOk result (λ m. m.gets ≡ 0) }
    {
        let CrashShelf {
            start,
            entries,
            last,
            ..
        } = self;
        let mut shelf = start;
        let settled = settled_len(&entries);
        let Ok(()) = replay(alloc, &mut shelf, &entries[..settled]) else {
            return Err(Memory);
        };
        let Ok(rest) = choose(alloc, &mut shelf, &entries[settled..], taken) else {
            return Err(Memory);
        };
        let Ok(()) = choose_last(alloc, &mut shelf, &last, rest) else {
            return Err(Memory);
        };
        Ok(shelf)
    }

    /// The shelf with what is read now.
    pub fn into_inner(self) -> MemShelf
        ensures { result.blobs ≡ reading self.base self.steps }
    {
        let CrashShelf { current, .. } = self;
        current
    }

    /// How many gets of a payload there were.
    pub fn payload_gets(&self) -> u64
        ensures { result ≡ self.now.gets }
    {
        self.gets
    }

    // Counts a call, and tells whether it fails.
    fn is_over(&mut self) -> bool
        ensures over { IsTrue result ↔ (self.old.stop ≤ counted self.old.calls) }
        ensures calls { self.new ≡ record self.old { calls = counted self.old.calls } }
    {
        self.calls = self.calls.saturating_add(1);
        self.stop <= self.calls
    }

    // Counts a writing call or a settle, and tells what becomes of it.
    fn begin(&mut self) -> Turn
        ensures calls { self.new ≡ record self.old { calls = counted self.old.calls } }
        ensures goes { result ≡ Turn.Goes
            → (counted self.old.calls < self.old.stop) × (length self.old.steps < room)
            × (self.old.last ≡ None) }
        ensures stops { result ≡ Turn.Stops
            → (self.old.calls < self.old.stop) × (self.old.stop ≤ counted self.old.calls)
            × (length self.old.steps < room) × (self.old.last ≡ None) }
        ensures refused { result ≡ Turn.Refused
            → (self.old.stop ≤ self.old.calls) ⊎ (room ≤ length self.old.steps) }
    {
        let fits = self.has_room();
        let before = self.calls;
        self.calls = before.saturating_add(1);
        if !fits {
            return Turn::Refused;
        }
        if self.stop <= before {
            return Turn::Refused;
        }
        if self.stop <= self.calls {
            return Turn::Stops;
        }
        Turn::Goes
    }

    // Whether one more step has room.
    fn has_room(&self) -> bool
        ensures { IsTrue result ↔ (length self.now.steps < room) }
    {
        self.entries.len() < ROOM
    }

    // Counts a call that failed.
    fn count_fault(&mut self)
        ensures { self.new ≡ record self.old { faults = counted self.old.faults } }
    {
        self.faults = self.faults.saturating_add(1);
    }

    // Keeps the write at which it stops.
    fn stop_at(&mut self, entry: Entry)
        requires { self.old.stop ≤ self.old.calls }
        ensures { self.new ≡ record self.old { last = entry_write (Some entry) } }
    {
        self.last = Some(entry);
    }
}

// The entry of a put.
fn put_entry(alloc: Global, name: Name, bytes: &[u8]) -> Result<Entry, Refused>
    requires { name.kind ≢ Kind.Floor }
    ensures write { IfOk result (λ e. entry_write (Some e) ≡ Some (name, Some bytes.now)) }
    ensures step { IfOk result (λ e. (m : Blobs) → entry_step m e ≡ Wrote name (Some bytes.now)) }
    ensures memory { OnErr result (IsErrOf result Refused.Memory) }
{
    Ok(Entry::Put(Writing {
        name,
        bytes: bytes.to_vec(alloc)?,
    }))
}

impl Shelf for CrashShelf {
    ghost use Rattle.vault_ports.specs.Record.{told_image};

    ghost told = { λ s.
        record {
          blobs = Some (reading s.base s.steps);
          history = Some (history_of s);
          faults = s.faults;
          gets = s.gets;
        } };

    fn get(&mut self, alloc: Global, name: Name) -> Result<Option<Vec<u8>>, Refused>
        ensures found { IfOk result
            (λ found. option_map (λ v. v.items) found ≡ map.get (reading self.old.base self.old.steps) name) }
        ensures steps { self.new.steps ≡ self.old.steps }
        ensures last { self.new.last ≡ self.old.last }
        ensures gets { self.new.gets ≡ gets_after name.kind self.old.gets }
        ensures cause { HasCause self.old.faults self.new.faults result }
        ensures fails { IsErrOf result Refused.Failed ↔ (self.old.stop ≤ counted self.old.calls) }
        ensures counts { IsCounted self.old self.new (is_failed result) }
    {
        self.gets = count_get(self.gets, name.kind);
        if self.is_over() {
            self.count_fault();
            return Err(Refused::Failed);
        }
        self.current.get(alloc, name)
    }

    /// A put that answers want of memory is not in the record.
    fn put(&mut self, alloc: Global, name: Name, bytes: &[u8]) -> Result<(), Refused>
        requires { name.kind ≢ Kind.Floor }
        ensures ok { OnOk result
            (IsWritten (Some (reading self.old.base self.old.steps))
            (Some (reading self.new.base self.new.steps)) (Some (history_of self.old))
            (Some (history_of self.new)) name (Some bytes.now)) }
        ensures at_most { MayBeWritten (Some (reading self.old.base self.old.steps))
            (Some (reading self.new.base self.new.steps)) (Some (history_of self.old))
            (Some (history_of self.new)) name (Some bytes.now) }
        ensures failed { IsErrOf result Refused.Failed
            → IsWriteRefused self.old self.new name (Some bytes.now) }
        ensures memory { IsErrOf result Refused.Memory
            → (self.new.steps ≡ self.old.steps) × (self.new.last ≡ self.old.last) }
        ensures gets { self.new.gets ≡ self.old.gets }
        ensures cause { HasCause self.old.faults self.new.faults result }
        ensures fails { IsErrOf result Refused.Failed
            → (self.old.stop ≤ counted self.old.calls) ⊎ (room ≤ length self.old.steps) }
        ensures must { (self.old.stop ≤ counted self.old.calls) ⊎ (room ≤ length self.old.steps)
            → IsErr result }
        ensures counts { IsCounted self.old self.new (is_failed result) }
    {
        match self.begin() {
            Turn::Goes => {}
            Turn::Stops => {
                let entry = put_entry(alloc, name, bytes)?;
                self.stop_at(entry);
                self.count_fault();
                return Err(Refused::Failed);
            }
            Turn::Refused => {
                self.count_fault();
                return Err(Refused::Failed);
            }
        }
        let entry = put_entry(alloc, name, bytes)?;
        self.current.put(alloc, name, bytes)?;
        keep_entry(&mut self.entries, entry);
        Ok(())
    }

    fn put_floor(&mut self, set: Set, bytes: &[u8; 28]) -> Result<(), Failed>
        ensures ok { OnOk result
            (IsWritten (Some (reading self.old.base self.old.steps))
            (Some (reading self.new.base self.new.steps)) (Some (history_of self.old))
            (Some (history_of self.new)) (floor_name set) (Some bytes.now)) }
        ensures at_most { MayBeWritten (Some (reading self.old.base self.old.steps))
            (Some (reading self.new.base self.new.steps)) (Some (history_of self.old))
            (Some (history_of self.new)) (floor_name set) (Some bytes.now) }
        ensures failed { OnErr result (IsWriteRefused self.old self.new (floor_name set) (Some bytes.now)) }
        ensures gets { self.new.gets ≡ self.old.gets }
        ensures cause { HasFailed self.old.faults self.new.faults result }
        ensures fails { IsErr result
            ↔ ((self.old.stop ≤ counted self.old.calls) ⊎ (room ≤ length self.old.steps)) }
        ensures counts { IsCounted self.old self.new (is_err result) }
    {
        match self.begin() {
            Turn::Goes => {}
            Turn::Stops => {
                self.stop_at(Entry::Floor(set, *bytes));
                self.count_fault();
                return Err(Failed);
            }
            Turn::Refused => {
                self.count_fault();
                return Err(Failed);
            }
        }
        self.current.put_floor(set, bytes)?;
        keep_entry(&mut self.entries, Entry::Floor(set, *bytes));
        Ok(())
    }

    fn remove(&mut self, name: Name) -> Result<(), Failed>
        ensures ok { OnOk result
            (IsWritten (Some (reading self.old.base self.old.steps))
            (Some (reading self.new.base self.new.steps)) (Some (history_of self.old))
            (Some (history_of self.new)) name None) }
        ensures at_most { MayBeWritten (Some (reading self.old.base self.old.steps))
            (Some (reading self.new.base self.new.steps)) (Some (history_of self.old))
            (Some (history_of self.new)) name None }
        ensures failed { OnErr result (IsWriteRefused self.old self.new name None) }
        ensures gets { self.new.gets ≡ self.old.gets }
        ensures cause { HasFailed self.old.faults self.new.faults result }
        ensures fails { IsErr result
            ↔ ((self.old.stop ≤ counted self.old.calls) ⊎ (room ≤ length self.old.steps)) }
        ensures counts { IsCounted self.old self.new (is_err result) }
    {
        match self.begin() {
            Turn::Goes => {}
            Turn::Stops => {
                self.stop_at(Entry::Remove(name));
                self.count_fault();
                return Err(Failed);
            }
            Turn::Refused => {
                self.count_fault();
                return Err(Failed);
            }
        }
        self.current.remove(name)?;
        keep_entry(&mut self.entries, Entry::Remove(name));
        Ok(())
    }

    fn list(&mut self, alloc: Global) -> Result<Vec<Name>, Refused>
        ensures names { IfOk result (λ names. IsListing (reading self.old.base self.old.steps) names.items) }
        ensures steps { self.new.steps ≡ self.old.steps }
        ensures last { self.new.last ≡ self.old.last }
        ensures gets { self.new.gets ≡ self.old.gets }
        ensures cause { HasCause self.old.faults self.new.faults result }
        ensures fails { IsErrOf result Refused.Failed ↔ (self.old.stop ≤ counted self.old.calls) }
        ensures counts { IsCounted self.old self.new (is_failed result) }
    {
        if self.is_over() {
            self.count_fault();
            return Err(Refused::Failed);
        }
        self.current.list(alloc)
    }

    fn settle(&mut self) -> Result<(), Failed>
        ensures ok { OnOk result
            (Some (history_of self.new)
            ≡ history_settled (Some (reading self.old.base self.old.steps))
            (Some (history_of self.old))) }
        ensures blobs { reading self.new.base self.new.steps ≡ reading self.old.base self.old.steps }
        ensures failed { OnErr result ((self.new.steps ≡ self.old.steps) × (self.new.last ≡ self.old.last)) }
        ensures gets { self.new.gets ≡ self.old.gets }
        ensures cause { HasFailed self.old.faults self.new.faults result }
        ensures fails { IsErr result
            ↔ ((self.old.stop ≤ counted self.old.calls) ⊎ (room ≤ length self.old.steps)) }
        ensures counts { IsCounted self.old self.new (is_err result) }
    {
        match self.begin() {
            Turn::Goes => {}
            _ => {
                self.count_fault();
                return Err(Failed);
            }
        }
        keep_entry(&mut self.entries, Entry::Settle);
        Ok(())
    }

    fn faults(&self) -> u64 {
        self.faults
    }

    ghost reads_an_image = { told_image };
}
