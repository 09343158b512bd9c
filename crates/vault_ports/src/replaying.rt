// Carries entries out on a shelf in memory.
ghost use Rattle.std.specs.Prelude.{◌≡◌, ◌≤◌, ◌++◌, IfOk, OnOk, All, List, length, take, drop};
ghost use Rattle.vault_ports.specs.Record.{Write, applied, replayed, carried_out, writes_of, last_write, entry_write, IsWrite, AreSettled};

use crate::entries::Entry;
use crate::mem_shelf::MemShelf;
use std::alloc::Global;
use vault_traits::{Refused, Shelf};

// Carries out an entry.
fn apply(alloc: Global, shelf: &mut MemShelf, entry: &Entry) -> Result<(), Refused>
    ensures blobs { OnOk result (shelf.new.blobs ≡ applied shelf.old.blobs entry.now) }
    ensures gets { shelf.new.gets ≡ shelf.old.gets }
{
    match entry {
        Entry::Put(writing) => shelf.put(alloc, writing.name, &writing.bytes),
        Entry::Floor(set, bytes) => Ok(shelf.put_floor(*set, bytes)?),
        Entry::Remove(name) => Ok(shelf.remove(*name)?),
        Entry::Settle => Ok(()),
    }
}

// Carries out all entries.
pub fn replay(alloc: Global, shelf: &mut MemShelf, entries: &[Entry]) -> Result<(), Refused>
    ensures blobs { OnOk result (shelf.new.blobs ≡ replayed shelf.old.blobs entries.now) }
    ensures gets { shelf.new.gets ≡ shelf.old.gets }
{
    for entry in entries {
        apply(alloc, shelf, entry)?;
    }
    Ok(())
}

// Carries out the writes whose bits are 1, and answers the bits that are left.
pub fn choose(
    alloc: Global,
    shelf: &mut MemShelf,
    entries: &[Entry],
    taken: u64,
) -> Result<u64, Refused>
    requires { All IsWrite entries.now }
    ensures blobs { IfOk result (λ rest. (more : List Write)
        → carried_out shelf.old.blobs (writes_of entries.now ++ more) taken
        ≡ carried_out shelf.new.blobs more rest) }
    ensures gets { shelf.new.gets ≡ shelf.old.gets }
{
    let mut rest = taken;
    for entry in entries {
        if rest % 2 == 1 {
            apply(alloc, shelf, entry)?;
        }
        rest /= 2;
    }
    Ok(rest)
}

// The same of the write at the stop.
pub fn choose_last(
    alloc: Global,
    shelf: &mut MemShelf,
    last: &Option<Entry>,
    rest: u64,
) -> Result<(), Refused>
    ensures blobs { OnOk result
        (shelf.new.blobs ≡ carried_out shelf.old.blobs (last_write (entry_write last.now)) rest) }
    ensures gets { shelf.new.gets ≡ shelf.old.gets }
{
    match last {
        None => Ok(()),
        Some(entry) => {
            if rest % 2 == 1 {
                apply(alloc, shelf, entry)?;
            }
            Ok(())
        }
    }
}

// How many entries there are up to the last settle.
pub fn settled_len(entries: &[Entry]) -> usize
    ensures within { result ≤ length entries.now }
    ensures writes { All IsWrite (drop result entries.now) }
    ensures settled { AreSettled (take result entries.now) }
{
    let mut settled = 0;
    for (i, entry) in entries.iter().enumerate() {
        if let Entry::Settle = entry {
            settled = i + 1;
        }
    }
    settled
}
