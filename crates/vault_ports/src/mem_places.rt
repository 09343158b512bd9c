// Places in memory.
ghost use Rattle.std.specs.Prelude.{◌≡◌, ◌↔◌, ◌^◌, ◌-◌, [], Some, None, IfOk, OnOk, OnErr, IsErrOf};
ghost use Rattle.std.specs.Option.{option_map};
ghost use Rattle.vault_traits.specs.Counts.{added, HasCause};
ghost use Rattle.vault_traits.specs.Files.{ChangesOnly, AreKept, IsReaderOf, IsNewWriter, IsEmptied, MayBeEmptied, IsWhatWasTaken, IsThere};
ghost use Rattle.vault_ports.specs.Failing.{counted_if, is_failed};
ghost use Rattle.vault_ports.specs.Places.{file_at, files_of, IsFiled};

use crate::files::Files;
use crate::sinks::MemSink;
use crate::sources::MemSource;
use std::alloc::Global;
use std::marker::Model;
use vault_traits::{Places, Refused, Sink, Source};
use vault_types::Memory;

/// Sources and sinks over names and their bytes in memory. An opening fails exactly where a source's name is not there.
#[derive(Drop)]
pub struct MemPlaces {
    files: Files,
    room: usize,
    faults: u64,
    read_faults: u64,
    write_faults: u64,
}

impl Model for MemPlaces {
    ghost use Rattle.vault_ports.specs.Places.{Placing, files_of};

    ghost Value = { Placing };

    ghost view = { λ p.
        record {
          files = files_of p.files.list.items;
          room = p.room;
          faults = p.faults;
          read_faults = p.read_faults;
          write_faults = p.write_faults;
        } };
}

impl MemPlaces {
    /// Places with these names and bytes, whose writers have room for so many bytes each. Where a name stands twice, the
    /// first counts.
    pub fn with(_alloc: Global, files: Vec<(String, Vec<u8>)>, room: usize) -> Result<Self, Memory>
        ensures { IfOk result
            (λ p.
            p
            ≡ record {
              files = files_of files.items;
              room = room;
              faults = 0;
              read_faults = 0;
              write_faults = 0;
            }) }
    {
        Ok(MemPlaces {
            files: Files { list: files },
            room,
            faults: 0,
            read_faults: 0,
            write_faults: 0,
        })
    }

    /// What is under a name.
    pub fn bytes(&self, name: &str) -> Option<&[u8]>
        ensures { option_map (λ b. b.now) result ≡ file_at self.now.files name.now }
    {
        self.files.bytes(name)
    }

    // Counts the faults of a reader that was given back.
    pub(crate) fn add_read_faults(&mut self, faults: u64)
        ensures { self.new ≡ record self.old { read_faults = added self.old.read_faults faults } }
    {
        self.read_faults = self.read_faults.saturating_add(faults);
    }

    // Counts the faults of a writer that was given back.
    pub(crate) fn add_write_faults(&mut self, faults: u64)
        ensures { self.new ≡ record self.old { write_faults = added self.old.write_faults faults } }
    {
        self.write_faults = self.write_faults.saturating_add(faults);
    }

    // Gives a name that is there these bytes.
    pub(crate) fn give(&mut self, name: &str, bytes: Vec<u8>)
        requires { IsThere (Some (file_at self.old.files)) name.now }
        ensures files { IsFiled self.old.files self.new.files name.now bytes.items }
        ensures others { self.new ≡ record self.old { files = self.new.files } }
    {
        self.files.give(name, bytes);
    }
}

impl Places for MemPlaces {
    type Reader = MemSource;

    type Writer = MemSink;

    ghost told = { λ p.
        record {
          files = Some (file_at p.files);
          faults = p.faults;
          read_faults = p.read_faults;
          write_faults = p.write_faults;
        } };

    ghost room = { None };

    fn open_source(&mut self, alloc: Global, name: &str) -> Result<MemSource, Refused>
        ensures reader { IfOk result (λ r. Some r.left ≡ file_at self.old.files name.now) }
        ensures piece { IfOk result (λ r. r.piece ≡ 2 ^ 64 - 1) }
        ensures kept { self.new ≡ record self.old { faults = self.new.faults } }
        ensures fails { IsErrOf result Refused.Failed ↔ (file_at self.old.files name.now ≡ None) }
        ensures counts { self.new.faults ≡ counted_if (is_failed result) self.old.faults }
    {
        let Some(bytes) = self.files.bytes(name) else {
            self.faults = self.faults.saturating_add(1);
            return Err(Refused::Failed);
        };
        Ok(MemSource::new(bytes.to_vec(alloc)?, usize::MAX))
    }

    fn close_source(&mut self, reader: MemSource)
        ensures { self.new ≡ self.old }
    {
        self.add_read_faults(reader.faults());
    }

    fn open_sink(&mut self, alloc: Global, name: &str) -> Result<MemSink, Refused>
        ensures writer { IfOk result (λ w. w ≡ record { taken = []; room = self.old.room; faults = 0 }) }
        ensures ok { OnOk result (IsFiled self.old.files self.new.files name.now []) }
        ensures err { OnErr result (self.new ≡ self.old) }
        ensures kept { self.new ≡ record self.old { files = self.new.files } }
        ensures memory { OnErr result (IsErrOf result Refused.Memory) }
    {
        let Ok(writer) = MemSink::with(alloc, self.room) else {
            return Err(Refused::Memory);
        };
        match self.files.empty(alloc, name) {
            Ok(()) => Ok(writer),
            Err(Memory) => Err(Refused::Memory),
        }
    }

    fn close_sink(&mut self, name: &str, writer: MemSink)
        requires { IsThere (Some (file_at self.old.files)) name.now }
        ensures files { IsFiled self.old.files self.new.files name.now writer.taken }
        ensures kept { self.new
            ≡ record self.old {
              files = self.new.files;
              write_faults = added self.old.write_faults writer.faults;
            } }
    {
        self.add_write_faults(writer.faults());
        self.give(name, writer.into_vec());
    }

    fn faults(&self) -> u64 {
        self.faults
    }

    fn read_faults(&self) -> u64 {
        self.read_faults
    }

    fn write_faults(&self) -> u64 {
        self.write_faults
    }
}
