// Places in memory whose first reader and first writer fail at numbered calls.
ghost use Rattle.std.specs.Prelude.{◌≡◌, ◌<◌, ◌↔◌, [], Some, None, IfOk, OnOk, OnErr, IsErrOf};
ghost use Rattle.std.specs.Option.{option_map};
ghost use Rattle.vault_traits.specs.Counts.{added};
ghost use Rattle.vault_traits.specs.Files.{IsThere};
ghost use Rattle.vault_ports.specs.Failing.{counted_if, is_failed};
ghost use Rattle.vault_ports.specs.Places.{file_at, files_of, reader_of, writer_of, unless_taken, IsFiled};

use crate::mem_places::MemPlaces;
use crate::sinks::FaultSink;
use crate::sources::FaultSource;
use std::alloc::Global;
use std::marker::Model;
use vault_traits::{Places, Refused, Sink, Source};
use vault_types::Memory;

/// As `MemPlaces`, but the first reader that it opens and the first writer fail at calls of given numbers.
#[derive(Drop)]
pub struct FaultPlaces {
    inner: MemPlaces,
    piece: usize,
    reads: Option<Vec<u64>>,
    writes: Option<Vec<u64>>,
}

impl Model for FaultPlaces {
    ghost use Rattle.std.specs.Prelude.{◌≤◌};
    ghost use Rattle.std.specs.Option.{option_map};
    ghost use Rattle.vault_ports.specs.Places.{FaultyPlacing};

    ghost Value = { FaultyPlacing };

    ghost view = { λ p.
        record {
          places = p.inner;
          piece = p.piece;
          reads = option_map (λ v. v.items) p.reads;
          writes = option_map (λ v. v.items) p.writes;
        } };

    ghost invariant = { λ p. 1 ≤ p.piece };
}

impl FaultPlaces {
    /// Places with these names and bytes, whose writers have room for so many bytes each. Of the first reader a read
    /// gives at most `piece` bytes, which is at least 1, and the numbered reads fail, counted from 1; of the first writer the
    /// numbered writes fail. All others are those of `MemPlaces`. Where a name stands twice, the first counts.
    pub fn with(
        alloc: Global,
        files: Vec<(String, Vec<u8>)>,
        room: usize,
        piece: usize,
        reads: Vec<u64>,
        writes: Vec<u64>,
    ) -> Result<Self, Memory>
        requires { 0 < piece }
        ensures places { IfOk result
            (λ p.
            p.places
            ≡ record {
              files = files_of files.items;
              room = room;
              faults = 0;
              read_faults = 0;
              write_faults = 0;
            }) }
        ensures piece { IfOk result (λ p. p.piece ≡ piece) }
        ensures reads { IfOk result (λ p. p.reads ≡ Some reads.items) }
        ensures writes { IfOk result (λ p. p.writes ≡ Some writes.items) }
    {
        Ok(FaultPlaces {
            inner: MemPlaces::with(alloc, files, room)?,
            piece,
            reads: Some(reads),
            writes: Some(writes),
        })
    }

    /// What is under a name.
    pub fn bytes(&self, name: &str) -> Option<&[u8]>
        ensures { option_map (λ b. b.now) result ≡ file_at self.now.places.files name.now }
    {
        self.inner.bytes(name)
    }
}

impl Places for FaultPlaces {
    type Reader = FaultSource;

    type Writer = FaultSink;

    ghost told = { λ p.
        record {
          files = Some (file_at p.places.files);
          faults = p.places.faults;
          read_faults = p.places.read_faults;
          write_faults = p.places.write_faults;
        } };

    ghost room = { None };

    fn open_source(&mut self, alloc: Global, name: &str) -> Result<FaultSource, Refused>
        ensures bytes { IfOk result (λ r. Some r.left ≡ file_at self.old.places.files name.now) }
        ensures reader { IfOk result (λ r. r ≡ reader_of r.left self.old.piece self.old.reads) }
        ensures reads { self.new.reads ≡ unless_taken result self.old.reads }
        ensures kept { self.new
            ≡ record self.old {
              places = record self.old.places { faults = self.new.places.faults };
              reads = self.new.reads;
            } }
        ensures fails { IsErrOf result Refused.Failed ↔ (file_at self.old.places.files name.now ≡ None) }
        ensures counts { self.new.places.faults ≡ counted_if (is_failed result) self.old.places.faults }
    {
        let plain = self.inner.open_source(alloc, name)?;
        match self.reads.take() {
            Some(fail) => Ok(FaultSource::new(plain.with_piece(self.piece), fail)),
            None => Ok(FaultSource::new(plain, Vec::new(alloc))),
        }
    }

    fn close_source(&mut self, reader: FaultSource)
        ensures { self.new
            ≡ record self.old {
              places = record self.old.places {
                read_faults = added
                    self.old.places.read_faults reader.faults;
              };
            } }
    {
        self.inner.add_read_faults(reader.faults());
    }

    fn open_sink(&mut self, alloc: Global, name: &str) -> Result<FaultSink, Refused>
        ensures writer { IfOk result (λ w. w ≡ writer_of self.old.places.room self.old.writes) }
        ensures ok { OnOk result (IsFiled self.old.places.files self.new.places.files name.now []) }
        ensures err { OnErr result (self.new ≡ self.old) }
        ensures writes { self.new.writes ≡ unless_taken result self.old.writes }
        ensures kept { self.new
            ≡ record self.old {
              places = record self.old.places { files = self.new.places.files };
              writes = self.new.writes;
            } }
        ensures memory { OnErr result (IsErrOf result Refused.Memory) }
    {
        let plain = self.inner.open_sink(alloc, name)?;
        match self.writes.take() {
            Some(fail) => Ok(FaultSink::new(plain, fail)),
            None => Ok(FaultSink::new(plain, Vec::new(alloc))),
        }
    }

    fn close_sink(&mut self, name: &str, writer: FaultSink)
        requires { IsThere (Some (file_at self.old.places.files)) name.now }
        ensures files { IsFiled self.old.places.files self.new.places.files name.now writer.taken }
        ensures kept { self.new
            ≡ record self.old {
              places = record self.old.places {
                files = self.new.places.files;
                write_faults = added self.old.places.write_faults writer.faults;
              };
            } }
    {
        self.inner.add_write_faults(writer.faults());
        self.inner.give(name, writer.into_vec());
    }

    fn faults(&self) -> u64 {
        self.inner.faults()
    }

    fn read_faults(&self) -> u64 {
        self.inner.read_faults()
    }

    fn write_faults(&self) -> u64 {
        self.inner.write_faults()
    }
}
