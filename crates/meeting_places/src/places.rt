// Places of which a read and a write meet.
ghost use Rattle.std.specs.Prelude.{◌≡◌, ◌↔◌, [], Some, None, IfOk, OnOk, OnErr, IsErrOf};
ghost use Rattle.std.specs.Option.{option_map};
ghost use Rattle.vault_traits.specs.Counts.{added};
ghost use Rattle.vault_traits.specs.Files.{IsThere};
ghost use Rattle.vault_ports.specs.Failing.{counted_if, is_failed};
ghost use Rattle.vault_ports.specs.Places.{file_at, IsFiled};

use crate::readers::MeetingSource;
use crate::writers::MeetingSink;
use std::alloc::Global;
use std::marker::Model;
use vault_gates::{Gate, gates};
use vault_ports::MemPlaces;
use vault_traits::{Places, Refused, Sink, Source};
use vault_types::Memory;

/// As `MemPlaces`, but the first read of the first reader that it opens, and a write of the first writer, wait for each
/// other.
#[derive(Drop)]
pub struct MeetingPlaces {
    inner: MemPlaces,
    read: Option<Gate>,
    write: Option<Gate>,
    before: u64,
    faults: u64,
    read_faults: u64,
    write_faults: u64,
}

impl Model for MeetingPlaces {
    ghost use Rattle.vault_ports.specs.Places.{Placing};

    ghost Value = { Placing };

    ghost view = { λ p.
        record {
          files = p.inner.files;
          room = p.inner.room;
          faults = p.faults;
          read_faults = p.read_faults;
          write_faults = p.write_faults;
        } };
}

impl MeetingPlaces {
    /// As `inner`, with no faults so far. The read waits for the write of the first writer that comes behind so many, and
    /// that write for the read.
    pub fn new(alloc: Global, inner: MemPlaces, before: u64) -> Result<Self, Memory>
        ensures { IfOk result (λ p. p ≡ record inner { faults = 0; read_faults = 0; write_faults = 0 }) }
    {
        let (read, write) = gates(alloc)?;
        Ok(MeetingPlaces {
            inner,
            read: Some(read),
            write: Some(write),
            before,
            faults: 0,
            read_faults: 0,
            write_faults: 0,
        })
    }

    /// What is under a name.
    pub fn bytes(&self, name: &str) -> Option<&[u8]>
        ensures { option_map (λ b. b.now) result ≡ file_at self.now.files name.now }
    {
        self.inner.bytes(name)
    }
}

impl Places for MeetingPlaces {
    type Reader = MeetingSource;

    type Writer = MeetingSink;

    ghost told = { λ p.
        record {
          files = Some (file_at p.files);
          faults = p.faults;
          read_faults = p.read_faults;
          write_faults = p.write_faults;
        } };

    ghost room = { None };

    fn open_source(&mut self, alloc: Global, name: &str) -> Result<MeetingSource, Refused>
        ensures reader { IfOk result (λ r. Some r.left ≡ file_at self.old.files name.now) }
        ensures fresh { IfOk result (λ r. r.faults ≡ 0) }
        ensures kept { self.new ≡ record self.old { faults = self.new.faults } }
        ensures fails { IsErrOf result Refused.Failed ↔ (file_at self.old.files name.now ≡ None) }
        ensures counts { self.new.faults ≡ counted_if (is_failed result) self.old.faults }
    {
        match self.inner.open_source(alloc, name) {
            Ok(reader) => Ok(MeetingSource::new(reader, self.read.take())),
            Err(Refused::Failed) => {
                self.faults = self.faults.saturating_add(1);
                Err(Refused::Failed)
            }
            Err(Refused::Memory) => Err(Refused::Memory),
        }
    }

    fn close_source(&mut self, reader: MeetingSource)
        ensures { self.new ≡ record self.old { read_faults = added self.old.read_faults reader.faults } }
    {
        self.read_faults = self.read_faults.saturating_add(reader.faults());
    }

    fn open_sink(&mut self, alloc: Global, name: &str) -> Result<MeetingSink, Refused>
        ensures writer { IfOk result (λ w. w ≡ record { taken = []; room = self.old.room; faults = 0 }) }
        ensures ok { OnOk result (IsFiled self.old.files self.new.files name.now []) }
        ensures err { OnErr result (self.new ≡ self.old) }
        ensures kept { self.new ≡ record self.old { files = self.new.files } }
        ensures memory { OnErr result (IsErrOf result Refused.Memory) }
    {
        let plain = self.inner.open_sink(alloc, name)?;
        Ok(MeetingSink::new(plain, self.write.take(), self.before))
    }

    fn close_sink(&mut self, name: &str, writer: MeetingSink)
        requires { IsThere (Some (file_at self.old.files)) name.now }
        ensures files { IsFiled self.old.files self.new.files name.now writer.taken }
        ensures kept { self.new
            ≡ record self.old {
              files = self.new.files;
              write_faults = added self.old.write_faults writer.faults;
            } }
    {
        self.write_faults = self.write_faults.saturating_add(writer.faults());
        self.inner.close_sink(name, writer.into_inner());
    }

    fn faults(&self) -> u64 {
        self.faults
    }

    fn read_faults(&self) -> u64 {
        self.read_faults
    }

    fn write_faults(&self) -> u64 {
        self.write_faults
    }
}
