// Places in memory with a gate.
ghost use Rattle.std.specs.Prelude.{◌≡◌, ◌↔◌, ◌^◌, ◌-◌, [], Some, None, true, IfOk, OnOk, OnErr, IsErrOf};
ghost use Rattle.std.specs.Option.{option_map};
ghost use Rattle.vault_traits.specs.Counts.{added};
ghost use Rattle.vault_traits.specs.Files.{IsThere};
ghost use Rattle.vault_ports.specs.Failing.{counted_if, is_failed};
ghost use Rattle.vault_ports.specs.Places.{file_at, IsFiled};
ghost use Rattle.vault_gates.specs.Places.{unless_opened};

use crate::gate::Gate;
use crate::sinks::GateSink;
use std::alloc::Global;
use std::marker::Model;
use vault_ports::{MemPlaces, MemSource};
use vault_traits::{Places, Refused, Sink, Source};

/// As `MemPlaces`, but a gate guards the first write of the first writer that it opens.
#[derive(Drop)]
pub struct GatePlaces {
    inner: MemPlaces,
    gate: Option<Gate>,
    faults: u64,
    read_faults: u64,
    write_faults: u64,
}

impl Model for GatePlaces {
    ghost use Rattle.std.specs.Prelude.{is_some};
    ghost use Rattle.vault_gates.specs.Places.{GatedPlacing};

    ghost Value = { GatedPlacing };

    ghost view = { λ p.
        record {
          places = record {
            files = p.inner.files;
            room = p.inner.room;
            faults = p.faults;
            read_faults = p.read_faults;
            write_faults = p.write_faults;
          };
          gated = is_some p.gate;
        } };
}

impl GatePlaces {
    /// As `inner`, with no faults so far. The gate goes to the first writer that is opened. It takes no memory.
    pub fn new(inner: MemPlaces, gate: Gate) -> Self
        ensures places { result.places ≡ record inner { faults = 0; read_faults = 0; write_faults = 0 } }
        ensures gated { result.gated ≡ true }
    {
        GatePlaces {
            inner,
            gate: Some(gate),
            faults: 0,
            read_faults: 0,
            write_faults: 0,
        }
    }

    /// What is under a name.
    pub fn bytes(&self, name: &str) -> Option<&[u8]>
        ensures { option_map (λ b. b.now) result ≡ file_at self.now.places.files name.now }
    {
        self.inner.bytes(name)
    }
}

impl Places for GatePlaces {
    type Reader = MemSource;

    type Writer = GateSink;

    ghost told = { λ p.
        record {
          files = Some (file_at p.places.files);
          faults = p.places.faults;
          read_faults = p.places.read_faults;
          write_faults = p.places.write_faults;
        } };

    ghost room = { None };

    fn open_source(&mut self, alloc: Global, name: &str) -> Result<MemSource, Refused>
        ensures reader { IfOk result (λ r. Some r.left ≡ file_at self.old.places.files name.now) }
        ensures piece { IfOk result (λ r. r.piece ≡ 2 ^ 64 - 1) }
        ensures kept { self.new
            ≡ record self.old { places = record self.old.places { faults = self.new.places.faults } } }
        ensures fails { IsErrOf result Refused.Failed ↔ (file_at self.old.places.files name.now ≡ None) }
        ensures counts { self.new.places.faults ≡ counted_if (is_failed result) self.old.places.faults }
    {
        match self.inner.open_source(alloc, name) {
            Ok(reader) => Ok(reader),
            Err(Refused::Failed) => {
                self.faults = self.faults.saturating_add(1);
                Err(Refused::Failed)
            }
            Err(Refused::Memory) => Err(Refused::Memory),
        }
    }

    fn close_source(&mut self, reader: MemSource)
        ensures { self.new ≡ self.old }
    {
        self.inner.close_source(reader);
    }

    fn open_sink(&mut self, alloc: Global, name: &str) -> Result<GateSink, Refused>
        ensures writer { IfOk result
            (λ w.
            w ≡ record { taken = []; room = self.old.places.room; gated = self.old.gated; faults = 0 }) }
        ensures ok { OnOk result (IsFiled self.old.places.files self.new.places.files name.now []) }
        ensures err { OnErr result (self.new ≡ self.old) }
        ensures gated { self.new.gated ≡ unless_opened result self.old.gated }
        ensures kept { self.new.places ≡ record self.old.places { files = self.new.places.files } }
        ensures memory { OnErr result (IsErrOf result Refused.Memory) }
    {
        let plain = self.inner.open_sink(alloc, name)?;
        Ok(GateSink::new(plain, self.gate.take()))
    }

    fn close_sink(&mut self, name: &str, writer: GateSink)
        requires { IsThere (Some (file_at self.old.places.files)) name.now }
        ensures files { IsFiled self.old.places.files self.new.places.files name.now writer.taken }
        ensures kept { self.new
            ≡ record self.old {
              places = record self.old.places {
                files = self.new.places.files;
                write_faults = added self.old.places.write_faults writer.faults;
              };
            } }
    {
        self.write_faults = self.write_faults.saturating_add(writer.faults());
        self.inner.close_sink(name, writer.into_inner());
    }

    fn faults(&self) -> u64 {
        self.faults
    }

    fn read_faults(&self) -> u64 {
        self.read_faults
    }

    fn write_faults(&self) -> u64 {
        self.write_faults
    }
}
