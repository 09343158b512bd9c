// The places of `fill`.
ghost use Rattle.std.specs.Prelude.{◌≡◌, ◌↔◌, ◌≤◌, ◌++◌, ℕ, [], Some, None, IfOk, OnOk, OnErr, IsErr, IsErrOf, unwrap_or};
ghost use Rattle.std.specs.Option.{option_map};
ghost use Rattle.vault_traits.specs.Counts.{added, HasCause};
ghost use Rattle.vault_traits.specs.Files.{ChangesOnly, AreKept, IsReaderOf, IsNewWriter, IsEmptied, MayBeEmptied, IsWhatWasTaken, IsThere, FailsOnlyFull};
ghost use Rattle.vault_types.specs.Generator.{generated};
ghost use Rattle.vault_types.specs.Names.{fp};
ghost use Rattle.workload.specs.Places.{told_of, file_at, output_at, place_at, version_at, source_name, sources, IsPlaced};

use crate::generated::Generated;
use crate::listing::{add_sources, empty, give, version_at, written_at};
use crate::place::FillPlace;
use crate::sink::FillSink;
use crate::sums::sum_of_rest;
use fingerprint_stage::sum;
use std::alloc::Global;
use std::marker::Model;
use vault_traits::{Places, Refused, Sink, Source};
use vault_types::{Fp, Memory};

/// The places of `fill`: the sources `gen-1` to `gen-64` are the versions of a seed, made as they are read, and what is
/// written under a name is kept. No opening fails, no reader fails, and no writer but where it has no room left. The script
/// of `fill` names no other source.
#[derive(Drop)]
pub struct FillPlaces {
    seed: u64,
    places: Vec<FillPlace>,
    write_faults: u64,
}

impl Model for FillPlaces {
    ghost use Rattle.workload.specs.Places.{FilledPlaces};

    ghost Value = { FilledPlaces };

    ghost view = { λ p. record { seed = p.seed; places = p.places.items; write_faults = p.write_faults } };
}

impl FillPlaces {
    /// The places with the versions of this seed, where nothing was written.
    pub fn with(alloc: Global, seed: u64) -> Result<Self, Memory>
        ensures value { IfOk result (λ p. p ≡ record { seed = seed; places = sources; write_faults = 0 }) }
        ensures versions { IfOk result (λ p. (v : ℕ) → 1 ≤ v → v ≤ 64
            → version_at p.places (source_name v) ≡ Some v) }
        ensures bytes { IfOk result (λ p. (v : ℕ) → 1 ≤ v → v ≤ 64
            → file_at p.seed p.places (source_name v) ≡ Some (generated seed v)) }
    {
        let mut places = Vec::new(alloc);
        add_sources(alloc, 64, &mut places)?;
        Ok(FillPlaces {
            seed,
            places,
            write_faults: 0,
        })
    }

    /// What was written under a name. `None` where no writer was opened for it.
    pub fn output(&self, name: &str) -> Option<&[u8]>
        ensures { option_map (λ b. b.now) result ≡ output_at self.now.places name.now }
    {
        written_at(self.places.as_slice(), name)
    }

    /// The SHA-1 of the bytes under a name, or of no bytes where nothing is. It takes no memory.
    pub fn sum(&self, name: &str) -> Fp
        ensures { result ≡ fp (unwrap_or (file_at self.now.seed self.now.places name.now) []) }
    {
        match version_at(self.places.as_slice(), name) {
            Some(version) => sum_of_rest(Generated::new(self.seed, version)),
            None => match written_at(self.places.as_slice(), name) {
                Some(bytes) => sum(bytes),
                None => sum(&[]),
            },
        }
    }
}

impl Places for FillPlaces {
    type Reader = Generated;

    type Writer = FillSink;

    ghost told = { told_of };

    ghost room = { Some 8388671 };

    /// A reader of the version that the name gives, from its first byte on. It is refused exactly where the name gives none,
    /// with `Memory`, as if there were none for that version. It takes no memory.
    fn open_source(&mut self, _alloc: Global, name: &str) -> Result<Generated, Refused>
        ensures reader { IfOk result (λ r. Some r ≡ file_at self.old.seed self.old.places name.now) }
        ensures refused { IsErr result ↔ (version_at self.old.places name.now ≡ None) }
        ensures memory { OnErr result (IsErrOf result Refused.Memory) }
        ensures kept { self.new ≡ self.old }
    {
        let Some(version) = version_at(self.places.as_slice(), name) else {
            return Err(Refused::Memory);
        };
        Ok(Generated::new(self.seed, version))
    }

    fn close_source(&mut self, _reader: Generated)
        ensures { self.new ≡ self.old }
    {}

    /// Makes the name empty, and gives a writer for it with room for 8,388,671 bytes. It fails only for want of memory.
    fn open_sink(&mut self, alloc: Global, name: &str) -> Result<FillSink, Refused>
        ensures writer { IfOk result (λ w. w ≡ record { taken = []; room = 8388671; faults = 0 }) }
        ensures ok { OnOk result (IsPlaced self.old.places self.new.places name.now []) }
        ensures err { OnErr result (self.new ≡ self.old) }
        ensures kept { self.new ≡ record self.old { places = self.new.places } }
        ensures memory { OnErr result (IsErrOf result Refused.Memory) }
    {
        let Ok(writer) = FillSink::with(alloc) else {
            return Err(Refused::Memory);
        };
        match empty(alloc, &mut self.places, name) {
            Ok(()) => Ok(writer),
            Err(Memory) => Err(Refused::Memory),
        }
    }

    fn close_sink(&mut self, name: &str, writer: FillSink)
        requires { IsThere (Some (file_at self.old.seed self.old.places)) name.now }
        ensures room { FailsOnlyFull (Some 8388671)
            (record { taken = Some writer.taken; faults = writer.faults }) }
        ensures places { IsPlaced self.old.places self.new.places name.now writer.taken }
        ensures kept { self.new
            ≡ record self.old {
              places = self.new.places;
              write_faults = added self.old.write_faults writer.faults;
            } }
    {
        self.write_faults = self.write_faults.saturating_add(writer.faults());
        give(self.places.as_mut_slice(), name, writer.into_vec());
    }

    fn faults(&self) -> u64 {
        0
    }

    fn read_faults(&self) -> u64 {
        0
    }

    fn write_faults(&self) -> u64 {
        self.write_faults
    }
}
