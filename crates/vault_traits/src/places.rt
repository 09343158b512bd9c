// Places: sources and sinks by their names.
ghost use Rattle.std.specs.Prelude.{◌≡◌, ℕ, Option, IfOk, OnOk, OnErr};
ghost use Rattle.vault_traits.specs.Counts.{added, HasCause};
ghost use Rattle.vault_traits.specs.Told.{PlacesTold};
ghost use Rattle.vault_traits.specs.Files.{ChangesOnly, AreKept, IsReaderOf, IsNewWriter, IsEmptied, MayBeEmptied, IsWhatWasTaken, IsThere, FailsOnlyFull};

use crate::{Refused, Sink, Source};
use std::alloc::Global;

/// Sources and sinks by their names. What it tells is the bytes under each name. The readers and writers of places that
/// tell this tell their own content.
pub trait Places {
    type Reader: Source + Send;

    type Writer: Sink + Send;

    /// The bytes under each name, where the places tell them, and how often openings, readers and writers failed.
    ghost told: { Self → PlacesTold };

    /// How many bytes a writer takes before it fails, where that is told of every writer.
    ghost room: { Option ℕ };

    /// A reader with all bytes of the name left, that has not failed. A name that is not there is a failed opening.
    fn open_source(&mut self, alloc: Global, name: &str) -> Result<Self::Reader, Refused>
        ensures reader { IfOk result (λ r. IsReaderOf (told self.old).files name.now (Self.Reader.told r)) }
        ensures files { AreKept (told self.old).files (told self.new).files }
        ensures read_faults { (told self.new).read_faults ≡ (told self.old).read_faults }
        ensures write_faults { (told self.new).write_faults ≡ (told self.old).write_faults }
        ensures cause { HasCause (told self.old).faults (told self.new).faults result };

    /// Gives a reader back; its faults are counted as `read_faults`. It takes no memory.
    fn close_source(&mut self, reader: Self::Reader)
        ensures files { AreKept (told self.old).files (told self.new).files }
        ensures faults { (told self.new).faults ≡ (told self.old).faults }
        ensures read_faults { (told self.new).read_faults
            ≡ added (told self.old).read_faults (Self.Reader.told reader).faults }
        ensures write_faults { (told self.new).write_faults ≡ (told self.old).write_faults };

    /// Makes the name empty, and gives a writer for it that has taken nothing and not failed. After an `Err` the name has
    /// its bytes, or is empty.
    fn open_sink(&mut self, alloc: Global, name: &str) -> Result<Self::Writer, Refused>
        ensures writer { IfOk result (λ w. IsNewWriter (told self.old).files (Self.Writer.told w)) }
        ensures ok { OnOk result
            (ChangesOnly (told self.old).files (told self.new).files name.now IsEmptied) }
        ensures err { OnErr result
            (ChangesOnly (told self.old).files (told self.new).files name.now MayBeEmptied) }
        ensures read_faults { (told self.new).read_faults ≡ (told self.old).read_faults }
        ensures write_faults { (told self.new).write_faults ≡ (told self.old).write_faults }
        ensures cause { HasCause (told self.old).faults (told self.new).faults result };

    /// Gives the name what the writer took; its faults are counted as `write_faults`. Where the places tell how many bytes a
    /// writer takes, one that has failed had taken so many (`room`). It takes no memory.
    fn close_sink(&mut self, name: &str, writer: Self::Writer)
        requires { IsThere (told self.old).files name.now }
        ensures room { FailsOnlyFull room (Self.Writer.told writer) }
        ensures files { ChangesOnly (told self.old).files (told self.new).files name.now
            (IsWhatWasTaken (Self.Writer.told writer).taken) }
        ensures faults { (told self.new).faults ≡ (told self.old).faults }
        ensures read_faults { (told self.new).read_faults ≡ (told self.old).read_faults }
        ensures write_faults { (told self.new).write_faults
            ≡ added (told self.old).write_faults (Self.Writer.told writer).faults };

    /// How many openings failed.
    fn faults(&self) -> u64
        ensures { result ≡ (told self.now).faults };

    /// How often those readers failed that were given back.
    fn read_faults(&self) -> u64
        ensures { result ≡ (told self.now).read_faults };

    /// How often those writers failed that were given back.
    fn write_faults(&self) -> u64
        ensures { result ≡ (told self.now).write_faults };
}
