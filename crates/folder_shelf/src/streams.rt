// Sources and sinks over the host's files and streams.
ghost use Rattle.std.specs.Prelude.{◌≡◌, ◌<◌, ◌≤◌, ℕ, length, take, is_ok, IfOk, OnErr, if◌then◌else◌};
ghost use Rattle.std.specs.Io.KnownBytes.{Consumes, Appends, Keeps, IsAtEnd};
ghost use Rattle.vault_traits.specs.Counts.{counted};

use std::io::{Read, Stderr, Stdin, Stdout, Write};
use std::marker::Model;
use vault_traits::{Failed, Sink, Source};

/// Standard input.
pub type InSource = StreamSource<Stdin>;

/// Standard output.
pub type OutSink = StreamSink<Stdout>;

/// Standard error.
pub type ErrSink = StreamSink<Stderr>;

/// A source over a stream of the host: a read is one read of the stream, straight into the caller's buffer. Each
/// error of the host is counted.
#[derive(Drop)]
pub struct StreamSource<T> {
    stream: T,
    faults: u64,
}

impl<T> Model for StreamSource<T> {
    ghost use Rattle.std.specs.Prelude.{ℕ};

    ghost Value = { ℕ };

    ghost view = { λ s. s.faults };
}

impl<T> StreamSource<T> {
    /// A source that has not failed.
    pub fn new(stream: T) -> Self
        ensures { result ≡ 0 }
    {
        StreamSource { stream, faults: 0 }
    }
}

impl<T: Read> Source for StreamSource<T> {
    ghost use Rattle.folder_shelf.specs.Silent.{silent_source};

    ghost told = { silent_source };

    fn read(&mut self, buf: &mut [u8]) -> Result<usize, Failed> {
        let answer = read_some(&mut self.stream, buf);
        count(&mut self.faults, answer)
    }

    fn faults(&self) -> u64 {
        self.faults
    }
}

/// A sink over a stream of the host: a write is one write of the stream, which may take less than the piece. Each
/// error of the host is counted, and a write that takes nothing is one.
#[derive(Drop)]
pub struct StreamSink<T> {
    stream: T,
    faults: u64,
}

impl<T> Model for StreamSink<T> {
    ghost use Rattle.std.specs.Prelude.{ℕ};

    ghost Value = { ℕ };

    ghost view = { λ s. s.faults };
}

impl<T> StreamSink<T> {
    /// A sink that has not failed.
    pub fn new(stream: T) -> Self
        ensures { result ≡ 0 }
    {
        StreamSink { stream, faults: 0 }
    }
}

impl<T: Write> Sink for StreamSink<T> {
    ghost use Rattle.folder_shelf.specs.Silent.{silent_sink};

    ghost told = { silent_sink };

    fn write(&mut self, piece: &[u8]) -> Result<usize, Failed> {
        let answer = write_some(&mut self.stream, piece);
        count(&mut self.faults, answer)
    }

    fn faults(&self) -> u64 {
        self.faults
    }
}

// Counts a failure.
pub fn count<T>(faults: &mut u64, answer: Result<T, Failed>) -> Result<T, Failed>
    ensures answer { result ≡ answer }
    ensures faults { faults.new ≡ (if is_ok answer then faults.old else counted faults.old) }
{
    if answer.is_err() {
        *faults = faults.saturating_add(1);
    }
    answer
}

// One read. An error of the stream is no end of it.
fn read_some<T: Read>(stream: &mut T, buf: &mut [u8]) -> Result<usize, Failed>
    ensures fits { IfOk result (λ n. n ≤ length buf.old) }
    ensures given { IfOk result
        (λ n. Consumes (T.remaining stream.old) (T.remaining stream.new) (take n buf.new)) }
    ensures end { IfOk result (λ n. n ≡ 0 → 0 < length buf.old → IsAtEnd (T.remaining stream.new)) }
    ensures err { OnErr result (Keeps (T.remaining stream.old) (T.remaining stream.new)) }
{
    match stream.read(buf) {
        Ok(n) => Ok(n),
        Err(_) => Err(Failed),
    }
}

// One write, of at least a byte.
fn write_some<T: Write>(stream: &mut T, piece: &[u8]) -> Result<usize, Failed>
    ensures some { IfOk result (λ n. (0 < n) × (n ≤ length piece.now)) }
    ensures taken { IfOk result
        (λ n. Appends (T.contents stream.old) (T.contents stream.new) (take n piece.now)) }
    ensures err { OnErr result (Keeps (T.contents stream.old) (T.contents stream.new)) }
{
    match stream.write(piece) {
        Ok(0) => Err(Failed),
        Ok(n) => Ok(n),
        Err(_) => Err(Failed),
    }
}
