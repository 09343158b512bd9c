// The files of the current folder, by their names.
ghost use Rattle.std.specs.Prelude.{◌≡◌};

use crate::streams::{StreamSink, StreamSource};
use std::alloc::Global;
use std::fs::{File, Files};
use std::marker::Model;
use vault_traits::{Places, Refused, Sink, Source};

/// The files of the current folder, by their names. A file that can't be opened is a failed opening. Nothing is told
/// of content.
#[derive(Drop)]
pub struct FolderPlaces<R> {
    files: R,
    faults: u64,
    read_faults: u64,
    write_faults: u64,
}

impl<R> Model for FolderPlaces<R> {
    ghost use Rattle.folder_shelf.specs.Silent.{PlacesCounts};

    ghost Value = { PlacesCounts };

    ghost view = { λ s.
        record { faults = s.faults; read_faults = s.read_faults; write_faults = s.write_faults } };
}

impl<R: Files> FolderPlaces<R> {
    /// Places where nothing has failed.
    pub fn new(files: R) -> Self
        ensures { result ≡ record { faults = 0; read_faults = 0; write_faults = 0 } }
    {
        FolderPlaces {
            files,
            faults: 0,
            read_faults: 0,
            write_faults: 0,
        }
    }
}

impl<R: Files> Places for FolderPlaces<R>
where
    R::File: Send,
{
    type Reader = StreamSource<R::File>;

    type Writer = StreamSink<R::File>;

    ghost use Rattle.std.specs.Prelude.{None};
    ghost use Rattle.folder_shelf.specs.Silent.{silent_places};

    ghost told = { silent_places };

    ghost room = { None };

    fn open_source(&mut self, _alloc: Global, name: &str) -> Result<Self::Reader, Refused> {
        match File::open(&self.files, name) {
            Ok(file) => Ok(StreamSource::new(file)),
            Err(_) => {
                self.faults = self.faults.saturating_add(1);
                Err(Refused::Failed)
            }
        }
    }

    fn close_source(&mut self, reader: Self::Reader) {
        self.read_faults = self.read_faults.saturating_add(reader.faults());
    }

    fn open_sink(&mut self, _alloc: Global, name: &str) -> Result<Self::Writer, Refused> {
        match File::create(&self.files, name) {
            Ok(file) => Ok(StreamSink::new(file)),
            Err(_) => {
                self.faults = self.faults.saturating_add(1);
                Err(Refused::Failed)
            }
        }
    }

    fn close_sink(&mut self, _name: &str, writer: Self::Writer) {
        self.write_faults = self.write_faults.saturating_add(writer.faults());
    }

    fn faults(&self) -> u64 {
        self.faults
    }

    fn read_faults(&self) -> u64 {
        self.read_faults
    }

    fn write_faults(&self) -> u64 {
        self.write_faults
    }
}
