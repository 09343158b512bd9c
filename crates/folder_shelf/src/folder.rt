// A folder with a file for each blob. A crash leaves each blob whole, as it was before or as it was written.
//
// The last two blobs of containers may still be on their way to the disk, in files with `.new` at their ends, which get
// the blobs' names once they are there, at a later call. Each call but the write of such a blob waits for that first.
ghost use Rattle.std.specs.Prelude.{◌≡◌, ◌++◌, codes, IfOk, OnOk, string_bytes};
ghost use Rattle.folder_shelf.specs.FileNames.{file_name, HasFile};

use crate::names::{has_file, push_file_name, read_file_name};
use std::alloc::{AllocError, Global};
use std::fs::{File, Files, OpenFile};
use std::io;
use std::io::{ErrorKind, Read, Write};
use std::path::Path;
use vault_traits::{Failed, Refused};
use vault_types::{Kind, Name};

// A file name takes at most 24 bytes, and that of a file that is not yet renamed 4 more.
const ROOM: usize = 32;

// How many bytes of file names are read at once.
const LISTED: usize = 16_384;

#[derive(Drop)]
pub struct Folder<R: Files> {
    files: R,
    // the folder itself, which is open as long as the shelf is there
    itself: R::File,
    // the folder's path, with a slash at its end
    path: String,
    // room for the path of a blob's file, and of the file that is written before it has its name
    place: String,
    fresh: String,
    // the blobs that were written and whose files have not their names yet
    older: Option<Name>,
    newer: Option<Name>,
    // whether bytes that have their name could not be brought to the disk
    torn: bool,
}

impl<R: Files> Folder<R> {
    // Opens the folder, and makes it where it is absent.
    pub fn open(alloc: Global, files: R, path: &str) -> Result<Self, Refused>
    where
        R: Drop,
    {
        let with_slash = add(alloc, path, "/")?;
        let place = String::with_capacity(alloc, with_slash.len().saturating_add(ROOM))?;
        let fresh = String::with_capacity(alloc, with_slash.len().saturating_add(ROOM))?;
        match make(&files, path, with_slash.as_str()) {
            Ok(itself) => Ok(Folder {
                files,
                itself,
                path: with_slash,
                place,
                fresh,
                older: None,
                newer: None,
                torn: false,
            }),
            Err(_) => Err(Refused::Failed),
        }
    }

    // The bytes of a blob, by one read.
    pub fn read(&mut self, alloc: Global, name: Name) -> Result<Option<Vec<u8>>, Refused> {
        if !has_file(name) {
            return Ok(None);
        }
        self.finish()?;
        write_path(&mut self.place, self.path.as_str(), name)?;
        match File::open(&self.files, self.place.as_str()) {
            Ok(mut file) => Ok(Some(read_whole(alloc, &mut file)?)),
            Err(e) if e.kind() == ErrorKind::NotFound => Ok(None),
            Err(_) => Err(Refused::Failed),
        }
    }

    // Writes a blob. A recipe or a floor is on the disk before it has its name; the bytes of a container set out for it.
    pub fn write(&mut self, name: Name, bytes: &[u8]) -> Result<(), Refused> {
        if !has_file(name) {
            return Err(Refused::Failed);
        }
        let is_container = match name.kind {
            Kind::Table => true,
            Kind::Payload => true,
            Kind::Recipe => false,
            Kind::Floor => false,
        };
        if !is_container || self.newer.is_some() || self.waits(name) {
            self.finish()?;
        }
        write_path(&mut self.place, self.path.as_str(), name)?;
        write_fresh_path(&mut self.fresh, self.place.as_str())?;
        let answer = if is_container {
            self.send(name, bytes)
        } else {
            replace(&self.files, self.fresh.as_str(), self.place.as_str(), bytes)
        };
        match answer {
            Ok(()) => Ok(()),
            Err(_) => {
                // It gives the disk's room back, if it can.
                let _ = self.files.remove_file(self.fresh.as_str());
                Err(Refused::Failed)
            }
        }
    }

    // Writes the file whose path is `fresh`, which waits for its name.
    fn send(&mut self, name: Name, bytes: &[u8]) -> io::Result<()> {
        send_off(&self.files, self.fresh.as_str(), bytes)?;
        if self.older.is_none() {
            self.older = Some(name);
        } else {
            self.newer = Some(name);
        }
        Ok(())
    }

    // Whether the last write but one, whose file has not its name yet, was of this blob.
    fn waits(&self, name: Name) -> bool {
        match self.older {
            Some(older) => older == name,
            None => false,
        }
    }

    // Waits until all that was written is on the disk, and has its name.
    fn finish(&mut self) -> Result<(), Failed> {
        let older = self.finish_older();
        if self.older.is_some() {
            return older;
        }
        self.older = self.newer.take();
        self.finish_older()?;
        older
    }

    // Waits for the older of two files. Where its bytes can't be brought to the disk, it gets its name as well, and no
    // settling succeeds from then on; where it can't get its name, it goes on waiting.
    fn finish_older(&mut self) -> Result<(), Failed> {
        let Some(name) = self.older else {
            return Ok(());
        };
        if !has_file(name) {
            return Err(Failed);
        }
        match write_path(&mut self.place, self.path.as_str(), name) {
            Ok(()) => {}
            Err(_) => return Err(Failed),
        }
        match write_fresh_path(&mut self.fresh, self.place.as_str()) {
            Ok(()) => {}
            Err(_) => return Err(Failed),
        }
        let is_there = sync_file(&self.files, self.fresh.as_str()).is_ok();
        if !is_there {
            self.torn = true;
        }
        match self.files.rename(self.fresh.as_str(), self.place.as_str()) {
            Ok(()) => self.older = None,
            Err(_) => return Err(Failed),
        }
        if is_there { Ok(()) } else { Err(Failed) }
    }

    // Removes the file of a blob, where it is there.
    pub fn remove(&mut self, name: Name) -> Result<(), Failed> {
        if !has_file(name) {
            return Ok(());
        }
        self.finish()?;
        match write_path(&mut self.place, self.path.as_str(), name) {
            Ok(()) => {}
            Err(_) => return Err(Failed),
        }
        match self.files.remove_file(self.place.as_str()) {
            Ok(()) => Ok(()),
            Err(e) if e.kind() == ErrorKind::NotFound => Ok(()),
            Err(_) => Err(Failed),
        }
    }

    // The names of the files that are there, each once, by kind and then by number. Other files are left out.
    pub fn list(&mut self, alloc: Global) -> Result<Vec<Name>, Refused> {
        self.finish()?;
        let mut names = Vec::new(alloc);
        let Ok(mut listing) = self.files.open_dir(self.path.as_str()) else {
            return Err(Refused::Failed);
        };
        let mut buffer = [0; LISTED];
        for _ in 0..u64::MAX {
            match listing.read(&mut buffer) {
                Ok(0) => break,
                Ok(n) => push_names(&mut names, &buffer[..n])?,
                Err(_) => return Err(Refused::Failed),
            }
        }
        names.sort_unstable();
        names.dedup();
        Ok(names)
    }

    // All that was written is on the disk after it, and which file has which name.
    pub fn settle(&mut self) -> Result<(), Failed> {
        self.finish()?;
        match self.itself.sync_all() {
            Ok(()) if !self.torn => Ok(()),
            _ => Err(Failed),
        }
    }
}

// Makes the folder where it is absent, and opens it. That it is there is on the disk before anything is put into it.
fn make<R: Files>(files: &R, path: &str, with_slash: &str) -> io::Result<R::File> {
    let is_new = match files.create_dir(path) {
        Ok(()) => true,
        Err(e) if e.kind() == ErrorKind::AlreadyExists => false,
        Err(e) => return Err(e),
    };
    // The folder around one that was there before may not be ours to read.
    match sync_file(files, around(path)) {
        Err(e) if is_new => return Err(e),
        _ => {}
    }
    File::open(files, with_slash)
}

// The folder that has this one.
fn around(path: &str) -> &str {
    match Path::new(path).parent() {
        Some(parent) if !parent.as_str().is_empty() => parent.as_str(),
        _ => ".",
    }
}

// Reads a file from its start to the end that it has now. It takes the room for all of it at once, and fills it by pieces that
// the processor's caches hold.
fn read_whole<F: Read + OpenFile>(alloc: Global, file: &mut F) -> Result<Vec<u8>, Refused> {
    let Ok(metadata) = file.metadata() else {
        return Err(Refused::Failed);
    };
    let Ok(len) = usize::try_from(metadata.len()) else {
        return Err(Refused::Failed);
    };
    let mut bytes = Vec::with_capacity(alloc, len)?;
    let mut done = 0;
    while done < len {
        let next = done + (len - done).min(131_072);
        bytes.resize(next, 0)?;
        if file.read_exact(&mut bytes.as_mut_slice()[done..]).is_err() {
            return Err(Refused::Failed);
        }
        done = next;
    }
    Ok(bytes)
}

// Writes the bytes under a name of their own, waits until they are on the disk, and gives them the name that they
// are for.
fn replace<R: Files>(files: &R, fresh: &str, place: &str, bytes: &[u8]) -> io::Result<()> {
    write_through(files, fresh, bytes)?;
    files.rename(fresh, place)
}

fn write_through<R: Files>(files: &R, path: &str, bytes: &[u8]) -> io::Result<()> {
    let mut file = File::create(files, path)?;
    file.write_all(bytes)?;
    file.sync_all()
}

// Writes the bytes to a file of their own. A file that was cut to nothing and then closed is one that Linux's file systems
// begin to bring to the disk at once, since it may replace another one's content.
fn send_off<R: Files>(files: &R, path: &str, bytes: &[u8]) -> io::Result<()> {
    let mut file = File::create(files, path)?;
    file.set_len(0)?;
    file.write_all(bytes)
}

fn sync_file<R: Files>(files: &R, path: &str) -> io::Result<()> {
    File::open(files, path)?.sync_all()
}

// Adds the blobs' names among file names that each end with a NUL.
fn push_names(names: &mut Vec<Name>, files: &[u8]) -> Result<(), AllocError> {
    for file in files.split(|b| *b == 0) {
        if let Some(name) = read_file_name(file) {
            names.push(name)?;
        }
    }
    Ok(())
}

fn add(alloc: Global, text: &str, tail: &str) -> Result<String, AllocError>
    ensures { IfOk result (λ r. string_bytes r ≡ text.now ++ tail.now) }
{
    let mut whole = String::from_str(alloc, text)?;
    whole.push_str(tail)?;
    Ok(whole)
}

// The path of a blob's file.
fn write_path(path: &mut String, folder: &str, name: Name) -> Result<(), AllocError>
    requires { HasFile name }
    ensures { OnOk result (string_bytes path.new ≡ folder.now ++ file_name name) }
{
    path.clear();
    path.push_str(folder)?;
    push_file_name(path, name)
}

// The path of the file that a blob is written to before it has its name.
fn write_fresh_path(path: &mut String, place: &str) -> Result<(), AllocError>
    ensures { OnOk result (string_bytes path.new ≡ place.now ++ codes ".new") }
{
    path.clear();
    path.push_str(place)?;
    path.push_str(".new")
}
