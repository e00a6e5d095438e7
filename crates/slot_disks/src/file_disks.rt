//! The file of the system as a disk. It tells no bytes.
ghost use Rattle.std.specs.Prelude.{◌≡◌, ◌≤◌, length, IfOk};

use crate::disks::Disk;
use day_clock::{Failed, FaultCount};
use std::fs::{File, OpenFile};
use std::io;
use std::io::{Read, Seek, SeekFrom, Write};
use std::rt::Files;

/// A file in the current folder. The first call opens it, and makes it where there is none.
#[derive(Drop)]
pub struct FileDisk<R: Files> {
    files: R,
    name: &'static str,
    file: Option<R::File>,
    faults: FaultCount,
}

impl<R: Files> FileDisk<R> {
    /// Makes the disk of the file with this name, which has no folder in it. The disk has not
    /// failed. It calls nothing.
    pub fn new(files: R, name: &'static str) -> FileDisk<R>
        ensures { ⟦<FileDisk<R> as Disk>⟧.faults result ≡ 0 }
    {
        FileDisk {
            files,
            name,
            file: None,
            faults: FaultCount::new(),
        }
    }
}

// Opens the file, where that is not done. A new file is also made known to the disk as one of its
// folder.
fn open_first<R: Files>(files: &R, name: &str, file: &mut Option<R::File>) -> io::Result<()> {
    if file.is_some() {
        return Ok(());
    }
    let opened = File::options()
        .read(true)
        .write(true)
        .create(true)
        .open(files, name)?;
    File::open(files, ".")?.sync_all()?;
    *file = Some(opened);
    Ok(())
}

// How many bytes the file has.
fn length_of<R: Files>(files: &R, name: &str, file: &mut Option<R::File>) -> io::Result<u64> {
    open_first(files, name, file)?;
    match file {
        Some(file) => Ok(file.metadata()?.len()),
        None => Err(io::Error::from(io::ErrorKind::NotFound)),
    }
}

// Reads until `into` is full or the file ends.
fn read_from<R: Files>(
    files: &R,
    name: &str,
    file: &mut Option<R::File>,
    at: u64,
    into: &mut [u8],
) -> io::Result<usize>
    ensures { IfOk result (λ n. n ≤ length into.old) }
{
    open_first(files, name, file)?;
    match file {
        Some(file) => fill_from(file, at, into),
        None => Err(io::Error::from(io::ErrorKind::NotFound)),
    }
}

// Reads until `into` is full or the file ends.
fn fill_from<F: Read + Seek>(file: &mut F, at: u64, into: &mut [u8]) -> io::Result<usize>
    ensures { IfOk result (λ n. n ≤ length into.old) }
{
    file.seek(SeekFrom::Start(at))?;
    let mut count = 0;
    for _ in 0..u64::MAX {
        if count == into.len() {
            break;
        }
        let more = file.read(&mut into[count..])?;
        if more == 0 {
            break;
        }
        count += more;
    }
    Ok(count)
}

// Writes all of `from`.
fn write_to<R: Files>(
    files: &R,
    name: &str,
    file: &mut Option<R::File>,
    at: u64,
    from: &[u8],
) -> io::Result<()> {
    open_first(files, name, file)?;
    match file {
        Some(file) => {
            file.seek(SeekFrom::Start(at))?;
            file.write_all(from)
        }
        None => Err(io::Error::from(io::ErrorKind::NotFound)),
    }
}

// Waits until the file is on the disk.
fn sync<R: Files>(files: &R, name: &str, file: &mut Option<R::File>) -> io::Result<()> {
    open_first(files, name, file)?;
    match file {
        Some(file) => file.sync_all(),
        None => Err(io::Error::from(io::ErrorKind::NotFound)),
    }
}

impl<R: Files> Disk for FileDisk<R> {
    ghost use Rattle.std.specs.Prelude.{◌≡◌, [], false};

    ghost told = { false };

    ghost seen = { λ _. [] };

    ghost images = { λ _ c. c ≡ [] };

    ghost moment = { λ _. 0 };

    ghost images_since = { λ _ t c. c ≡ [] };

    ghost faults = { λ d. d.faults };

    ghost counts_now = { λ d t c le now. now };

    ghost only_now = { λ d c left. left };

    fn len(&mut self) -> Result<u64, Failed> {
        match length_of(&self.files, self.name, &mut self.file) {
            Ok(count) => Ok(count),
            Err(_) => {
                self.faults.raise();
                Err(Failed)
            }
        }
    }

    fn read(&mut self, at: u64, into: &mut [u8]) -> Result<usize, Failed> {
        match read_from(&self.files, self.name, &mut self.file, at, into) {
            Ok(count) => Ok(count),
            Err(_) => {
                self.faults.raise();
                Err(Failed)
            }
        }
    }

    fn write_at(&mut self, at: u64, from: &[u8]) -> Result<(), Failed> {
        match write_to(&self.files, self.name, &mut self.file, at, from) {
            Ok(()) => Ok(()),
            Err(_) => {
                self.faults.raise();
                Err(Failed)
            }
        }
    }

    fn sync(&mut self) -> Result<(), Failed> {
        match sync(&self.files, self.name, &mut self.file) {
            Ok(()) => Ok(()),
            Err(_) => {
                self.faults.raise();
                Err(Failed)
            }
        }
    }

    fn stands(&self) {
        let _ = &self.faults;
    }
}
