// A disk over a file.
ghost use Rattle.std.specs.Prelude.{◌≡◌, ◌≤◌, None};
ghost use Rattle.sect_journal.specs.declared.disk.DiskFault.TheVariants as fault;
ghost use Rattle.sect_edge.specs.Causes.{Rose};

use sect_journal::{Disk, DiskFault};
use std::fs::{File, OpenOptions};
use std::io;
use std::os::unix::fs::FileExt;

/// A disk has fewer bytes.
const MOST_BYTES: u64 = 1 << 62;

/// A file as a disk. It doesn't tell its bytes. Whoever holds it is alone in writing the file.
pub struct FileDisk {
    file: File,
    faults: u64,
}

/// It is written out, so that a caller does not prove again how each part is dropped.
impl Drop for FileDisk {
    fn drop(self) {
        let FileDisk { file: _, faults: _ } = self;
    }
}

impl FileDisk {
    /// A disk over an open file, which may be read and written.
    pub fn new(file: File) -> FileDisk {
        FileDisk { file, faults: 0 }
    }

    /// The file of a path, which is made where there is none. While the disk lives no other opens it so. An error too where
    /// the file begins as no journal does.
    pub fn open(rt: &HostRuntime, path: &str) -> io::Result<FileDisk> {
        let file = OpenOptions::new()
            .read(true)
            .write(true)
            .create(true)
            .open(rt, path)?;
        match take(&file) {
            Ok(()) => Ok(FileDisk::new(file)),
            Err(error) => Err(error),
        }
    }

    /// One more failure.
    fn failed(&mut self) -> DiskFault
        ensures fault { result ≡ fault.Failed }
        ensures count { Rose self.old.faults self.new.faults }
        ensures later { self.old.faults ≤ self.new.faults }
    {
        self.faults = self.faults.saturating_add(1);
        DiskFault::Failed
    }
}

/// Locks a file. An error too where it begins as no journal does.
fn take(file: &File) -> io::Result<()> {
    file.try_lock()?;
    if is_foreign(file)? {
        return Err(io::Error::from(io::ErrorKind::InvalidData));
    }
    Ok(())
}

/// Whether the first byte, where there is one, is no gate of a journal: neither 0 nor 1.
fn is_foreign(file: &File) -> io::Result<bool> {
    let mut first = [0];
    let read = file.read_at(&mut first, 0)?;
    Ok(read == 1 && first[0] > 1)
}

impl Disk for FileDisk {
    ghost told = { λ d. None };

    ghost faults = { λ d. d.faults };

    ghost reads_an_image = { λ d t e. cc };

    fn size(&mut self) -> Result<u64, DiskFault> {
        match self.file.metadata() {
            Ok(data) if data.len() < MOST_BYTES => Ok(data.len()),
            _ => Err(self.failed()),
        }
    }

    fn read_at(&mut self, at: u64, into: &mut [u8]) -> Result<usize, DiskFault> {
        let behind = self.size()?.saturating_sub(at);
        let count = into
            .len()
            .min(usize::try_from(behind).unwrap_or(usize::MAX));
        match self.file.read_exact_at(&mut into[..count], at) {
            Ok(()) => Ok(count),
            Err(_) => Err(self.failed()),
        }
    }

    fn write_at(&mut self, at: u64, piece: &[u8]) -> Result<(), DiskFault> {
        if at.saturating_add(piece.len() as u64) >= MOST_BYTES {
            return Err(self.failed());
        }
        match self.file.write_all_at(piece, at) {
            Ok(()) => Ok(()),
            Err(_) => Err(self.failed()),
        }
    }

    fn sync(&mut self) -> Result<(), DiskFault> {
        match self.file.sync_data() {
            Ok(()) => Ok(()),
            Err(_) => Err(self.failed()),
        }
    }
}
