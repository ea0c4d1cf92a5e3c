ghost use Rattle.std.specs.Prelude.{◌≡◌, ◌+◌, ◌≤◌, false, [], IfOk, OnOk, IsErrOf};
ghost use Rattle.dd_causes.specs.Counts.{Rose};

use crate::fault::StoreFault;
use crate::store::{Slot, Store};
use std::alloc::{AllocError, Global};
use std::fs::{File, Files, OpenOptions, create_dir, remove_file};
use std::io::{self, ErrorKind, Read, Seek, SeekFrom, Write};
use std::marker::Model;
use std::path::{Path, PathBuf};

/// A slot that is a file. It tells nothing of its content.
///
/// The file is opened by each call and closed before the call returns. What the system does with it is trusted.
#[derive(Drop)]
pub struct DirSlot<R> {
    rt: R,
    path: PathBuf,
    faults: u64,
}

impl<R> Model for DirSlot<R> {
    ghost use Rattle.std.specs.Prelude.{ℕ};

    ghost Value = { ℕ };

    ghost view = { λ s. s.faults };
}

impl<R: Files> DirSlot<R> {
    /// How many of its calls failed.
    pub fn faults(&self) -> u64
        ensures { result ≡ self.now }
    {
        self.faults
    }

    // Adds bytes at the end of the file. A file that isn't there is an error, and not made.
    fn write_end(&self, bytes: &[u8]) -> io::Result<()> {
        let mut file = OpenOptions::new()
            .append(true)
            .open(&self.rt, self.path.as_path())?;
        file.write_all(bytes)
    }

    // Fills the buffer from the file. A file that is too short is an error.
    fn read_at(&self, place: u64, buf: &mut [u8]) -> io::Result<()> {
        let mut file = File::open(&self.rt, self.path.as_path())?;
        if place > 0 {
            file.seek(SeekFrom::Start(place))?;
        }
        file.read_exact(buf)
    }
}

impl<R: Files + Drop> Slot for DirSlot<R> {
    ghost tells = { false };

    ghost content = { λ _. [] };

    ghost faults = { λ s. s };

    fn append(&mut self, bytes: &[u8]) -> Result<(), StoreFault> {
        let written = self.write_end(bytes);
        counted(written, &mut self.faults)
    }

    fn read(&mut self, place: u64, buf: &mut [u8]) -> Result<(), StoreFault> {
        let filled = self.read_at(place, buf);
        counted(filled, &mut self.faults)
    }
}

/// A store of files: one for each slot, `slot-N.bin` with N from 0, in one folder. It tells nothing of contents.
///
/// `make` makes the folder where it is missing, and empties a file of the slot's name. `end` removes the slot's file, and
/// where that fails the file stays, which is no fault. No other file of the folder is touched.
#[derive(Drop)]
pub struct DirStore<R> {
    rt: R,
    alloc: Global,
    folder: PathBuf,
    made: u64,
    faults: u64,
}

impl<R> Model for DirStore<R> {
    ghost use Rattle.dd_store.specs.Views.{Counts};

    ghost Value = { Counts };

    ghost view = { λ s. record { made = s.made; faults = s.faults } };
}

impl<R: Files + Clone + Drop + Send> DirStore<R> {
    /// A store that has made no slot. The folder is first touched by `make`.
    ///
    /// # Errors
    /// Want of memory for the folder's name.
    pub fn new(rt: &R, alloc: Global, folder: &str) -> Result<DirStore<R>, AllocError>
        ensures { IfOk result (λ store. store ≡ record { made = 0; faults = 0 }) }
    {
        Ok(DirStore {
            rt: rt.clone()?,
            alloc,
            folder: PathBuf::from_str(alloc, folder)?,
            made: 0,
            faults: 0,
        })
    }
}

impl<R: Files + Drop> DirStore<R> {
    /// How many slots it has made.
    pub fn made(&self) -> u64
        ensures { result ≡ self.now.made }
    {
        self.made
    }

    /// How many faults it has counted, with those of the slots that it ended.
    pub fn faults(&self) -> u64
        ensures { result ≡ self.now.faults }
    {
        self.faults
    }

    // The file of the next slot.
    fn next_path(&self) -> Result<PathBuf, AllocError> {
        let number = self.made;
        let name = format!(in self.alloc; "slot-{number}.bin")?;
        self.folder.as_path().join(self.alloc, name.as_str())
    }

    // Makes the file, or empties one that is there. Where that finds no folder, it makes the folder first.
    fn empty_file(&self, path: Path<'_>) -> io::Result<()> {
        match File::create(&self.rt, path) {
            Ok(_) => Ok(()),
            Err(error) if error.kind() == ErrorKind::NotFound => {
                create_dir(&self.rt, self.folder.as_path())?;
                File::create(&self.rt, path)?;
                Ok(())
            }
            Err(error) => Err(error),
        }
    }
}

impl<R: Files + Clone + Drop + Send> Store for DirStore<R> {
    type Slot = DirSlot<R>;

    ghost made = { λ s. s.made };

    ghost faults = { λ s. s.faults };

    fn make(&mut self) -> Result<DirSlot<R>, StoreFault> {
        let rt = self.rt.clone()?;
        let path = self.next_path()?;
        let emptied = self.empty_file(path.as_path());
        counted(emptied, &mut self.faults)?;
        self.made += 1;
        Ok(DirSlot {
            rt,
            path,
            faults: 0,
        })
    }

    fn end(&mut self, slot: DirSlot<R>) {
        self.faults = self.faults.saturating_add(slot.faults);
        let _ = remove_file(&self.rt, slot.path.as_path());
    }
}

// What a call answers after the system's answer. It counts each of the system's errors but want of memory.
fn counted(done: io::Result<()>, faults: &mut u64) -> Result<(), StoreFault>
    ensures cause { IsErrOf result StoreFault.Disk → Rose faults.old faults.new }
    ensures kept { (¬ IsErrOf result StoreFault.Disk) → faults.new ≡ faults.old }
    ensures later { faults.old ≤ faults.new }
{
    match done {
        Ok(()) => Ok(()),
        Err(error) if error.kind() == ErrorKind::OutOfMemory => Err(StoreFault::Memory),
        Err(_) => {
            *faults = faults.saturating_add(1);
            Err(StoreFault::Disk)
        }
    }
}
