//! A store over the files of the working folder, which tells nothing of what they have.

ghost use Rattle.std.specs.Prelude.{◌≡◌, ◌≤◌, None};
ghost use Rattle.dt_io.specs.Faults.{one_more};
ghost use Rattle.dt_io.specs.Standard.{store_faults};

use crate::ends::{FetchEnd, PutEnd, ReadEnd};
use crate::reading::read_all;
use crate::standard::{StdSink, StdSource};
use crate::store::Store;
use crate::writing::write_all;
use dt_base::Bytes;
use std::alloc::Global;
use std::fs::{File, Files};
use std::io::ErrorKind;

/// The files of the working folder. A name that is not found is no file; each other error of the system is a fault, so is
/// a folder. A file is read up to one byte more than the limit.
#[derive(Drop)]
pub struct FolderStore<'a, R: Files> {
    rt: &'a R,
    faults: u64,
}

impl<'a, R: Files> FolderStore<'a, R> {
    pub fn new(rt: &'a R) -> FolderStore<'a, R>
        ensures { store_faults result ≡ 0 }
    {
        FolderStore { rt, faults: 0 }
    }

    /// Counts a fault.
    fn failed(&mut self)
        ensures count { store_faults self.new ≡ one_more (store_faults self.old) }
        ensures later { store_faults self.old ≤ store_faults self.new }
    {
        self.faults = self.faults.saturating_add(1);
    }
}

impl<'a, R: Files> Store for FolderStore<'a, R> {
    ghost told = { λ _. None };

    ghost faults = { λ s. store_faults s };

    fn fetch(&mut self, alloc: Global, name: &str, limit: u32) -> Result<Option<Bytes>, FetchEnd> {
        match read_file(self.rt, alloc, name, limit) {
            Err(FetchEnd::Failed) => {
                self.failed();
                Err(FetchEnd::Failed)
            }
            end => end,
        }
    }

    fn put(&mut self, _alloc: Global, name: &str, bytes: &[u8]) -> Result<(), PutEnd> {
        if write_file(self.rt, name, bytes) {
            return Ok(());
        }
        self.failed();
        Err(PutEnd::Failed)
    }
}

/// The bytes of a file, and none where there is none.
fn read_file<R: Files>(
    rt: &R,
    alloc: Global,
    name: &str,
    limit: u32,
) -> Result<Option<Bytes>, FetchEnd> {
    match File::open(rt, name) {
        Ok(file) => match read_all(alloc, &mut StdSource::new(file), limit) {
            Ok(bytes) => Ok(Some(bytes)),
            Err(ReadEnd::Failed) => Err(FetchEnd::Failed),
            Err(ReadEnd::TooLong) => Err(FetchEnd::TooLong),
            Err(ReadEnd::NoMemory) => Err(FetchEnd::NoMemory),
        },
        Err(error) if error.kind() == ErrorKind::NotFound => Ok(None),
        Err(_) => Err(FetchEnd::Failed),
    }
}

/// Whether the bytes could be written into the file, which is made if there is none.
fn write_file<R: Files>(rt: &R, name: &str, bytes: &[u8]) -> bool {
    match File::create(rt, name) {
        Err(_) => false,
        Ok(file) => write_all(&mut StdSink::new(file), bytes).is_ok(),
    }
}
