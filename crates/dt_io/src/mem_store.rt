//! A store in memory, which tells its files and fails at the calls that it is given.

ghost use Rattle.std.specs.Prelude.{◌≡◌, ◌↔◌, ◌≤◌, ◌==◌, Some, true, IsTrue, IsErrOf, IfOk, OnOk, OnErr, option_map, position};
ghost use Rattle.std.specs.Str.{bytes_eq};
ghost use Rattle.dt_io.specs.Faults.{Rose};
ghost use Rattle.dt_io.specs.Files.{file_of, with_file, Fetches, Puts};
ghost use Rattle.dt_io.specs.Memory.{called, is_failing};

use crate::copying::is_listed;
use crate::ends::{FetchEnd, PutEnd};
use crate::files::{FileList, NamedFile};
use crate::store::Store;
use dt_base::{Bytes, NoMemory, Numbers};
use std::alloc::Global;
use std::marker::Model;

/// A store of these files.
#[derive(Debug, Drop)]
pub struct MemStore {
    files: Vec<NamedFile>,
    fails: Numbers,
    // Of 64 bits, so that it never comes to a listed number again when it stays at its last value.
    calls: u64,
    faults: u64,
}

impl Model for MemStore {
    ghost use Rattle.dt_io.specs.Memory.{StoreState};

    ghost Value = { StoreState };

    ghost view = { λ s. record {
      files = s.files.items;
      fails = s.fails;
      calls = s.calls;
      faults = s.faults;
    } };
}

impl MemStore {
    /// The calls whose numbers, from 1, are in `fails` are to fail. A call is one of `fetch` or of `put`.
    pub fn new(files: FileList, fails: Numbers) -> MemStore
        ensures { result ≡ record { files = files; fails = fails; calls = 0; faults = 0 } }
    {
        let FileList { items } = files;
        MemStore {
            files: items,
            fails,
            calls: 0,
            faults: 0,
        }
    }

    /// The bytes of the file with this name.
    pub fn file(&self, name: &str) -> Option<&[u8]>
        ensures { option_map (λ b. b.now) result ≡ file_of self.now.files name.now }
    {
        match place_of(self.files.as_slice(), name) {
            None => None,
            Some(k) => Some(self.files[k].bytes.as_slice()),
        }
    }

    /// Counts one call. Whether it is to fail.
    fn fails_now(&mut self) -> bool
        ensures failing { result ≡ is_failing self.old }
        ensures after { self.new ≡ called self.old }
        ensures rose { result ≡ true → Rose self.old.faults self.new.faults }
        ensures later { self.old.faults ≤ self.new.faults }
    {
        self.calls = self.calls.saturating_add(1);
        if is_listed(&self.fails, self.calls) {
            self.faults = self.faults.saturating_add(1);
            return true;
        }
        false
    }
}

impl Store for MemStore {
    ghost told = { λ s. Some (file_of s.files) };

    ghost faults = { λ s. s.faults };

    fn fetch(&mut self, alloc: Global, name: &str, limit: u32) -> Result<Option<Bytes>, FetchEnd>
        ensures file { Fetches (file_of self.old.files) name.now limit result }
        ensures kept { file_of self.new.files ≡ file_of self.old.files }
        ensures failed { IsErrOf result FetchEnd.Failed → Rose self.old.faults self.new.faults }
        ensures later { self.old.faults ≤ self.new.faults }

        ensures failing { IsErrOf result FetchEnd.Failed ↔ IsTrue (is_failing self.old) }
        ensures after { self.new ≡ called self.old }
    {
        if self.fails_now() {
            return Err(FetchEnd::Failed);
        }
        let Some(bytes) = self.file(name) else {
            return Ok(None);
        };
        if bytes.len() > limit as usize {
            return Err(FetchEnd::TooLong);
        }
        match Bytes::from_slice(alloc, bytes) {
            Err(_) => Err(FetchEnd::NoMemory),
            Ok(bytes) => Ok(Some(bytes)),
        }
    }

    fn put(&mut self, alloc: Global, name: &str, bytes: &[u8]) -> Result<(), PutEnd>
        ensures file { Puts (file_of self.old.files) (file_of self.new.files) name.now bytes.now result }
        ensures failed { IsErrOf result PutEnd.Failed → Rose self.old.faults self.new.faults }
        ensures later { self.old.faults ≤ self.new.faults }

        ensures failing { IsErrOf result PutEnd.Failed ↔ IsTrue (is_failing self.old) }
        ensures after { self.new ≡ record (called self.old) { files = self.new.files } }
    {
        if self.fails_now() {
            return Err(PutEnd::Failed);
        }
        match set_file(alloc, &mut self.files, name, bytes) {
            Err(_) => Err(PutEnd::NoMemory),
            Ok(()) => Ok(()),
        }
    }
}

/// The place of the first file with this name.
fn place_of(files: &[NamedFile], name: &str) -> Option<usize>
    ensures { result ≡ position (λ f. bytes_eq f.name name.now) files.now }
{
    files
        .iter()
        .position(|file| file.name.as_slice() == name.as_bytes())
}

/// Sets the bytes of the first file with this name, or makes the file.
fn set_file(
    alloc: Global,
    files: &mut Vec<NamedFile>,
    name: &str,
    bytes: &[u8],
) -> Result<(), NoMemory>
    ensures ok { OnOk result (file_of files.new.items ≡ with_file (file_of files.old.items) name.now bytes.now) }
    ensures err { OnErr result (files.new.items ≡ files.old.items) }
{
    let bytes = Bytes::from_slice(alloc, bytes)?;
    match place_of(files.as_slice(), name) {
        Some(k) => files[k].bytes = bytes,
        None => {
            let name = Bytes::from_slice(alloc, name.as_bytes())?;
            files.push(NamedFile { name, bytes })?;
        }
    }
    Ok(())
}
