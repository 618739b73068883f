//! Stores at work: files that are put and fetched, limits, and calls that fail.

use crate::{FetchEnd, FileList, FolderStore, MemStore, PutEnd, Store};
use dt_base::{Bytes, Numbers};
use std::alloc::Global;
use std::fs;
use std::test::Fail;

/// A folder of this test's own.
const FOLDER: &str = "dt_io_store_test";

/// Calls on a store: a file is put, with its bytes, or fetched, within a limit.
const CALLS: &str = "put dt_io_store_test/a 12
put dt_io_store_test/b 3
put dt_io_store_test/a 456
fetch dt_io_store_test/a 3
fetch dt_io_store_test/a 2
fetch dt_io_store_test/b 9
fetch dt_io_store_test/c 9";

#[test]
fn a_store_fails_at_its_listed_calls(rt: HostRuntime) -> Result<(), Fail> {
    let rows = [
        (0, "ok;ok;ok;456;TooLong;3;none;"),
        (1, "Failed;ok;ok;456;TooLong;3;none;"),
        (2, "ok;Failed;ok;456;TooLong;none;none;"),
        (3, "ok;ok;Failed;12;12;3;none;"),
        (4, "ok;ok;ok;Failed;TooLong;3;none;"),
        (5, "ok;ok;ok;456;Failed;3;none;"),
        (6, "ok;ok;ok;456;TooLong;Failed;none;"),
        (7, "ok;ok;ok;456;TooLong;3;Failed;"),
    ];
    for (failing, wanted) in rows {
        let fails = Numbers::from_slice(rt.alloc(), &[failing])?;
        let mut store = MemStore::new(FileList::new(rt.alloc()), fails);
        let said = answers(rt.alloc(), &mut store, CALLS)?;
        assert_eq!(rt; said.as_slice(), wanted.as_bytes(), "call {failing} fails");
    }
    Ok(())
}

#[test]
fn a_folder_is_a_store(rt: HostRuntime) -> Result<(), Fail> {
    let _ = fs::remove_dir_all(&rt, FOLDER);
    fs::create_dir(&rt, FOLDER)?;
    let rows = [
        (CALLS, "ok;ok;ok;456;TooLong;3;none;"),
        (
            "fetch dt_io_store_test 9\nput dt_io_store_test 1",
            "Failed;Failed;",
        ),
        (
            "put dt_io_store_test/c/d 1\nfetch dt_io_store_test/c/d 9",
            "Failed;none;",
        ),
    ];
    for (calls, wanted) in rows {
        let said = answers(rt.alloc(), &mut FolderStore::new(&rt), calls)?;
        assert_eq!(rt; said.as_slice(), wanted.as_bytes());
    }
    fs::remove_dir_all(&rt, FOLDER)?;
    Ok(())
}

/// The answers of calls, one after another.
fn answers<S: Store>(alloc: Global, store: &mut S, calls: &str) -> Result<Bytes, Fail> {
    let mut text = Bytes::new(alloc);
    for call in calls.lines() {
        let mut words = call.split(' ');
        let word = words.next().unwrap_or("");
        let name = words.next().unwrap_or("");
        let last = words.next().unwrap_or("");
        if word == "put" {
            text.append(put(alloc, store, name, last).as_bytes())?;
        } else {
            let limit = last.parse::<u32>().map_err(|_| "no limit")?;
            fetch(alloc, store, name, limit, &mut text)?;
        }
        text.append(b";")?;
    }
    Ok(text)
}

fn put<S: Store>(alloc: Global, store: &mut S, name: &str, bytes: &str) -> &'static str {
    match store.put(alloc, name, bytes.as_bytes()) {
        Ok(()) => "ok",
        Err(PutEnd::Failed) => "Failed",
        Err(PutEnd::NoMemory) => "no memory",
    }
}

fn fetch<S: Store>(
    alloc: Global,
    store: &mut S,
    name: &str,
    limit: u32,
    text: &mut Bytes,
) -> Result<(), Fail> {
    match store.fetch(alloc, name, limit) {
        Ok(Some(bytes)) => text.append(bytes.as_slice())?,
        Ok(None) => text.append(b"none")?,
        Err(FetchEnd::Failed) => text.append(b"Failed")?,
        Err(FetchEnd::TooLong) => text.append(b"TooLong")?,
        Err(FetchEnd::NoMemory) => text.append(b"no memory")?,
    }
    Ok(())
}
