//! Sources and sinks of bytes, and stores of files, that count their faults. Out: all bytes of a source up to a limit, by
//! `read_all`; a text in a sink, by `write_all`; a file of a store, by `fetch` and `put`. A fault is reported only where
//! the count rose in the call.
#![tactic(auto)]

mod copying;
mod ends;
mod files;
mod folder;
mod mem_store;
mod memory;
mod reading;
mod standard;
mod store;
mod traits;
mod writing;

pub use ends::{Failed, FetchEnd, PutEnd, ReadEnd};
pub use files::{FileList, NamedFile};
pub use folder::FolderStore;
pub use mem_store::MemStore;
pub use memory::{MemSink, MemSource};
pub use reading::read_all;
pub use standard::{StdSink, StdSource};
pub use store::Store;
pub use traits::{Sink, Source};
pub use writing::write_all;

#[cfg(test)]
mod store_tests;
#[cfg(test)]
mod tests;
