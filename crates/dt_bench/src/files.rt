//! The file of a matrix, written and read.

ghost use Rattle.std.specs.Prelude.{◌≤◌};

use crate::case_end::CaseEnd;
use crate::levels::{MOST_ENTRIES, matrix};
use dt_files::{read_rows, write_rows};
use std::alloc::Global;

/// What is done with the file.
#[derive(Clone, Copy)]
pub enum FileCall {
    /// It is written. The answer is how many bytes it has.
    Write,
    /// And read. The answer is how many entries it has.
    Read,
}

impl FileCall {
    pub(crate) fn from_word(word: &str) -> Option<FileCall> {
        match word {
            "write-rows" => Some(FileCall::Write),
            "read-rows" => Some(FileCall::Read),
            _ => None,
        }
    }
}

/// Does the call with the file of a matrix that stores so many numbers.
pub fn files(alloc: Global, call: FileCall, count: u32) -> Result<u32, CaseEnd>
    requires { count ≤ MOST_ENTRIES }
{
    let tensor = matrix(alloc, count)?;
    let bytes = write_rows(alloc, &tensor)?;
    match call {
        FileCall::Write => Ok(counted(bytes.as_slice().len())),
        FileCall::Read => match read_rows(alloc, bytes.as_slice(), 2) {
            Err(_) => Err(CaseEnd::Refused),
            Ok(entries) => Ok(counted(entries.as_slice().len())),
        },
    }
}

fn counted(count: usize) -> u32 {
    u32::try_from(count).unwrap_or(u32::MAX)
}
