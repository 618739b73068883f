//! Runs one call at a size, and prints its answer. The words are a case and its size: for sorted sets a number of
//! intervals, as in `meet 10000`, for homes the rows of a matrix, as in `homes 64`, for needed words and for visits
//! the rows of a product's matrices, as in `needs 64` and `visits 64`. It prints no times: the scripts under bench/ count instructions.
#![tactic(auto)]

mod case;
mod case_end;
mod dots;
mod files;
mod homes;
mod jobs;
mod leaves;
mod levels;
mod memories;
mod needs;
mod paired;
mod walk;

use case::{Case, answer};
use case_end::CaseEnd;
use files::{FileCall, files};
use homes::homes;
use leaves::{NodeStep, node};
use levels::{levels, levels_case};
use memories::{BufferCall, MemoryCall, buffer, memory};
use needs::needs;
use paired::{Paired, paired_sum};
use std::alloc::Global;
use std::process::ExitCode;
use std::{env, io};
use walk::{Walk, walked};

fn main(rt: HostRuntime) -> io::Result<ExitCode> {
    let mut words = Vec::new(rt.alloc());
    for word in env::args(&rt)?.skip(1) {
        words.push(word)?;
    }
    if words.len() != 2 {
        return Ok(ExitCode::from(1));
    }
    let Ok(size) = words[1].as_str().parse::<u32>() else {
        return Ok(ExitCode::from(1));
    };
    match run(rt.alloc(), words[0].as_str(), size) {
        Ok(number) => {
            println!(rt; "{} {size}: {number}", words[0])?;
            Ok(ExitCode::from(0))
        }
        Err(CaseEnd::Refused) => Ok(ExitCode::from(1)),
        Err(CaseEnd::NoMemory) => Ok(ExitCode::from(2)),
    }
}

/// The answer of the case with this word.
fn run(alloc: Global, word: &str, size: u32) -> Result<u32, CaseEnd> {
    if let Some(only_matrix) = homes_case(word) {
        if size > homes::MOST_ROWS {
            return Err(CaseEnd::Refused);
        }
        return homes(alloc, size, only_matrix);
    }
    if let Some(only_job) = needs_case(word) {
        if size > needs::MOST_ROWS {
            return Err(CaseEnd::Refused);
        }
        return needs(alloc, size, only_job);
    }
    if let Some(walk) = Walk::from_word(word) {
        if size > walk::LARGEST_EXTENT {
            return Err(CaseEnd::Refused);
        }
        return walked(alloc, walk, size);
    }
    if let Some(end) = paired_case(alloc, word, size) {
        return end;
    }
    if let Some(step) = NodeStep::from_word(word) {
        if size > leaves::LARGEST_EXTENT {
            return Err(CaseEnd::Refused);
        }
        return node(alloc, step, size);
    }
    if let Some(end) = memory_case(alloc, word, size) {
        return end;
    }
    if let Some(end) = stored_case(alloc, word, size) {
        return end;
    }
    match Case::from_word(word) {
        None => Err(CaseEnd::Refused),
        Some(case) => {
            if size > case::LARGEST {
                return Err(CaseEnd::Refused);
            }
            Ok(answer(alloc, case, size)?)
        }
    }
}

/// The answer where the word is a case of a nest whose loop is split and collapsed again and again.
fn paired_case(alloc: Global, word: &str, size: u32) -> Option<Result<u32, CaseEnd>> {
    let nest = Paired::from_word(word)?;
    if size > paired::LARGEST_EXTENT {
        return Some(Err(CaseEnd::Refused));
    }
    Some(paired_sum(alloc, nest, size))
}

/// The answer where the word is a case of a node's memory.
fn memory_case(alloc: Global, word: &str, size: u32) -> Option<Result<u32, CaseEnd>> {
    if size > memories::MOST_WORDS {
        return None;
    }
    if let Some((call, spread)) = BufferCall::from_word(word) {
        return Some(buffer(alloc, call, spread, size));
    }
    let (call, spread) = MemoryCall::from_word(word)?;
    Some(memory(alloc, call, spread, size))
}

/// The answer where the word is a case of levels or of files.
fn stored_case(alloc: Global, word: &str, size: u32) -> Option<Result<u32, CaseEnd>> {
    if size > levels::MOST_ENTRIES {
        return None;
    }
    if let Some((call, mix)) = levels_case(word) {
        return Some(levels(alloc, call, mix, size));
    }
    let call = FileCall::from_word(word)?;
    Some(files(alloc, call, size))
}

/// Whether only the matrix is to be built, where the word is a case of homes.
fn homes_case(word: &str) -> Option<bool> {
    match word {
        "matrix" => Some(true),
        "homes" => Some(false),
        _ => None,
    }
}

/// Whether only the job is to be read, where the word is a case of needed words.
fn needs_case(word: &str) -> Option<bool> {
    match word {
        "job" => Some(true),
        "needs" => Some(false),
        _ => None,
    }
}
