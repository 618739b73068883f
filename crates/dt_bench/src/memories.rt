//! The words of one buffer of a node's memory, each asked for and then read, written or added to.

ghost use Rattle.std.specs.Prelude.{◌≤◌, ◌≡◌, ◌<◌, length};

use crate::case_end::CaseEnd;
use dt_base::NoMemory;
use dt_mem::{BufSpec, NodeMem};
use dt_runs::Runs;
use std::alloc::Global;

/// The most words of the buffer.
pub const MOST_WORDS: u32 = 1_000_000;

/// What is done with each word that the buffer holds.
#[derive(Clone, Copy)]
pub enum MemoryCall {
    Hold,
    Read,
    Write,
    Fold,
}

/// The words of the buffer and the order in which they are taken: one interval, or an interval for each two words, both in
/// ascending order, or these with a long way between each two.
#[derive(Clone, Copy)]
pub enum Spread {
    One,
    Many,
    Far,
}

impl MemoryCall {
    /// The call and the spread of a case, as `fold-one`.
    pub(crate) fn from_word(word: &str) -> Option<(MemoryCall, Spread)> {
        match word {
            "hold-one" => Some((MemoryCall::Hold, Spread::One)),
            "read-one" => Some((MemoryCall::Read, Spread::One)),
            "write-one" => Some((MemoryCall::Write, Spread::One)),
            "fold-one" => Some((MemoryCall::Fold, Spread::One)),
            "hold-many" => Some((MemoryCall::Hold, Spread::Many)),
            "read-many" => Some((MemoryCall::Read, Spread::Many)),
            "write-many" => Some((MemoryCall::Write, Spread::Many)),
            "fold-many" => Some((MemoryCall::Fold, Spread::Many)),
            "hold-far" => Some((MemoryCall::Hold, Spread::Far)),
            "fold-far" => Some((MemoryCall::Fold, Spread::Far)),
            _ => None,
        }
    }
}

/// What becomes of the buffer as a whole.
#[derive(Clone, Copy)]
pub enum BufferCall {
    /// It is absent.
    Absent,
    /// It begins.
    Begin,
    /// It begins and ends.
    End,
}

impl BufferCall {
    /// The call and the spread of a case, as `begin-one`.
    pub(crate) fn from_word(word: &str) -> Option<(BufferCall, Spread)> {
        match word {
            "absent-one" => Some((BufferCall::Absent, Spread::One)),
            "begin-one" => Some((BufferCall::Begin, Spread::One)),
            "end-one" => Some((BufferCall::End, Spread::One)),
            "absent-many" => Some((BufferCall::Absent, Spread::Many)),
            "begin-many" => Some((BufferCall::Begin, Spread::Many)),
            "end-many" => Some((BufferCall::End, Spread::Many)),
            _ => None,
        }
    }
}

/// Makes a memory of one buffer with so many words, and does the call with the buffer.
pub(crate) fn buffer(
    alloc: Global,
    call: BufferCall,
    spread: Spread,
    size: u32,
) -> Result<u32, CaseEnd>
    requires { size ≤ MOST_WORDS }
{
    let words = words_of(alloc, spread, size)?;
    let specs = [BufSpec {
        words: words.count(),
        cost: 1,
    }];
    let mut mem = NodeMem::new(alloc, &specs)?;
    match call {
        BufferCall::Absent => {}
        BufferCall::Begin => mem.begin(0, &words),
        BufferCall::End => {
            mem.begin(0, &words);
            mem.end(0);
        }
    }
    Ok((mem.live().wrapping_add(mem.sum()) % 1_000_000_007) as u32)
}

/// Does the call with each word of a buffer of so many words, and mixes what was read.
pub(crate) fn memory(
    alloc: Global,
    call: MemoryCall,
    spread: Spread,
    size: u32,
) -> Result<u32, CaseEnd>
    requires { size ≤ MOST_WORDS }
{
    let words = words_of(alloc, spread, size)?;
    let specs = [BufSpec {
        words: words.count(),
        cost: 1,
    }];
    let mut mem = NodeMem::new(alloc, &specs)?;
    mem.begin(0, &words);
    let mut mixed = 0;
    match spread {
        Spread::Far => {
            let rows = u64::from(size / 2);
            for k in 0..rows {
                mixed ^= done(&mut mem, call, (k * 7919 % rows * 5) as u32);
            }
        }
        _ => {
            for interval in words.intervals() {
                for pos in interval.first..interval.end {
                    mixed ^= done(&mut mem, call, pos);
                }
            }
        }
    }
    Ok(mixed)
}

/// The words of the buffer: all below a number, or 0 and 1 of each 5.
fn words_of(alloc: Global, spread: Spread, size: u32) -> Result<Runs, NoMemory>
    requires { size ≤ MOST_WORDS }
{
    match spread {
        Spread::One => Runs::of_box(alloc, &[size], &[0], &[size]),
        _ => Runs::of_box(alloc, &[size / 2, 5], &[0, 0], &[size / 2, 2]),
    }
}

/// Does the call with a word, where the buffer holds it.
fn done(mem: &mut NodeMem<'_>, call: MemoryCall, pos: u32) -> u32
    requires { 0 < length mem.old }
    ensures { length mem.new ≡ length mem.old }
{
    if !mem.holds(0, pos) {
        return 0;
    }
    match call {
        MemoryCall::Hold => 1,
        MemoryCall::Read => (mem.read(0, pos) % 1000) as u32,
        MemoryCall::Write => {
            mem.write(0, pos, 7);
            1
        }
        MemoryCall::Fold => {
            mem.fold(0, pos, 7);
            1
        }
    }
}
