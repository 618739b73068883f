//! The visits of nests after commands, with values worked out by hand.

use crate::visits::values;
use dt_base::NoMemory;
use dt_job::read_job;
use std::alloc::Global;
use std::test::Fail;

/// A sum over all of its variables, so that each has a value at every visit.
const HEAD: &[u8] = b"distal 1
machine 1
tensor A 2x3
tensor B 2x3
stmt A(i,j) = B(i,j)
";

const FOOT: &[u8] = b"end
";

/// The job with these commands.
fn text_with(alloc: Global, commands: &[u8]) -> Result<Vec<u8>, NoMemory> {
    let mut text = Vec::from_slice(alloc, HEAD)?;
    text.extend_from_slice(commands)?;
    text.extend_from_slice(FOOT)?;
    Ok(text)
}

/// The values of `i` and `j` at each visit after these commands.
fn values_after(alloc: Global, commands: &[u8]) -> Result<Vec<u64>, Fail> {
    let text = text_with(alloc, commands)?;
    if text.len() > 10_000 {
        return Err("too long")?;
    }
    let Ok(job) = read_job(alloc, text.as_slice()) else {
        return Err("no job")?;
    };
    match job.parts.as_slice() {
        [] => Err("no part")?,
        [part, ..] => Ok(values(alloc, &part.sched, &job.tensors)?),
    }
}

#[test]
fn variables_have_their_values_whatever_was_cut(rt: HostRuntime) -> Result<(), Fail> {
    let rows: [(&[u8], [u64; 12]); 6] = [
        (b"", [0, 0, 0, 1, 0, 2, 1, 0, 1, 1, 1, 2]),
        (b"reorder j i\n", [0, 0, 1, 0, 0, 1, 1, 1, 0, 2, 1, 2]),
        (b"collapse i j f\n", [0, 0, 0, 1, 0, 2, 1, 0, 1, 1, 1, 2]),
        (b"rotate j i r\n", [0, 0, 0, 1, 0, 2, 1, 1, 1, 2, 1, 0]),
        // The value 3 of j is left out.
        (
            b"split j jo ji 2\nreorder jo i ji\n",
            [0, 0, 0, 1, 1, 0, 1, 1, 0, 2, 1, 2],
        ),
        // The values 6 and 7 of f are left out, before its quotient and its rest are taken.
        (
            b"collapse i j f\nsplit f fo fi 4\n",
            [0, 0, 0, 1, 0, 2, 1, 0, 1, 1, 1, 2],
        ),
    ];
    for (commands, wanted) in rows {
        let list = values_after(rt.alloc(), commands)?;
        assert!(rt; list.as_slice() == wanted.as_slice());
    }
    Ok(())
}
