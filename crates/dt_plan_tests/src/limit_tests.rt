//! Limits of plans: the most operations, one statement more, and too many visits.

use crate::plans::{Planned, job_plan, put_counts};
use dt_base::{Bytes, NoMemory};
use dt_plan::PlanEnd;
use std::alloc::Global;
use std::test::Fail;

/// Loops of 1, 2,048, 1 and 2,049: 2,048 visits past the limit.
const MORE_VISITS: &[u8] = b"distal 1
machine 1
tensor a 1x1
tensor b 1x1
stmt a(i,j) = b(i,j)
split i io ii 2048
split j jo ji 2049
end
";

/// Two vectors on 64 nodes.
const VECTORS: &[u8] = b"distal 1
machine 64
tensor a 64
tensor b 64
place a x -> x
place b x -> x
";

/// A statement that has eight operations on each of 64 nodes.
const STATEMENT: &[u8] = b"stmt a(i) = b(i)
divide i io ii 64
distribute io
end
";

/// The name of a limit.
fn name_of(end: PlanEnd) -> &'static [u8] {
    match end {
        PlanEnd::TooManyVisits => b"TooManyVisits",
        PlanEnd::TooManyWords => b"TooManyWords",
        PlanEnd::TooManyOps => b"TooManyOps",
        PlanEnd::TooManyUnits => b"TooManyUnits",
        PlanEnd::NoMemory => b"NoMemory",
    }
}

/// What comes of planning a job.
fn said_of(alloc: Global, text: &[u8]) -> Result<Bytes, Fail> {
    let mut out = Bytes::new(alloc);
    match job_plan(alloc, text)? {
        Planned::Made(_job, plan) => put_counts(&mut out, &plan)?,
        Planned::Passes(end) => out.append(name_of(end))?,
    }
    Ok(out)
}

/// A job of so many statements, each with 512 operations.
fn statements(alloc: Global, count: u32) -> Result<Bytes, NoMemory> {
    let mut text = Bytes::new(alloc);
    text.append(VECTORS)?;
    for _i in 0..count {
        text.append(STATEMENT)?;
    }
    Ok(text)
}

#[test]
fn the_first_limit_that_is_passed_is_told(rt: HostRuntime) -> Result<(), Fail> {
    let full = statements(rt.alloc(), 16)?;
    let past = statements(rt.alloc(), 17)?;
    let rows = [
        (MORE_VISITS, "TooManyVisits"),
        (full.as_slice(), "ops 8192 units 8192"),
        (past.as_slice(), "TooManyOps"),
    ];
    for (text, wanted) in rows {
        let said = said_of(rt.alloc(), text)?;
        assert!(rt; said.as_slice() == wanted.as_bytes(), "at {wanted}");
    }
    Ok(())
}
