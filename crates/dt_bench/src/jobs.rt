//! Jobs over square matrices, by the number of their rows.

ghost use Rattle.std.specs.Prelude.{IfOk, List};
ghost use Rattle.dt_model.specs.declared.stmt.Stmt.{Stmt};
ghost use Rattle.dt_job.specs.Jobs.{IsJob};

use crate::case_end::CaseEnd;
use dt_job::{Job, read_job};
use itoa::Buffer;
use std::alloc::Global;

/// The product of two matrices as a cube of its summands, its three loops cut by splits of 8. All three variables are on
/// the left, so each has a value at every visit.
pub const TILED: &[u8] = b"distal 1
machine 1
tensor A #x#x#
tensor B #x#
tensor C #x#
stmt A(i,j,k) = B(i,k) * C(k,j)
split i io ii 8
split j jo ji 8
split k ko ki 8
reorder io jo ko ii ji ki
end
";

/// The product of two matrices after SUMMA, on a grid of 4x4 nodes, in four steps.
pub const SUMMA: &[u8] = b"distal 1
machine 4x4
tensor A #x#
tensor B #x#
tensor C #x#
place A xy -> xy
place B xy -> xy
place C xy -> xy
stmt A(i,j) = B(i,k) * C(k,j)
divide i io ii 4
divide j jo ji 4
reorder io jo ii ji
divide k ko ki 4
reorder ko ii ji
distribute io jo
communicate jo A
communicate ko B C
end
";

/// The job of a text with this number in place of each `#`.
pub fn job_of_size(alloc: Global, text: &[u8], size: u32) -> Result<Job, CaseEnd>
    ensures { IfOk result (λ job. (stmts : List Stmt) × IsJob stmts job) }
{
    let mut buffer = Buffer::new();
    let digits = buffer.format(size).as_bytes();
    let mut whole = Vec::new(alloc);
    for byte in text {
        if *byte == b'#' {
            whole.extend_from_slice(digits)?;
        } else {
            whole.push(*byte)?;
        }
    }
    if whole.len() > 10_000 {
        return Err(CaseEnd::Refused);
    }
    Ok(read_job(alloc, whole.as_slice())?)
}
