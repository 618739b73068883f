//! A line `stmt`.

ghost use Rattle.dt_job.specs.Stops.{Says};
ghost use Rattle.dt_job.specs.StmtLine.{stmt_line};

use crate::draft::Draft;
use crate::line_stop::LineStop;
use crate::scheduled::Scheduled;
use dt_index::parse_stmt;
use dt_model::Cause;
use std::alloc::Global;

/// `stmt TEXT`
#[tactic(auto, unfolding(crate::specs::StmtLine::stmt_line))]
pub fn read_stmt(alloc: Global, draft: &mut Draft, text: &[u8]) -> Result<(), LineStop>
    ensures { Says (λ _. draft.new) result (stmt_line draft.old text.now) }
{
    if !draft.phase().takes_stmt() {
        return Err(LineStop::Refused(Cause::OutOfPlace));
    }
    let (stmt, vars) = parse_stmt(alloc, text, draft.declared())?;
    if draft.closed_count() >= 32 {
        return Err(LineStop::Refused(Cause::TooManyStatements));
    }
    let scheduled = Scheduled::new(alloc, stmt, &vars, draft.declared().names())?;
    draft.open(scheduled);
    Ok(())
}
