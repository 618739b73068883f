//! What a node needs of a tensor, and where that comes from.

ghost use Rattle.std.specs.Prelude.{◌≡◌, ◌<◌, IfOk, List, length};
ghost use Rattle.dt_model.specs.declared.stmt.Stmt.{Stmt};
ghost use Rattle.dt_place.specs.Machines.{nodes_of};
ghost use Rattle.dt_job.specs.Jobs.{IsJob};

use dt_base::NoMemory;
use dt_bounds::{is_path, needed};
use dt_copy::{Pieces, pieces};
use dt_job::Job;
use dt_place::{Homes, homes_on};
use dt_runs::Runs;
use std::alloc::Global;

/// The words of a tensor that a path needs, and the same words by their sources.
#[derive(Debug, Drop)]
pub struct Wanted {
    pub need: Runs,
    pub pieces: Pieces,
}

/// The homes of a tensor of the job, one for each node.
fn homes(alloc: Global, job: &Job, tensor: u32) -> Result<Homes, NoMemory>
    requires job { (stmts : List Stmt) × IsJob stmts job.now }
    requires tensor { tensor < length job.now.tensors }
    ensures { IfOk result (λ homes. length homes ≡ nodes_of job.now.machine) }
{
    let placement = &job.places.as_slice()[tensor as usize];
    homes_on(alloc, placement, &job.machine, &job.tensors, tensor)
}

/// What a node copies of a tensor for a path of the job's first statement, and none where one of them isn't there.
pub fn copies(
    alloc: Global,
    job: &Job,
    tensor: u32,
    path: &[u32],
    node: u32,
) -> Result<Option<Wanted>, NoMemory>
    requires { (stmts : List Stmt) × IsJob stmts job.now }
{
    match job.parts.as_slice() {
        [] => Ok(None),
        [part, ..] => {
            if tensor as usize >= job.tensors.len() || node >= job.machine.nodes() {
                return Ok(None);
            }
            if !is_path(&part.sched, path) {
                return Ok(None);
            }
            let need = needed(alloc, &part.sched, &job.tensors, tensor, path)?;
            let homes = homes(alloc, job, tensor)?;
            let pieces = pieces(alloc, &need, homes.as_slice(), node)?;
            Ok(Some(Wanted { need, pieces }))
        }
    }
}
