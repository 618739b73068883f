//! One unit of a task, on the memory of its node.

ghost use Rattle.std.specs.Prelude.{◌≡◌, ◌+◌, length};
ghost use Rattle.dt_plan.specs.declared.kind.Kind.TheVariants as kind;
ghost use Rattle.dt_plan.specs.Operations.{items_of, ops_of};
ghost use Rattle.dt_events.specs.Jobs.{op_at};
ghost use Rattle.dt_events.specs.Units.{of_unit};
ghost use Rattle.dt_sim.specs.TaskItems.{IsTaskOver};
ghost use Rattle.dt_sim.specs.UnitsDone.{DoesUnit, IsDue};

use crate::job::Job;
use dt_leaf::visit;
use dt_mem::NodeMem;
use dt_model::Locator;
use dt_nest::Visits;

/// A task's item, which is the last of its visits. `slots` has the buffers of its statement, and `values` is room for the values of
/// all variables.
pub(crate) fn task_unit<'p, L: Locator>(
    job: &Job<'p, L>,
    mems: &mut Vec<NodeMem<'p>>,
    op: u32,
    unit: u32,
    at: &Visits<L>,
    slots: &[u32],
    values: &mut [Option<u32>],
)
    requires due { IsDue job.now op kind.Task (unit + 1) mems.old.items }
    requires last { at.now.last ≡ of_unit (items_of job.now (op_at (ops_of job.now) op)) (unit + 1) }
    requires over { IsTaskOver job.now (op_at (ops_of job.now) op) at.now mems.old.items slots.now (length values.old) }
    ensures done { DoesUnit job.now op (unit + 1) mems.old.items mems.new.items }
    ensures room { length values.new ≡ length values.old }
{
    let op = job.op(op);
    let part = &job.parts[op.stmt as usize];
    let mem = &mut mems[op.node as usize];
    visit(mem, &part.sched, job.loc, at, slots, values);
}
