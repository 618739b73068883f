//! One unit of an operation that is no task, on the memories of the nodes.

ghost use Rattle.std.specs.Prelude.{◌≡◌, ◌+◌, ◌<◌, ◌≤◌, length};
ghost use Rattle.dt_mem.specs.Memory.{room_at};
ghost use Rattle.dt_plan.specs.declared.kind.Kind.TheVariants as kind;
ghost use Rattle.dt_plan.specs.Operations.{ops_of};
ghost use Rattle.dt_events.specs.Jobs.{op_at};
ghost use Rattle.dt_sim.specs.Memories.{memory_at};
ghost use Rattle.dt_sim.specs.UnitsDone.{DoesUnit, IsDue, IsHome, IsScratch};

use crate::job::Job;
use crate::memories::{begin_on, end_on, fold_on, read_on, write_on, zero_words};
use dt_mem::NodeMem;
use dt_model::Locator;

/// A home becomes 0.
pub(crate) fn zero_unit<'p, L: Locator>(
    job: &Job<'p, L>,
    mems: &mut Vec<NodeMem<'p>>,
    op: u32,
    home: u32,
)
    requires due { IsDue job.now op kind.Zero 1 mems.old.items }
    requires home { IsHome job.now op home }
    ensures { DoesUnit job.now op 1 mems.old.items mems.new.items }
{
    let op = job.op(op);
    zero_words(mems, op.node, home, &op.words);
}

/// Scratch is opened with its words, which are 0.
pub(crate) fn alloc_unit<'p, L: Locator>(
    job: &Job<'p, L>,
    mems: &mut Vec<NodeMem<'p>>,
    op: u32,
    scratch: u32,
)
    requires due { IsDue job.now op kind.Alloc 1 mems.old.items }
    requires scratch { IsScratch job.now op scratch }
    requires exists { scratch < length (memory_at mems.old.items (op_at (ops_of job.now) op).node) }
    requires room { length (op_at (ops_of job.now) op).words ≤ room_at (memory_at mems.old.items (op_at (ops_of job.now) op).node) scratch }
    ensures { DoesUnit job.now op 1 mems.old.items mems.new.items }
{
    let op = job.op(op);
    begin_on(mems, op.node, scratch, &op.words);
}

/// Scratch is closed.
pub(crate) fn free_unit<'p, L: Locator>(
    job: &Job<'p, L>,
    mems: &mut Vec<NodeMem<'p>>,
    op: u32,
    scratch: u32,
)
    requires due { IsDue job.now op kind.Free 1 mems.old.items }
    requires scratch { IsScratch job.now op scratch }
    ensures { DoesUnit job.now op 1 mems.old.items mems.new.items }
{
    let op = job.op(op);
    end_on(mems, op.node, scratch);
}

/// A word of scratch becomes that of a home.
pub(crate) fn copy_unit<'p, L: Locator>(
    job: &Job<'p, L>,
    mems: &mut Vec<NodeMem<'p>>,
    op: u32,
    unit: u32,
    home: u32,
    scratch: u32,
)
    requires due { IsDue job.now op kind.Copy (unit + 1) mems.old.items }
    requires home { IsHome job.now op home }
    requires scratch { IsScratch job.now op scratch }
    ensures { DoesUnit job.now op (unit + 1) mems.old.items mems.new.items }
{
    let op = job.op(op);
    match op.words.at(unit) {
        None => {}
        Some(word) => {
            let value = read_on(mems.as_slice(), op.other, home, word);
            write_on(mems, op.node, scratch, word, value);
        }
    }
}

/// A word of a home grows by that of scratch.
pub(crate) fn fold_unit<'p, L: Locator>(
    job: &Job<'p, L>,
    mems: &mut Vec<NodeMem<'p>>,
    op: u32,
    unit: u32,
    home: u32,
    scratch: u32,
)
    requires due { IsDue job.now op kind.Fold (unit + 1) mems.old.items }
    requires home { IsHome job.now op home }
    requires scratch { IsScratch job.now op scratch }
    ensures { DoesUnit job.now op (unit + 1) mems.old.items mems.new.items }
{
    let op = job.op(op);
    match op.words.at(unit) {
        None => {}
        Some(word) => {
            let amount = read_on(mems.as_slice(), op.node, scratch, word);
            fold_on(mems, op.other, home, word, amount);
        }
    }
}
