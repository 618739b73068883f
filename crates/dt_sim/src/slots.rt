//! Numbers of buffers among those of a node.

ghost use Rattle.std.specs.Prelude.{◌≡◌, ◌-◌, ◌<◌, ◌≤◌, ◌^◌, IfSome, if◌then◌else◌, length, nat_lt, position};
ghost use Rattle.dt_place.specs.Machines.{nodes_of};
ghost use Rattle.dt_plan.specs.Operations.{ops_of};
ghost use Rattle.dt_plan.specs.Bounds.{buffers_of};
ghost use Rattle.dt_plan.specs.declared.touches.Buffer.TheVariants.{Home, Scratch, Work};
ghost use Rattle.dt_events.specs.Conflicts.{is_same_buffer};
ghost use Rattle.dt_events.specs.Jobs.{op_at};
ghost use Rattle.dt_events.specs.Units.{scratch_of};
ghost use Rattle.dt_sim.specs.Memories.{number_in};
ghost use Rattle.dt_sim.specs.UnitsDone.{IsHome, IsScratch};

use crate::job::Job;
use dt_model::Locator;
use dt_plan::Buffer;

/// Whether two buffers are one.
fn is_same_buffer(a: Buffer, b: Buffer) -> bool
    ensures { result ≡ is_same_buffer a b }
{
    a == b
}

/// The place of a buffer among others.
fn place_of(buffers: &[Buffer], buffer: Buffer) -> Option<usize>
    ensures within { IfSome result (λ k. k < length buffers.now) }
    ensures value { result ≡ position (is_same_buffer buffer) buffers.now }
{
    buffers
        .iter()
        .position(|other| is_same_buffer(buffer, *other))
}

/// The number of a buffer among those of a node.
pub(crate) fn number_of(buffers: &[Buffer], buffer: Buffer) -> Option<u32>
    requires { length buffers.now ≤ 2 ^ 32 }
    ensures { result ≡ number_in buffers.now buffer }
{
    match place_of(buffers, buffer) {
        None => None,
        Some(place) => Some(place as u32),
    }
}

/// The number of the home of an operation's tensor, where a node has it.
pub(crate) fn home_of<L: Locator>(job: &Job<'_, L>, op: u32) -> Option<u32>
    requires exists { op < length (ops_of job.now) }
    requires node { (op_at (ops_of job.now) op).node < nodes_of job.now.machine }
    requires count { length (buffers_of job.now) ≤ 2 ^ 32 }
    ensures number { result ≡ number_in (buffers_of job.now) (Home (op_at (ops_of job.now) op).tensor) }
    ensures home { IfSome result (IsHome job.now op) }
{
    let op = job.op(op);
    let buffers = job.buffers(op.node);
    number_of(buffers, Buffer::Home(op.tensor))
}

/// The buffer that an operation's statement has for its tensor or workspace, where so many tensors are stored.
fn scratch_buffer(stmt: u32, number: u32, tensors: u32) -> Buffer
    ensures { result ≡ (if nat_lt number tensors then Scratch stmt number else Work stmt (number - tensors)) }
{
    if number < tensors {
        Buffer::Scratch(stmt, number)
    } else {
        Buffer::Work(stmt, number - tensors)
    }
}

/// The number of the scratch or workspace of an operation, where a node has it.
pub(crate) fn scratch_of<L: Locator>(job: &Job<'_, L>, op: u32, tensors: u32) -> Option<u32>
    requires exists { op < length (ops_of job.now) }
    requires node { (op_at (ops_of job.now) op).node < nodes_of job.now.machine }
    requires count { length (buffers_of job.now) ≤ 2 ^ 32 }
    requires tensors { tensors ≡ length job.now.stored }
    ensures number { result ≡ number_in (buffers_of job.now) (scratch_of job.now (op_at (ops_of job.now) op)) }
    ensures scratch { IfSome result (IsScratch job.now op) }
{
    let op = job.op(op);
    let buffers = job.buffers(op.node);
    number_of(buffers, scratch_buffer(op.stmt, op.tensor, tensors))
}
