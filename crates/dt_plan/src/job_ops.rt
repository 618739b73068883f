//! The operations of a job, and the buffers of its nodes.

ghost use Rattle.std.specs.Prelude.{◌≡◌, ◌<◌, ◌^◌, ◌++◌, [], IfOk, OnOk, length, map};
ghost use Rattle.std.specs.List.{flat_map, zip};
ghost use Rattle.dt_base.specs.Ranges.{below};
ghost use Rattle.dt_nest.specs.Paths.{tensors_in};
ghost use Rattle.dt_plan.specs.Bounds.{buffers_of};
ghost use Rattle.dt_plan.specs.Keeps.{Keeps};
ghost use Rattle.dt_plan.specs.Operations.{ops_of};
ghost use Rattle.dt_plan.specs.Statements.{FitsLayout};

use crate::brackets::push_brackets;
use crate::job_layout::JobLayout;
use crate::moved::{tensors_in, work_count};
use crate::ops::Ops;
use crate::parts::Part;
use crate::statement::Statement;
use crate::touches::Buffer;
use dt_base::NoMemory;
use dt_model::Locator;
use std::alloc::Global;

/// The operations of a job, or more than 8,192 of them where there are more.
pub fn listed<L: Locator>(alloc: Global, layout: &JobLayout<L>) -> Result<Ops, NoMemory>
    requires { FitsLayout layout.now }
    ensures { IfOk result (λ ops. Keeps [] (ops_of layout.now) ops) }
{
    let mut ops = Ops::new(alloc);
    for (number, part) in layout.parts.iter().enumerate() {
        let statement = Statement::of(alloc, &*layout, number as u32, part)?;
        push_brackets(alloc, &statement, &mut ops)?;
    }
    Ok(ops)
}

/// Puts the scratch of a statement's tensors at the end.
fn push_scratch(
    alloc: Global,
    stmt: u32,
    part: &Part,
    buffers: &mut Vec<Buffer>,
) -> Result<(), NoMemory>
    ensures { OnOk result (buffers.new.items ≡ buffers.old.items ++ map (Buffer.Scratch stmt) (tensors_in part.now.sched)) }
{
    let tensors = tensors_in(alloc, &part.sched)?;
    for tensor in tensors.as_slice() {
        buffers.push(Buffer::Scratch(stmt, *tensor))?;
    }
    Ok(())
}

/// Puts the workspaces of a statement at the end.
fn push_works(stmt: u32, part: &Part, buffers: &mut Vec<Buffer>) -> Result<(), NoMemory>
    ensures { OnOk result (buffers.new.items ≡ buffers.old.items ++ map (Buffer.Work stmt) (below (length part.now.sched.works))) }
{
    let works = work_count(&part.sched);
    for work in 0..works {
        buffers.push(Buffer::Work(stmt, work))?;
    }
    Ok(())
}

/// Puts the homes of so many tensors at the end.
fn push_homes(tensors: u32, buffers: &mut Vec<Buffer>) -> Result<(), NoMemory>
    ensures { OnOk result (buffers.new.items ≡ buffers.old.items ++ map Buffer.Home (below tensors)) }
{
    for tensor in 0..tensors {
        buffers.push(Buffer::Home(tensor))?;
    }
    Ok(())
}

/// Puts the scratch of all statements at the end.
fn push_all_scratch(
    alloc: Global,
    parts: &[Part],
    buffers: &mut Vec<Buffer>,
) -> Result<(), NoMemory>
    requires { length parts.now < 2 ^ 32 }
    ensures { OnOk result (buffers.new.items ≡ buffers.old.items ++ flat_map (λ x. map (Buffer.Scratch x.0) (tensors_in x.1.sched)) (zip (below (length parts.now)) parts.now)) }
{
    for (stmt, part) in parts.iter().enumerate() {
        push_scratch(alloc, stmt as u32, part, buffers)?;
    }
    Ok(())
}

/// Puts the workspaces of all statements at the end.
fn push_all_works(parts: &[Part], buffers: &mut Vec<Buffer>) -> Result<(), NoMemory>
    requires { length parts.now < 2 ^ 32 }
    ensures { OnOk result (buffers.new.items ≡ buffers.old.items ++ flat_map (λ x. map (Buffer.Work x.0) (below (length x.1.sched.works))) (zip (below (length parts.now)) parts.now)) }
{
    for (stmt, part) in parts.iter().enumerate() {
        push_works(stmt as u32, part, buffers)?;
    }
    Ok(())
}

/// The buffers that a node may have: homes by tensor, scratch by statement and tensor, workspaces by statement and number.
pub fn buffers_of<L: Locator>(alloc: Global, layout: &JobLayout<L>) -> Result<Vec<Buffer>, NoMemory>
    requires { FitsLayout layout.now }
    ensures { IfOk result (λ buffers. buffers.items ≡ buffers_of layout.now) }
{
    let mut buffers = Vec::new(alloc);
    push_homes(layout.homes.len() as u32, &mut buffers)?;
    push_all_scratch(alloc, layout.parts, &mut buffers)?;
    push_all_works(layout.parts, &mut buffers)?;
    Ok(buffers)
}
