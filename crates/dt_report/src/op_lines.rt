//! The lines of operations.

ghost use Rattle.std.specs.Prelude.{◌≡◌, ◌++◌, OnOk};
ghost use Rattle.dt_report.specs.PlanText.{held_text, kind_word, moved_text, op_line, op_text, ops_text, origin_text, rest_text};

use crate::words::{put_path, put_words};
use dt_base::{Bytes, NoMemory};
use dt_nest::{Sched, tensor_name};
use dt_plan::{Kind, Op, Part};

/// Puts the line of an operation at the end, under its statement's schedule: its number in the listing, statement, node, path
/// and kind, and then the units of a task, else a tensor with its words.
pub fn put_op(out: &mut Bytes, sched: &Sched, number: usize, op: &Op) -> Result<(), NoMemory>
    ensures { OnOk result (out.new ≡ out.old ++ op_text sched.now number op.now) }
{
    put_origin(out, number, op)?;
    out.append(b" ")?;
    out.append(kind_word(op.kind))?;
    out.append(b" ")?;
    put_rest(out, sched, op)?;
    out.append(b"\n")
}

fn put_origin(out: &mut Bytes, number: usize, op: &Op) -> Result<(), NoMemory>
    ensures { OnOk result (out.new ≡ out.old ++ origin_text number op.now) }
{
    out.append(b"op ")?;
    out.append_number(number)?;
    out.append(b" ")?;
    out.append_number(op.stmt)?;
    out.append(b" ")?;
    out.append_number(op.node)?;
    out.append(b" ")?;
    put_path(out, &op.path)
}

fn kind_word(kind: Kind) -> &'static [u8]
    ensures { result.now ≡ kind_word kind }
{
    match kind {
        Kind::Zero => b"zero",
        Kind::Alloc => b"alloc",
        Kind::Copy => b"copy",
        Kind::Task => b"task",
        Kind::Fold => b"fold",
        Kind::Free => b"free",
    }
}

fn put_rest(out: &mut Bytes, sched: &Sched, op: &Op) -> Result<(), NoMemory>
    ensures { OnOk result (out.new ≡ out.old ++ rest_text op.now.kind sched.now op.now) }
{
    match op.kind {
        Kind::Zero => put_held(out, sched, op),
        Kind::Alloc => put_held(out, sched, op),
        Kind::Copy => put_moved(out, sched, op, b" from "),
        Kind::Task => out.append_number(op.units),
        Kind::Fold => put_moved(out, sched, op, b" to "),
        Kind::Free => put_held(out, sched, op),
    }
}

fn put_held(out: &mut Bytes, sched: &Sched, op: &Op) -> Result<(), NoMemory>
    ensures { OnOk result (out.new ≡ out.old ++ held_text sched.now op.now) }
{
    let name = tensor_name(sched.parts(), op.tensor);
    out.append(name.as_slice())?;
    out.append(b" ")?;
    put_words(out, &op.words)
}

/// Puts a tensor, the other node behind `between`, and the words.
fn put_moved(out: &mut Bytes, sched: &Sched, op: &Op, between: &[u8]) -> Result<(), NoMemory>
    ensures { OnOk result (out.new ≡ out.old ++ moved_text sched.now op.now between.now) }
{
    let name = tensor_name(sched.parts(), op.tensor);
    out.append(name.as_slice())?;
    out.append(between)?;
    out.append_number(op.other)?;
    out.append(b" ")?;
    put_words(out, &op.words)
}

/// Puts a line for each operation at the end, each under the schedule of its statement.
pub(crate) fn put_ops(out: &mut Bytes, parts: &[Part], ops: &[Op]) -> Result<(), NoMemory>
    ensures { OnOk result (out.new ≡ out.old ++ ops_text parts.now ops.now) }
{
    for (number, op) in ops.iter().enumerate() {
        put_op_of(out, parts, number, op)?;
    }
    Ok(())
}

fn put_op_of(out: &mut Bytes, parts: &[Part], number: usize, op: &Op) -> Result<(), NoMemory>
    ensures { OnOk result (out.new ≡ out.old ++ op_line parts.now number op.now) }
{
    match parts.get(op.stmt as usize) {
        None => Ok(()),
        Some(part) => put_op(out, &part.sched, number, op),
    }
}
