//! The lines of statements.

ghost use Rattle.std.specs.Prelude.{◌≡◌, ◌++◌, length, OnOk};
ghost use Rattle.std.specs.List.{flat_map};
ghost use Rattle.dt_report.specs.PlanText.{derive_line, nest_line, part_text, parts_text, stmt_line};

use dt_base::{Bytes, NoMemory};
use dt_nest::{Derived, Sched, put_derived, put_nest};
use dt_plan::Part;
use std::alloc::Global;

/// Puts the lines of all statements at the end, each with its text.
pub(crate) fn put_parts(
    alloc: Global,
    out: &mut Bytes,
    parts: &[Part],
    heads: &[Bytes],
) -> Result<(), NoMemory>
    requires { length heads.now ≡ length parts.now }
    ensures { OnOk result (out.new ≡ out.old ++ parts_text parts.now heads.now) }
{
    for (number, part) in parts.iter().enumerate() {
        put_part(alloc, out, number, part, &heads[number])?;
    }
    Ok(())
}

/// Puts the lines of a statement at the end: its text, its replaced variables, and its nest.
fn put_part(
    alloc: Global,
    out: &mut Bytes,
    number: usize,
    part: &Part,
    head: &Bytes,
) -> Result<(), NoMemory>
    ensures { OnOk result (out.new ≡ out.old ++ part_text number part.now head.now) }
{
    put_stmt_line(out, number, head)?;
    put_derive_lines(
        out,
        number,
        &part.sched,
        part.sched.parts().derived.as_slice(),
    )?;
    put_nest_line(alloc, out, number, &part.sched)
}

fn put_stmt_line(out: &mut Bytes, number: usize, head: &Bytes) -> Result<(), NoMemory>
    ensures { OnOk result (out.new ≡ out.old ++ stmt_line number head.now) }
{
    out.append(b"stmt ")?;
    out.append_number(number)?;
    out.append(b" ")?;
    out.append(head.as_slice())?;
    out.append(b"\n")
}

fn put_derive_lines(
    out: &mut Bytes,
    number: usize,
    sched: &Sched,
    derives: &[Derived],
) -> Result<(), NoMemory>
    ensures { OnOk result (out.new ≡ out.old ++ flat_map (derive_line number sched.now) derives.now) }
{
    for derived in derives {
        put_derive_line(out, number, sched, derived)?;
    }
    Ok(())
}

fn put_derive_line(
    out: &mut Bytes,
    number: usize,
    sched: &Sched,
    derived: &Derived,
) -> Result<(), NoMemory>
    ensures { OnOk result (out.new ≡ out.old ++ derive_line number sched.now derived.now) }
{
    out.append(b"derive ")?;
    out.append_number(number)?;
    out.append(b" ")?;
    put_derived(out, sched, derived)?;
    out.append(b"\n")
}

fn put_nest_line(
    alloc: Global,
    out: &mut Bytes,
    number: usize,
    sched: &Sched,
) -> Result<(), NoMemory>
    ensures { OnOk result (out.new ≡ out.old ++ nest_line number sched.now) }
{
    out.append(b"nest ")?;
    out.append_number(number)?;
    out.append(b" ")?;
    put_nest(alloc, out, sched)?;
    out.append(b"\n")
}
