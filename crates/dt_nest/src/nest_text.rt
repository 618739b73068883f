//! The text of a schedule's nest, and of its derivations.

ghost use Rattle.std.specs.Prelude.{◌≡◌, ◌++◌, ◌∷◌, ◌&&◌, [], codes, length, map, if◌then◌else◌, IfOk, OnOk};
ghost use Rattle.std.specs.Fmt.{decimal};
ghost use Rattle.std.specs.List.{flat_map};
ghost use Rattle.dt_nest.specs.declared.derivations.Derive.TheVariants.{Rotate};
ghost use Rattle.dt_nest.specs.CommunicateLoops.{communicate_loop};
ghost use Rattle.dt_nest.specs.Questions.{accesses_tensor};
ghost use Rattle.dt_nest.specs.NestTexts.{bracketed, communicated_at, communicated_text, derived_text, distributed_text, form_text, is_same_place, leaf_text, nest_text, tree_text, walk_text};
ghost use Rattle.dt_nest.specs.PartNames.{name_of as loop_name, tensor_name as name_of_tensor};
ghost use Rattle.dt_nest.specs.Schedule.{seen};
ghost use Rattle.dt_nest.specs.Tree.{tree_of};

use crate::communicate_loops::communicate_loop;
use crate::derivations::{Derive, Derived};
use crate::loops::{Kernel, Nest, Walk};
use crate::part_names::{name_of, tensor_name, work_name};
use crate::parts::SchedParts;
use crate::questions::accesses_tensor;
use crate::schedules::Sched;
use dt_base::{Bytes, NoMemory, Vars};
use std::alloc::Global;

/// Puts the text of a schedule's nest at the end: the loops from the outermost, each with its extent, then `!` where it is
/// distributed, `~B` where it walks B, and in brackets the tensors of the statement that are communicated there. Those of the
/// root come first.
pub fn put_nest(alloc: Global, out: &mut Bytes, sched: &Sched) -> Result<(), NoMemory>
    ensures { OnOk result (out.new ≡ out.old ++ nest_text sched.now) }
{
    put_communicated(alloc, out, sched, None, b" ")?;
    let parts = sched.parts();
    put_tree(alloc, out, sched, parts.distributed, &parts.nest)
}

/// Puts the text of a derivation at the end: the variable and how it follows from others, as in `i = io*2+ii`.
pub fn put_derived(out: &mut Bytes, sched: &Sched, derived: &Derived) -> Result<(), NoMemory>
    ensures { OnOk result (out.new ≡ out.old ++ derived_text sched.now derived.now) }
{
    let parts = sched.parts();
    put_loop_name(out, parts, derived.var)?;
    out.append(b" = ")?;
    put_form(out, parts, &derived.how)
}

/// Whether both are the root, or the same loop.
fn is_same_place(a: Option<u32>, b: Option<u32>) -> bool
    ensures { result ≡ is_same_place a b }
{
    match (a, b) {
        (None, None) => true,
        (Some(u), Some(v)) => u == v,
        _ => false,
    }
}

/// How many tensors there are.
fn tensor_count(sched: &Sched) -> u32
    ensures { result ≡ length sched.now.tensors }
{
    sched.parts().tensors.as_slice().len() as u32
}

/// Whether the statement has the tensor, and it is communicated at a loop, or at the root.
fn is_communicated_at(sched: &Sched, t: u32, at: Option<u32>) -> bool
    ensures { result ≡ (accesses_tensor sched.now.nest t && is_same_place (communicate_loop sched.now t) at) }
{
    accesses_tensor(&sched.parts().nest, t) && is_same_place(communicate_loop(sched, t), at)
}

/// Puts a number at the end of a list, or not.
fn push_if(list: &mut Vec<u32>, number: u32, passes: bool) -> Result<(), NoMemory>
    ensures { OnOk result (list.new.items ≡ list.old.items ++ (if passes then number ∷ [] else [])) }
{
    if passes {
        list.push(number)?;
    }
    Ok(())
}

/// The tensors of the statement that are communicated at a loop, or at the root, in order of declaration.
fn communicated_at(alloc: Global, sched: &Sched, at: Option<u32>) -> Result<Vars, NoMemory>
    ensures { IfOk result (λ l. l ≡ communicated_at sched.now at) }
{
    let mut here = Vec::new(alloc);
    for t in 0..tensor_count(sched) {
        push_if(&mut here, t, is_communicated_at(sched, t, at))?;
    }
    Ok(Vars::from_vec(here))
}

fn put_communicated(
    alloc: Global,
    out: &mut Bytes,
    sched: &Sched,
    at: Option<u32>,
    end: &[u8],
) -> Result<(), NoMemory>
    ensures { OnOk result (out.new ≡ out.old ++ communicated_text sched.now at end.now) }
{
    let here = communicated_at(alloc, sched, at)?;
    put_bracketed(out, sched.parts(), here.as_slice(), end)
}

/// Puts the names of tensors in brackets, with this behind them, and nothing without tensors.
fn put_bracketed(
    out: &mut Bytes,
    parts: &SchedParts,
    tensors: &[u32],
    end: &[u8],
) -> Result<(), NoMemory>
    ensures { OnOk result (out.new ≡ out.old ++ bracketed (map (name_of_tensor (seen parts.now)) tensors.now) end.now) }
{
    match tensors.split_first() {
        None => Ok(()),
        Some((first, rest)) => {
            out.append(b"[")?;
            put_tensor_name(out, parts, *first)?;
            put_more_tensors(out, parts, rest)?;
            out.append(b"]")?;
            out.append(end)
        }
    }
}

/// Puts the names of tensors, a comma before each.
fn put_more_tensors(out: &mut Bytes, parts: &SchedParts, tensors: &[u32]) -> Result<(), NoMemory>
    ensures { OnOk result (out.new ≡ out.old ++ flat_map (λ w. codes "," ++ w) (map (name_of_tensor (seen parts.now)) tensors.now)) }
{
    for t in tensors {
        out.append(b",")?;
        put_tensor_name(out, parts, *t)?;
    }
    Ok(())
}

/// Puts the tree, whose first `distributed` loops are distributed.
fn put_tree(
    alloc: Global,
    out: &mut Bytes,
    sched: &Sched,
    distributed: u32,
    nest: &Nest,
) -> Result<(), NoMemory>
    ensures { OnOk result (out.new ≡ out.old ++ tree_text sched.now distributed (tree_of nest.now)) }
{
    let parts = sched.parts();
    match nest {
        Nest::Loop {
            var,
            extent,
            walk,
            body,
        } => {
            put_loop_name(out, parts, *var)?;
            out.append(b":")?;
            out.append_number(*extent)?;
            out.append(distributed_text(distributed))?;
            put_walk(out, parts, walk)?;
            put_communicated(alloc, out, sched, Some(*var), b"")?;
            out.append(b" ")?;
            put_tree(alloc, out, sched, distributed.saturating_sub(1), body)
        }
        Nest::Pre {
            work,
            producer,
            consumer,
            ..
        } => {
            out.append(b"where ")?;
            let name = work_name(parts, *work);
            out.append(name.as_slice())?;
            out.append(b" { ")?;
            put_tree(alloc, out, sched, 0, producer)?;
            out.append(b" } { ")?;
            put_tree(alloc, out, sched, 0, consumer)?;
            out.append(b" }")
        }
        Nest::Leaf { kernel, .. } => out.append(leaf_text(*kernel)),
    }
}

fn distributed_text(distributed: u32) -> &'static [u8]
    ensures { result.now ≡ distributed_text distributed }
{
    if 0 < distributed { b"!" } else { b"" }
}

fn leaf_text(kernel: Kernel) -> &'static [u8]
    ensures { result.now ≡ leaf_text kernel }
{
    match kernel {
        Kernel::Plain => b"leaf",
        Kernel::Dot => b"leaf:dot",
        Kernel::Dot3 => b"leaf:dot3",
    }
}

fn put_walk(out: &mut Bytes, parts: &SchedParts, walk: &Option<Walk>) -> Result<(), NoMemory>
    ensures { OnOk result (out.new ≡ out.old ++ walk_text (seen parts.now) walk.now) }
{
    match walk {
        None => Ok(()),
        Some(walk) => {
            out.append(b"~")?;
            put_tensor_name(out, parts, walk.tensor)
        }
    }
}

fn put_form(out: &mut Bytes, parts: &SchedParts, how: &Derive) -> Result<(), NoMemory>
    ensures { OnOk result (out.new ≡ out.old ++ form_text (seen parts.now) how.now) }
{
    match how {
        Derive::Split {
            outer,
            inner,
            factor,
        } => {
            put_loop_name(out, parts, *outer)?;
            out.append(b"*")?;
            out.append_number(*factor)?;
            out.append(b"+")?;
            put_loop_name(out, parts, *inner)
        }
        Derive::Quotient { fused, by } => put_divided(out, parts, *fused, b" div ", *by),
        Derive::Rest { fused, by } => put_divided(out, parts, *fused, b" mod ", *by),
        Derive::Rotate { base, by, extent } => {
            put_rotated(out, parts, *base, by.as_slice(), *extent)
        }
        Derive::Pos {
            tensor,
            level,
            base,
        } => {
            put_loop_name(out, parts, *base)?;
            out.append(b".")?;
            out.append_number(*level)?;
            out.append(b" of ")?;
            put_tensor_name(out, parts, *tensor)
        }
    }
}

/// Puts a loop, this, and the number by which it is divided.
fn put_divided(
    out: &mut Bytes,
    parts: &SchedParts,
    fused: u32,
    between: &[u8],
    by: u32,
) -> Result<(), NoMemory>
    ensures { OnOk result (out.new ≡ out.old ++ (loop_name (seen parts.now) fused ++ between.now ++ decimal by)) }
{
    put_loop_name(out, parts, fused)?;
    out.append(between)?;
    out.append_number(by)
}

/// Puts a loop that is shifted by others, modulo an extent.
fn put_rotated(
    out: &mut Bytes,
    parts: &SchedParts,
    base: u32,
    by: &[u32],
    extent: u32,
) -> Result<(), NoMemory>
    ensures { OnOk result (out.new ≡ out.old ++ form_text (seen parts.now) (Rotate base by.now extent)) }
{
    out.append(b"(")?;
    put_loop_name(out, parts, base)?;
    put_more_loops(out, parts, by)?;
    out.append(b") mod ")?;
    out.append_number(extent)
}

/// Puts the names of loops, `+` before each.
fn put_more_loops(out: &mut Bytes, parts: &SchedParts, vars: &[u32]) -> Result<(), NoMemory>
    ensures { OnOk result (out.new ≡ out.old ++ flat_map (λ v. codes "+" ++ loop_name (seen parts.now) v) vars.now) }
{
    for v in vars {
        out.append(b"+")?;
        put_loop_name(out, parts, *v)?;
    }
    Ok(())
}

fn put_loop_name(out: &mut Bytes, parts: &SchedParts, v: u32) -> Result<(), NoMemory>
    ensures { OnOk result (out.new ≡ out.old ++ loop_name (seen parts.now) v) }
{
    let name = name_of(parts, v);
    out.append(name.as_slice())
}

fn put_tensor_name(out: &mut Bytes, parts: &SchedParts, t: u32) -> Result<(), NoMemory>
    ensures { OnOk result (out.new ≡ out.old ++ name_of_tensor (seen parts.now) t) }
{
    let name = tensor_name(parts, t);
    out.append(name.as_slice())
}
