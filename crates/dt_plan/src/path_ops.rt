//! The operations on a path, from the words of its scratch.

ghost use Rattle.std.specs.Prelude.{◌≡◌, ◌++◌, length, map, IfOk, OnOk};
ghost use Rattle.std.specs.List.{flat_map};
ghost use Rattle.dt_plan.specs.Operations.{op_on};
ghost use Rattle.dt_plan.specs.PathOps.{alloc_of, free_of, copy_of, fold_of, copies_of, folds_of, opened_of, closed_of};

use crate::kind::Kind;
use crate::needs::Need;
use crate::ops::{Op, Ops};
use dt_base::{NoMemory, Vars};
use dt_copy::{Piece, pieces, shares};
use dt_place::Homes;
use std::alloc::Global;
use std::marker::Model;

/// A path of a statement on its node, the statement's left tensor, and the homes of all tensors.
#[derive(Drop)]
pub struct OnPath<'a> {
    pub stmt: u32,
    pub node: u32,
    pub path: &'a [u32],
    pub output: u32,
    pub homes: &'a [Homes],
}

impl<'a> Model for OnPath<'a> {
    ghost use Rattle.dt_plan.specs.PathOps.{PathView, IsOnNode};

    ghost Value = { PathView };

    ghost view = { λ a. record { stmt = a.stmt; node = a.node; path = a.path.now; output = a.output; homes = a.homes.now } };

    ghost invariant = { λ a. IsOnNode (record { stmt = a.stmt; node = a.node; path = a.path.now; output = a.output; homes = a.homes.now }) };
}

/// The operation of one unit on a path's scratch of a tensor, all of it.
fn scratch_op(alloc: Global, on: &OnPath, kind: Kind, need: &Need) -> Result<Op, NoMemory>
    ensures { IfOk result (λ op. op ≡ op_on kind on.now.stmt on.now.node on.now.path need.now.tensor on.now.node need.now.words 1) }
{
    Ok(Op {
        stmt: on.stmt,
        node: on.node,
        path: Vars::from_slice(alloc, on.path)?,
        kind,
        tensor: need.tensor,
        other: on.node,
        words: need.words.copied(alloc)?,
        units: 1,
    })
}

/// The operation that moves a piece of a tensor between a path's scratch and a home, a word a unit.
fn piece_op(
    alloc: Global,
    on: &OnPath,
    kind: Kind,
    tensor: u32,
    piece: &Piece,
) -> Result<Op, NoMemory>
    ensures { IfOk result (λ op. op ≡ op_on kind on.now.stmt on.now.node on.now.path tensor piece.now.node piece.now.words (length piece.now.words)) }
{
    let words = piece.words.copied(alloc)?;
    let units = words.count();
    Ok(Op {
        stmt: on.stmt,
        node: on.node,
        path: Vars::from_slice(alloc, on.path)?,
        kind,
        tensor,
        other: piece.node,
        words,
        units,
    })
}

pub(crate) fn push_allocs(
    alloc: Global,
    on: &OnPath,
    needs: &[Need],
    ops: &mut Ops,
) -> Result<(), NoMemory>
    ensures { OnOk result (ops.new ≡ ops.old ++ map (alloc_of on.now) needs.now) }
{
    for need in needs {
        ops.push(scratch_op(alloc, on, Kind::Alloc, need)?)?;
    }
    Ok(())
}

pub(crate) fn push_frees(
    alloc: Global,
    on: &OnPath,
    needs: &[Need],
    ops: &mut Ops,
) -> Result<(), NoMemory>
    ensures { OnOk result (ops.new ≡ ops.old ++ map (free_of on.now) needs.now) }
{
    for need in needs {
        ops.push(scratch_op(alloc, on, Kind::Free, need)?)?;
    }
    Ok(())
}

fn push_copied(
    alloc: Global,
    on: &OnPath,
    tensor: u32,
    pieces: &[Piece],
    ops: &mut Ops,
) -> Result<(), NoMemory>
    ensures { OnOk result (ops.new ≡ ops.old ++ map (copy_of on.now tensor) pieces.now) }
{
    for piece in pieces {
        ops.push(piece_op(alloc, on, Kind::Copy, tensor, piece)?)?;
    }
    Ok(())
}

fn push_folded(
    alloc: Global,
    on: &OnPath,
    tensor: u32,
    pieces: &[Piece],
    ops: &mut Ops,
) -> Result<(), NoMemory>
    ensures { OnOk result (ops.new ≡ ops.old ++ map (fold_of on.now tensor) pieces.now) }
{
    for piece in pieces {
        ops.push(piece_op(alloc, on, Kind::Fold, tensor, piece)?)?;
    }
    Ok(())
}

/// The copies into scratch. A workspace has no homes, and none.
fn push_copies(alloc: Global, on: &OnPath, need: &Need, ops: &mut Ops) -> Result<(), NoMemory>
    ensures { OnOk result (ops.new ≡ ops.old ++ copies_of on.now need.now) }
{
    if need.tensor == on.output {
        return Ok(());
    }
    match on.homes.get(need.tensor as usize) {
        None => Ok(()),
        Some(homes) => {
            let pieces = pieces(alloc, &need.words, homes.as_slice(), on.node)?;
            push_copied(alloc, on, need.tensor, pieces.as_slice(), ops)
        }
    }
}

/// The folds from scratch.
fn push_folds(alloc: Global, on: &OnPath, need: &Need, ops: &mut Ops) -> Result<(), NoMemory>
    ensures { OnOk result (ops.new ≡ ops.old ++ folds_of on.now need.now) }
{
    if need.tensor != on.output {
        return Ok(());
    }
    match on.homes.get(need.tensor as usize) {
        None => Ok(()),
        Some(homes) => {
            let pieces = shares(alloc, &need.words, homes.as_slice())?;
            push_folded(alloc, on, need.tensor, pieces.as_slice(), ops)
        }
    }
}

fn push_all_copies(
    alloc: Global,
    on: &OnPath,
    needs: &[Need],
    ops: &mut Ops,
) -> Result<(), NoMemory>
    ensures { OnOk result (ops.new ≡ ops.old ++ flat_map (copies_of on.now) needs.now) }
{
    for need in needs {
        push_copies(alloc, on, need, ops)?;
    }
    Ok(())
}

fn push_all_folds(alloc: Global, on: &OnPath, needs: &[Need], ops: &mut Ops) -> Result<(), NoMemory>
    ensures { OnOk result (ops.new ≡ ops.old ++ flat_map (folds_of on.now) needs.now) }
{
    for need in needs {
        push_folds(alloc, on, need, ops)?;
    }
    Ok(())
}

/// What comes before everything deeper: the scratch is opened, and then the pieces are copied.
pub fn push_opened(
    alloc: Global,
    on: &OnPath,
    needs: &[Need],
    ops: &mut Ops,
) -> Result<(), NoMemory>
    ensures { OnOk result (ops.new ≡ ops.old ++ opened_of on.now needs.now) }
{
    push_allocs(alloc, on, needs, ops)?;
    push_all_copies(alloc, on, needs, ops)
}

/// What comes after it: the pieces are folded, and then the scratch is closed.
pub fn push_closed(
    alloc: Global,
    on: &OnPath,
    needs: &[Need],
    ops: &mut Ops,
) -> Result<(), NoMemory>
    ensures { OnOk result (ops.new ≡ ops.old ++ closed_of on.now needs.now) }
{
    push_all_folds(alloc, on, needs, ops)?;
    push_frees(alloc, on, needs, ops)
}
