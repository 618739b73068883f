//! The positions that are moved between nodes.

ghost use Rattle.std.specs.Prelude.{◌≡◌, ◌+◌, ◌^◌, ◌<◌, ◌≤◌, ◌&&◌, not, length, if◌then◌else◌};
ghost use Rattle.std.specs.List.{AllByRecursion};
ghost use Rattle.dt_place.specs.Machines.{nodes_of};
ghost use Rattle.dt_plan.specs.declared.ops.Op.{Op};
ghost use Rattle.dt_plan.specs.Bounds.{is_local, is_move, moved_by, positions_moved, shares_group};

use crate::kind::Kind;
use crate::ops::Op;
use crate::plans::Moves;
use dt_place::Machine;

/// Whether operations of the kind move words between homes and scratch.
fn is_move(kind: Kind) -> bool
    ensures { result ≡ is_move kind }
{
    match kind {
        Kind::Zero => false,
        Kind::Alloc => false,
        Kind::Copy => true,
        Kind::Task => false,
        Kind::Fold => true,
        Kind::Free => false,
    }
}

/// The positions that an operation moves, if it does so in this way.
fn moved_if(op: &Op, passes: bool) -> u64
    ensures moved { result ≡ (if is_move op.now.kind && passes then length op.now.words else 0) }
    ensures few { result < 4294967296 }
{
    if is_move(op.kind) && passes {
        u64::from(op.words.count())
    } else {
        0
    }
}

/// Whether an operation is between nodes of one group.
fn shares_group(machine: &Machine, op: &Op) -> bool
    requires node { op.now.node < nodes_of machine.now }
    requires other { op.now.other < nodes_of machine.now }
    ensures { result ≡ shares_group machine.now op.now }
{
    machine.same_group(op.node, op.other)
}

/// What was moved, with what an operation moves.
fn moves_with(machine: &Machine, moves: Moves, op: &Op) -> Moves
    requires node { op.now.node < nodes_of machine.now }
    requires other { op.now.other < nodes_of machine.now }
    requires local_fits { moves.local + 4294967296 < 2 ^ 64 }
    requires group_fits { moves.group + 4294967296 < 2 ^ 64 }
    requires across_fits { moves.across + 4294967296 < 2 ^ 64 }
    ensures local_few { result.local ≤ moves.local + 4294967296 }
    ensures group_few { result.group ≤ moves.group + 4294967296 }
    ensures across_few { result.across ≤ moves.across + 4294967296 }
    ensures local { result.local ≡ moves.local + moved_by is_local op.now }
    ensures group { result.group ≡ moves.group + moved_by (λ o. not (is_local o) && shares_group machine.now o) op.now }
    ensures across { result.across ≡ moves.across + moved_by (λ o. not (is_local o) && not (shares_group machine.now o)) op.now }
{
    let is_local = op.node == op.other;
    let in_group = shares_group(machine, op);
    Moves {
        local: moves.local + moved_if(op, is_local),
        group: moves.group + moved_if(op, !is_local && in_group),
        across: moves.across + moved_if(op, !is_local && !in_group),
    }
}

/// The positions that copies and folds move.
pub fn moves_of(machine: &Machine, ops: &[Op]) -> Moves
    requires nodes { AllByRecursion (λ (o : Op). (o.node < nodes_of machine.now) × (o.other < nodes_of machine.now)) ops.now }
    requires few { length ops.now < 2147483648 }
    ensures local { result.local ≡ positions_moved is_local ops.now }
    ensures group { result.group ≡ positions_moved (λ o. not (is_local o) && shares_group machine.now o) ops.now }
    ensures across { result.across ≡ positions_moved (λ o. not (is_local o) && not (shares_group machine.now o)) ops.now }
{
    let mut moves = Moves {
        local: 0,
        group: 0,
        across: 0,
    };
    for op in ops {
        moves = moves_with(machine, moves, op);
    }
    moves
}
