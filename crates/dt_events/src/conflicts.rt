//! Which operations conflict.

ghost use Rattle.std.specs.Prelude.{◌≡◌, ◌<◌, length};
ghost use Rattle.std.specs.List.{list_any, AllByRecursion};
ghost use Rattle.dt_plan.specs.declared.ops.Op.{Op};
ghost use Rattle.dt_plan.specs.Plans.{IsPlan};
ghost use Rattle.dt_events.specs.Conflicts.{HasSegments, have_common, is_same_buffer, may_swap, segment_of, some_meet, touches_meet};

use dt_plan::{Buffer, Mode, Plan, Touch};

/// Two reads of a word may come in either order, and so may two folds into it.
fn may_swap(a: Mode, b: Mode) -> bool
    ensures { result ≡ may_swap a b }
{
    match (a, b) {
        (Mode::Read, Mode::Read) => true,
        (Mode::Fold, Mode::Fold) => true,
        _ => false,
    }
}

fn is_same_buffer(a: Buffer, b: Buffer) -> bool
    ensures { result ≡ is_same_buffer a b }
{
    match (a, b) {
        (Buffer::Home(t), Buffer::Home(u)) => t == u,
        (Buffer::Scratch(k, t), Buffer::Scratch(j, u)) => k == j && t == u,
        (Buffer::Work(k, t), Buffer::Work(j, u)) => k == j && t == u,
        _ => false,
    }
}

/// Whether footprints in one buffer have a common word.
fn have_common(a: &Touch, b: &Touch) -> bool
    ensures { result ≡ have_common a.now b.now }
{
    if a.whole {
        b.whole || b.words.count() > 0
    } else if b.whole {
        a.words.count() > 0
    } else {
        a.words.touches(&b.words)
    }
}

/// Whether two footprints have a common word that may not be touched in either order.
fn touches_meet(a: &Touch, b: &Touch) -> bool
    ensures { result ≡ touches_meet a.now b.now }
{
    a.node == b.node
        && is_same_buffer(a.buffer, b.buffer)
        && !may_swap(a.mode, b.mode)
        && have_common(a, b)
}

/// Whether a footprint of the first list meets one of the second.
pub(crate) fn some_meet(xs: &[Touch], ys: &[Touch]) -> bool
    ensures { result ≡ some_meet xs.now ys.now }
{
    xs.iter().any(|x| meets_any(x, ys))
}

/// Whether a footprint meets one of a list.
fn meets_any(x: &Touch, ys: &[Touch]) -> bool
    ensures { result ≡ list_any (touches_meet x.now) ys.now }
{
    ys.iter().any(|y| touches_meet(x, y))
}

/// The barrier segment of an operation's statement.
pub(crate) fn segment_of(plan: &Plan, op: u32) -> u32
    requires segments { HasSegments plan.now }
    requires op { op < length plan.now.ops }
    ensures { result ≡ segment_of plan.now op }
{
    plan.segment(plan.ops()[op as usize].stmt)
}

/// How many operations a plan has.
pub(crate) fn op_count(plan: &Plan) -> u32
    ensures count { result ≡ length plan.now.ops }
    ensures plan { IsPlan plan.now }
{
    plan.ops().len() as u32
}
