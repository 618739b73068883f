//! What operations touch.

ghost use Rattle.std.specs.Prelude.{◌≡◌, ◌<◌, ◌++◌, ◌∷◌, [], IfOk, OnOk, length, map, nat_eq, option_map, slice_get, unwrap_or, if◌then◌else◌};
ghost use Rattle.std.specs.List.{AllByRecursion};
ghost use Rattle.dt_base.specs.Ranges.{below};
ghost use Rattle.dt_plan.specs.Footprints.{buffer_by, footprints_of, some_words, task_mode, task_touches, whole_buffer};
ghost use Rattle.dt_plan.specs.OpsOf.{HasPathOf, IsOpOf};
ghost use Rattle.dt_plan.specs.Statements.{FitsLayout, FitsPart};
ghost use Rattle.dt_nest.specs.Visits.{IsPath, needed_of};
ghost use Rattle.dt_plan.specs.declared.parts.Part.{Part};

use crate::job_layout::JobLayout;
use crate::kind::Kind;
use crate::moved::{output_of, tensors_in, work_count};
use crate::ops::Op;
use crate::parts::Part;
use crate::touches::{Buffer, Mode, Touch, Touches};
use dt_base::NoMemory;
use dt_bounds::needed;
use dt_model::Locator;
use dt_runs::Runs;
use std::alloc::Global;

/// Words of a buffer.
fn some_words(
    alloc: Global,
    node: u32,
    buffer: Buffer,
    words: &Runs,
    mode: Mode,
) -> Result<Touch, NoMemory>
    ensures { IfOk result (λ touch. touch ≡ some_words node buffer words.now mode) }
{
    Ok(Touch {
        node,
        buffer,
        whole: false,
        words: words.copied(alloc)?,
        mode,
    })
}

/// A buffer, with all its words.
fn whole_buffer(alloc: Global, node: u32, buffer: Buffer) -> Touch
    ensures { result ≡ whole_buffer node buffer }
{
    Touch {
        node,
        buffer,
        whole: true,
        words: Runs::empty(alloc),
        mode: Mode::Write,
    }
}

/// The buffer that a statement has for a tensor or workspace.
fn buffer_by<L: Locator>(layout: &JobLayout<L>, stmt: u32, number: u32) -> Buffer
    ensures { result ≡ buffer_by layout.now stmt number }
{
    let tensors = layout.homes.len() as u32;
    if number < tensors {
        Buffer::Scratch(stmt, number)
    } else {
        Buffer::Work(stmt, number - tensors)
    }
}

/// What an operation touches that opens or closes scratch.
fn scratch_touches<L: Locator>(
    alloc: Global,
    layout: &JobLayout<L>,
    op: &Op,
) -> Result<Touches, NoMemory>
    ensures { IfOk result (λ touches. touches ≡ whole_buffer op.now.node (buffer_by layout.now op.now.stmt op.now.tensor) ∷ []) }
{
    let mut items = Vec::new(alloc);
    let buffer = buffer_by(layout, op.stmt, op.tensor);
    items.push(whole_buffer(alloc, op.node, buffer))?;
    Ok(Touches { items })
}

/// What an operation touches that brings words from a home into scratch.
fn copy_touches<L: Locator>(
    alloc: Global,
    layout: &JobLayout<L>,
    op: &Op,
) -> Result<Touches, NoMemory>
    ensures { IfOk result (λ touches. touches ≡ some_words op.now.other (Buffer.Home op.now.tensor) op.now.words Mode.Read ∷ some_words op.now.node (buffer_by layout.now op.now.stmt op.now.tensor) op.now.words Mode.Write ∷ []) }
{
    let mut items = Vec::new(alloc);
    let home = Buffer::Home(op.tensor);
    let scratch = buffer_by(layout, op.stmt, op.tensor);
    items.push(some_words(alloc, op.other, home, &op.words, Mode::Read)?)?;
    items.push(some_words(alloc, op.node, scratch, &op.words, Mode::Write)?)?;
    Ok(Touches { items })
}

/// What an operation touches that adds words of scratch to a home.
fn fold_touches<L: Locator>(
    alloc: Global,
    layout: &JobLayout<L>,
    op: &Op,
) -> Result<Touches, NoMemory>
    ensures { IfOk result (λ touches. touches ≡ some_words op.now.node (buffer_by layout.now op.now.stmt op.now.tensor) op.now.words Mode.Read ∷ some_words op.now.other (Buffer.Home op.now.tensor) op.now.words Mode.Fold ∷ []) }
{
    let mut items = Vec::new(alloc);
    let home = Buffer::Home(op.tensor);
    let scratch = buffer_by(layout, op.stmt, op.tensor);
    items.push(some_words(alloc, op.node, scratch, &op.words, Mode::Read)?)?;
    items.push(some_words(alloc, op.other, home, &op.words, Mode::Fold)?)?;
    Ok(Touches { items })
}

/// What an operation touches that makes a home 0.
fn zero_touches(alloc: Global, op: &Op) -> Result<Touches, NoMemory>
    ensures { IfOk result (λ touches. touches ≡ some_words op.now.node (Buffer.Home op.now.tensor) op.now.words Mode.Write ∷ []) }
{
    let mut items = Vec::new(alloc);
    let home = Buffer::Home(op.tensor);
    items.push(some_words(alloc, op.node, home, &op.words, Mode::Write)?)?;
    Ok(Touches { items })
}

/// How a task touches the scratch of a tensor, where this is the left one.
fn task_mode(tensor: u32, output: u32) -> Mode
    ensures { result ≡ (if nat_eq tensor output then Mode.Fold else Mode.Read) }
{
    if tensor == output {
        Mode::Fold
    } else {
        Mode::Read
    }
}

/// Puts the needed words of a tensor at the end.
fn push_needed<L: Locator>(
    alloc: Global,
    layout: &JobLayout<L>,
    op: &Op,
    part: &Part,
    tensor: u32,
    items: &mut Vec<Touch>,
) -> Result<(), NoMemory>
    requires part { FitsPart layout.now part.now }
    requires path { IsPath part.now.sched op.now.path }
    requires tensor { tensor < length part.now.sched.tensors }
    ensures { OnOk result (items.new.items ≡ items.old.items ++ some_words op.now.node (Buffer.Scratch op.now.stmt tensor) (needed_of layout.now.stored part.now.sched tensor op.now.path) (task_mode part.now.sched tensor) ∷ []) }
{
    let words = needed(alloc, &part.sched, layout.loc, tensor, op.path.as_slice())?;
    let mode = task_mode(tensor, output_of(&part.sched.parts().nest));
    let scratch = Buffer::Scratch(op.stmt, tensor);
    items.push(some_words(alloc, op.node, scratch, &words, mode)?)?;
    Ok(())
}

/// Puts the workspaces of a task at the end.
fn push_works(alloc: Global, op: &Op, part: &Part, items: &mut Vec<Touch>) -> Result<(), NoMemory>
    ensures { OnOk result (items.new.items ≡ items.old.items ++ map (λ w. whole_buffer op.now.node (Buffer.Work op.now.stmt w)) (below (length part.now.sched.works))) }
{
    let works = work_count(&part.sched);
    for work in 0..works {
        items.push(whole_buffer(alloc, op.node, Buffer::Work(op.stmt, work)))?;
    }
    Ok(())
}

/// What a task touches.
fn task_touches<L: Locator>(
    alloc: Global,
    layout: &JobLayout<L>,
    op: &Op,
    part: &Part,
) -> Result<Touches, NoMemory>
    requires part { FitsPart layout.now part.now }
    requires path { IsPath part.now.sched op.now.path }
    ensures { IfOk result (λ touches. touches ≡ task_touches layout.now op.now part.now.sched) }
{
    let tensors = tensors_in(alloc, &part.sched)?;
    let mut items = Vec::new(alloc);
    for tensor in tensors.as_slice() {
        push_needed(alloc, layout, op, part, *tensor, &mut items)?;
    }
    push_works(alloc, op, part, &mut items)?;
    Ok(Touches { items })
}

/// What the task of a part touches, if there is such a part.
fn part_touches<L: Locator>(
    alloc: Global,
    layout: &JobLayout<L>,
    op: &Op,
) -> Result<Touches, NoMemory>
    requires fits { FitsLayout layout.now }
    requires path { HasPathOf layout.now op.now }
    ensures { IfOk result (λ touches. touches ≡ unwrap_or (option_map (λ (p : Part). task_touches layout.now op.now p.sched) (slice_get layout.now.parts op.now.stmt)) []) }
{
    match layout.parts.get(op.stmt as usize) {
        None => Ok(Touches {
            items: Vec::new(alloc),
        }),
        Some(part) => task_touches(alloc, layout, op, part),
    }
}

/// What an operation touches.
fn footprints_of<L: Locator>(
    alloc: Global,
    layout: &JobLayout<L>,
    op: &Op,
) -> Result<Touches, NoMemory>
    requires fits { FitsLayout layout.now }
    requires op { IsOpOf layout.now op.now }
    ensures { IfOk result (λ touches. touches ≡ footprints_of layout.now op.now) }
{
    match op.kind {
        Kind::Zero => zero_touches(alloc, op),
        Kind::Alloc => scratch_touches(alloc, layout, op),
        Kind::Copy => copy_touches(alloc, layout, op),
        Kind::Task => part_touches(alloc, layout, op),
        Kind::Fold => fold_touches(alloc, layout, op),
        Kind::Free => scratch_touches(alloc, layout, op),
    }
}

/// What each operation touches.
pub fn all_footprints<L: Locator>(
    alloc: Global,
    layout: &JobLayout<L>,
    ops: &[Op],
) -> Result<Vec<Touches>, NoMemory>
    requires fits { FitsLayout layout.now }
    requires ops { AllByRecursion (IsOpOf layout.now) ops.now }
    ensures { IfOk result (λ touches. touches.items ≡ map (footprints_of layout.now) ops.now) }
{
    let mut all = Vec::new(alloc);
    for op in ops {
        all.push(footprints_of(alloc, layout, op)?)?;
    }
    Ok(all)
}
