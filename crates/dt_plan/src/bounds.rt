//! The words that each node needs room for.

ghost use Rattle.std.specs.Prelude.{◌≡◌, ◌<◌, ◌≤◌, ◌+◌, true, IfOk, OnOk, length, map, nat_lt, slice_index, sum_by, if◌then◌else◌};
ghost use Rattle.std.specs.List.Sorted.{IsSortedBy};
ghost use Rattle.dt_base.specs.Ranges.{below};
ghost use Rattle.dt_place.specs.Machines.{nodes_of};
ghost use Rattle.dt_plan.specs.declared.parts.Part.{Part};
ghost use Rattle.dt_plan.specs.Bounds.{bound_of, home_words, part_words, work_words};
ghost use Rattle.dt_plan.specs.NodeWords.{IsOpened, Raises, capped, most_of_segments, opened_on, opened_words, row_of, word_limit};
ghost use Rattle.dt_plan.specs.Layouts.{node_of};
ghost use Rattle.dt_nest.specs.Paths.{task_depth};
ghost use Rattle.dt_plan.specs.Operations.{work_size};
ghost use Rattle.dt_plan.specs.Statements.{FitsLayout, has_path, outline_at};
ghost use Rattle.dt_plan.specs.Brackets.{paths_from};

use crate::brackets::longer;
use crate::job_layout::JobLayout;
use crate::moved::{tensors_in, work_count, work_size};
use crate::node_words::{capped, greater, no_words, raise, summed};
use crate::opened::Opened;
use crate::outlined::Outlined;
use crate::statement::Statement;
use dt_base::NoMemory;
use dt_model::Locator;
use dt_nest::Sched;
use std::alloc::Global;

/// The words of all workspaces.
fn all_work_words(sched: &Sched) -> u64
    ensures { result ≡ sum_by (work_size sched.now) (below (length sched.now.works)) }
{
    let mut words = 0u64;
    let works = work_count(sched);
    for work in 0..works {
        words += u64::from(work_size(sched, work));
    }
    words
}

/// Raises the numbers of the nodes to the words of what is opened on each path of `rest` more loops below a path.
fn raise_below<L: Locator>(
    alloc: Global,
    statement: &Statement<L>,
    opened: Opened,
    rest: u32,
    path: &[u32],
    row: &mut Vec<u64>,
) -> Result<(), NoMemory>
    requires path { has_path statement.now path.now ≡ true }
    requires rest { length path.now + rest ≤ task_depth statement.now.part.sched }
    requires opened { IsOpened statement.now.part.sched opened }
    requires row { length row.old.items ≡ nodes_of statement.now.layout.machine }
    ensures { OnOk result (Raises (λ p. capped (opened_on statement.now.layout statement.now.part.sched opened p)) (node_of statement.now.layout.machine statement.now.part.sched) (paths_from (outline_at statement.now) rest path.now) row.old.items row.new.items) }
{
    if rest == 0 {
        let words = statement.words_on(alloc, opened, path)?;
        let node = statement.node_of(path);
        raise(row, node, words);
        return Ok(());
    }
    let values = statement.values(alloc, path)?;
    for value in values.as_slice() {
        let longer = longer(alloc, path, *value)?;
        raise_below(alloc, statement, opened, rest - 1, longer.as_slice(), row)?;
    }
    Ok(())
}

/// By node, the most words that is opened on one of its paths.
fn opened_row<L: Locator>(
    alloc: Global,
    statement: &Statement<L>,
    opened: Opened,
) -> Result<Vec<u64>, NoMemory>
    requires { IsOpened statement.now.part.sched opened }
    ensures { IfOk result (λ row. row.items ≡ row_of (nodes_of statement.now.layout.machine) (opened_words statement.now.layout statement.now.part.sched opened)) }
{
    let mut row = no_words(alloc, statement.nodes())?;
    let is_visited = statement.is_visited(alloc)?;
    if !is_visited {
        return Ok(row);
    }
    let depth = statement.opened_depth(opened);
    raise_below(alloc, statement, opened, depth, &[], &mut row)?;
    Ok(row)
}

/// By node, the words of the workspaces, where it has a task.
fn works_row<L: Locator>(alloc: Global, statement: &Statement<L>) -> Result<Vec<u64>, NoMemory>
    ensures { IfOk result (λ row. row.items ≡ row_of (nodes_of statement.now.layout.machine) (work_words statement.now.layout statement.now.part.sched)) }
{
    let words = all_work_words(statement.sched());
    if words == 0 {
        let none = no_words(alloc, statement.nodes())?;
        return Ok(none);
    }
    let row = opened_row(alloc, statement, Opened::Works(words))?;
    Ok(row)
}

/// By node, what a statement's scratch and workspaces cost.
fn part_row<L: Locator>(alloc: Global, statement: &Statement<L>) -> Result<Vec<u64>, NoMemory>
    ensures { IfOk result (λ row. row.items ≡ row_of (nodes_of statement.now.layout.machine) (λ n. part_words statement.now.layout n statement.now.part)) }
{
    let mut row = works_row(alloc, statement)?;
    let tensors = tensors_in(alloc, statement.sched())?;
    for tensor in tensors.as_slice() {
        let scratch = opened_row(alloc, statement, Opened::Scratch(*tensor))?;
        row = summed(alloc, row.as_slice(), scratch.as_slice())?;
    }
    Ok(row)
}

/// The words, where a segment goes on.
fn kept(goes_on: bool, words: u64) -> u64
    ensures { result ≡ (if goes_on then words else 0) }
{
    if goes_on { words } else { 0 }
}

/// What a segment costs with one part more, which is of it or begins the next one.
fn segment_row(
    alloc: Global,
    goes_on: bool,
    row: &[u64],
    part: &[u64],
) -> Result<Vec<u64>, NoMemory>
    requires { length row.now ≡ length part.now }
    ensures { IfOk result (λ sums. sums.items ≡ map (λ n. capped (capped (if goes_on then slice_index row.now n else 0) + capped (slice_index part.now n))) (below (length row.now))) }
{
    let mut sums = Vec::new(alloc);
    for (node, words) in row.iter().enumerate() {
        sums.push(capped(capped(kept(goes_on, *words)) + capped(part[node])))?;
    }
    Ok(sums)
}

/// By node, the most that a segment costs.
fn segments_row<L: Locator>(alloc: Global, layout: &JobLayout<L>) -> Result<Vec<u64>, NoMemory>
    requires fits { FitsLayout layout.now }
    requires segments { IsSortedBy nat_lt (map (λ (p : Part). p.segment) layout.now.parts) }
    ensures { IfOk result (λ row. row.items ≡ row_of (nodes_of layout.now.machine) (most_of_segments layout.now layout.now.parts)) }
{
    let nodes = layout.machine.nodes();
    let mut segment = 0u32;
    let mut sum = no_words(alloc, nodes)?;
    let mut most = no_words(alloc, nodes)?;
    for (number, part) in layout.parts.iter().enumerate() {
        let statement = Statement::of(alloc, &*layout, number as u32, part)?;
        let words = part_row(alloc, &statement)?;
        let goes_on = part.segment == segment;
        sum = segment_row(alloc, goes_on, sum.as_slice(), words.as_slice())?;
        segment = part.segment;
        most = greater(alloc, most.as_slice(), sum.as_slice())?;
    }
    Ok(most)
}

/// What the homes on a node cost, or the first number past the limit.
fn home_words<L: Locator>(layout: &JobLayout<L>, node: u32) -> u64
    requires { node < nodes_of layout.now.machine }
    ensures words { result ≡ capped (home_words layout.now node) }
    ensures within { result ≤ word_limit + 1 }
{
    let mut words = 0u64;
    for (tensor, homes) in layout.homes.iter().enumerate() {
        let home = &homes.as_slice()[node as usize];
        let cost = layout.loc.cost(tensor as u32);
        words = capped(words + u64::from(cost) * u64::from(home.count()));
    }
    words
}

/// By node, what its homes cost.
fn homes_row<L: Locator>(alloc: Global, layout: &JobLayout<L>) -> Result<Vec<u64>, NoMemory>
    ensures { IfOk result (λ row. row.items ≡ row_of (nodes_of layout.now.machine) (home_words layout.now)) }
{
    let nodes = layout.machine.nodes();
    let mut row = Vec::new(alloc);
    for node in 0..nodes {
        row.push(home_words(layout, node))?;
    }
    Ok(row)
}

/// By node, the words that it needs room for, or the first number past the limit.
pub fn bounds_of<L: Locator>(alloc: Global, layout: &JobLayout<L>) -> Result<Vec<u64>, NoMemory>
    requires fits { FitsLayout layout.now }
    requires segments { IsSortedBy nat_lt (map (λ (p : Part). p.segment) layout.now.parts) }
    ensures { IfOk result (λ row. row.items ≡ row_of (nodes_of layout.now.machine) (bound_of layout.now)) }
{
    let homes = homes_row(alloc, layout)?;
    let segments = segments_row(alloc, layout)?;
    let bounds = summed(alloc, homes.as_slice(), segments.as_slice())?;
    Ok(bounds)
}
