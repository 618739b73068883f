//! Where a run over visits stands, and how it goes on.

ghost use Rattle.std.specs.Prelude.{◌≡◌, ◌≤◌, ◌<◌, ◌↔◌, ◌^◌, IsTrue, length, slice_get};
ghost use Rattle.dt_nest.specs.declared.progress.Progress.TheVariants.{On};
ghost use Rattle.dt_nest.specs.Schedule.{seen};
ghost use Rattle.dt_nest.specs.Tree.{tree_of, leaf_count};
ghost use Rattle.dt_nest.specs.Cursor.{HasRoom};
ghost use Rattle.dt_nest.specs.Search.{works_at};
ghost use Rattle.dt_nest.specs.Run.{ArrivesAt, CanGoOn, IsSound, Moves, answer_at, left_of, run_tests, standing};

use crate::branches::work_of;
use crate::conditions::Conditions;
use crate::cursor::Cursor;
use crate::loops::Nest;
use crate::naming::Naming;
use crate::search::{Route, first, next_visit};
use dt_model::Locator;

/// One item of a run: the reset of a workspace, or the visit of a leaf.
#[derive(Clone, Copy, Debug, PartialEq, Eq)]
pub enum Visit {
    Reset(u32),
    Leaf,
}

/// Where a run stands: before its first item, behind a reset on the way to a leaf, on a leaf, or behind its last item.
#[derive(Clone, Copy, Debug)]
pub enum Progress {
    Before,
    Resetting { leaf: u32, past: u32, work: u32 },
    On { leaf: u32 },
    Done,
}

impl Progress {
    /// The number of the leaf, and 0 where there is none.
    pub fn leaf(self) -> u32
        ensures { result ≡ standing self }
    {
        match self {
            Progress::Before => 0,
            Progress::Resetting { leaf, .. } => leaf,
            Progress::On { leaf } => leaf,
            Progress::Done => 0,
        }
    }

    /// Whether the run stands on the leaf with this number.
    pub fn is_on(self, leaf: u32) -> bool
        ensures { IsTrue result ↔ (self ≡ On leaf) }
    {
        match self {
            Progress::Before => false,
            Progress::Resetting { .. } => false,
            Progress::On { leaf: at } => at == leaf,
            Progress::Done => false,
        }
    }

    /// The last item, and none before the first and behind the last.
    pub fn answer(self) -> Option<Visit>
        ensures { result ≡ answer_at self }
    {
        match self {
            Progress::Before => None,
            Progress::Resetting { work, .. } => Some(Visit::Reset(work)),
            Progress::On { .. } => Some(Visit::Leaf),
            Progress::Done => None,
        }
    }
}

/// The place after a leaf was found: its next reset, or the leaf itself.
fn arrival(nest: &Nest, leaf: u32, past: u32) -> Progress
    requires few { leaf_count (tree_of nest.now) < 2 ^ 32 }
    requires exists { past ≤ length (works_at (tree_of nest.now) leaf) }
    ensures { ArrivesAt (slice_get (works_at (tree_of nest.now) leaf) past) leaf past result }
{
    match work_of(nest, leaf, past) {
        None => Progress::On { leaf },
        Some(work) => Progress::Resetting {
            leaf,
            past: past + 1,
            work,
        },
    }
}

/// Goes on to the next item.
pub fn advanced<L: Locator>(
    conditions: &Conditions<L>,
    path: &[u32],
    progress: Progress,
    cursor: &mut Cursor,
) -> Progress
    requires on { CanGoOn (L.tensors conditions.now.loc.now) (seen conditions.now.parts.now) path.now cursor.old.slots.items progress }
    requires size { HasRoom cursor.old (length conditions.now.parts.now.names) }
    ensures sound { IsSound (L.tensors conditions.now.loc.now) (seen conditions.now.parts.now) path.now cursor.new.slots.items result }
    ensures moves { Moves (run_tests (L.tensors conditions.now.loc.now) (seen conditions.now.parts.now)) (tree_of conditions.now.parts.now.nest) path.now (left_of (run_tests (L.tensors conditions.now.loc.now) (seen conditions.now.parts.now)) (tree_of conditions.now.parts.now.nest) path.now cursor.old.slots.items progress) cursor.new.slots.items result }
    ensures size { HasRoom cursor.new (length conditions.now.parts.now.names) }
{
    let nest = &conditions.parts.nest;
    let route = Route {
        tests: conditions,
        naming: &Naming::Root,
        path,
    };
    match progress {
        Progress::Before => match first(nest, &route, cursor) {
            None => Progress::Done,
            Some(leaf) => arrival(nest, leaf, 0),
        },
        Progress::Resetting { leaf, past, .. } => arrival(nest, leaf, past),
        Progress::On { leaf } => match next_visit(nest, &route, leaf, cursor) {
            None => Progress::Done,
            Some(stand) => arrival(nest, stand.leaf, stand.past),
        },
        Progress::Done => Progress::Done,
    }
}
