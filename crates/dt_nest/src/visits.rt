//! The visits of a schedule's nest, one after another.

ghost use Rattle.std.specs.Prelude.{◌≡◌, ◌<◌, IfOk, Some, None, length, option_map, slice_index, unwrap_or};
ghost use Rattle.std.specs.Bool.{OnTrue};
ghost use Rattle.dt_nest.specs.Tree.{tree_of};
ghost use Rattle.dt_nest.specs.FitsStored.{FitsStored};
ghost use Rattle.dt_nest.specs.Visits.{IsPath};
ghost use Rattle.dt_nest.specs.Point.{ArePointValues, HasValueAt, IsPointOf, env_at};
ghost use Rattle.dt_nest.specs.Run.{AreAscending, AreValued, Goes, HasValue, HaveLoopValues, HaveTestValues, IsAtLeaf, IsExtent, IsLeafOf, IsValue, OnLanes, OnVisit, SameNest, answer_of, is_among, run_over};

use crate::branches::Substituted;
use crate::conditions::Conditions;
use crate::cursor::{Cursor, no_values};
use crate::inner_loops::InnerLoops;
use crate::loops::Nest;
use crate::naming::Naming;
use crate::points::Point;
use crate::progress::{Progress, Visit};
use crate::schedules::Sched;
use crate::steps::stepped;
use crate::value_tables::tabled;
use crate::visited::{LeafLane, VisitedLeaf, tabulate_leaf_lane};
use dt_base::NoMemory;
use dt_model::Locator;
use std::alloc::Global;
use std::marker::Model;

/// The number that there is, and 0 where there is none.
fn number_of(value: Option<u32>) -> u64
    ensures { result ≡ unwrap_or value 0 }
{
    match value {
        None => 0,
        Some(x) => u64::from(x),
    }
}

/// The extent of a loop, where there is one.
fn extent_of(substituted: Option<Substituted>) -> Option<u32>
    ensures { result ≡ option_map (λ loop. loop.extent) substituted }
{
    match substituted {
        None => None,
        Some(substituted) => Some(substituted.extent),
    }
}

/// A run over the visits of a schedule's nest that extend a path.
#[derive(Drop)]
pub struct Visits<'s, L: Locator> {
    sched: &'s Sched,
    loc: &'s L,
    path: Vec<u32>,
    cursor: Cursor,
    progress: Progress,
    leaf: VisitedLeaf<'s>,
    inner_loops: InnerLoops,
}

impl<'s, L: Locator> Model for Visits<'s, L> {
    ghost use Rattle.std.specs.Coded.{Coded, codes};
    ghost use Rattle.dt_nest.specs.TreeCode.{Node, tree_code};
    ghost use Rattle.dt_nest.specs.Run.{IsSound, Run, run_of, standing};
    ghost use Rattle.dt_nest.specs.Visited.{IsKept, IsVisited};

    ghost Value = { Run };

    ghost coded = { let node : Coded Node = Prim.hlevel codes in Prim.hlevel (codes, tree_code node) };

    ghost view = { λ a. run_of (L.tensors a.loc.now) a.sched.now a.path.items a.cursor.slots.items a.progress };

    ghost invariant = { λ a. IsSound (L.tensors a.loc.now) a.sched.now a.path.items a.cursor.slots.items a.progress × IsKept (L.tensors a.loc.now) a.sched.now a.path.items a.cursor.slots.items a.progress a.inner_loops a.cursor.values.items × IsVisited a.sched.now.nest (standing a.progress) a.leaf };
}

impl<'s, L: Locator> Visits<'s, L> {
    /// The visits that extend a path.
    pub fn over(
        alloc: Global,
        sched: &'s Sched,
        loc: &'s L,
        path: &[u32],
    ) -> Result<Visits<'s, L>, NoMemory>
        requires fits { FitsStored (L.tensors loc.now) sched.now }
        requires path { IsPath sched.now path.now }
        ensures { IfOk result (λ v. v ≡ run_over (L.tensors loc.now) sched.now path.now) }
    {
        let parts = sched.parts();
        let names = parts.names.as_slice().len();
        let leaf = VisitedLeaf::of(&parts.nest, 0);
        let inner_loops = InnerLoops::of(alloc, parts, path)?;
        let cursor = Cursor::of(alloc, names)?;
        let path = Vec::from_slice(alloc, path)?;
        Ok(Visits {
            sched,
            loc,
            path,
            cursor,
            progress: Progress::Before,
            leaf,
            inner_loops,
        })
    }

    /// The next item, and none where all were given. It takes no memory.
    pub fn next(&mut self) -> Option<Visit>
        ensures goes { Goes self.old result self.new }
        ensures same { SameNest self.old self.new }
    {
        let sched = self.sched;
        let conditions = Conditions {
            parts: sched.parts(),
            loc: self.loc,
        };
        let progress = stepped(
            &conditions,
            self.path.as_slice(),
            &self.inner_loops,
            self.progress,
            &mut self.cursor,
        );
        self.leaf = self.leaf.next(
            &conditions.parts.nest,
            self.progress.leaf(),
            progress.leaf(),
        );
        self.progress = progress;
        progress.answer()
    }

    /// The last answer of `next`, and none before the first.
    pub fn last(&self) -> Option<Visit>
        ensures { result ≡ option_map answer_of self.now.last }
    {
        self.progress.answer()
    }

    /// Room for the values of all variables at a value of a substituted loop.
    pub fn lane_room(&self, alloc: Global) -> Result<Vec<Option<u32>>, NoMemory>
        ensures { IfOk result (λ values. length values.items ≡ length self.now.sched.names) }
    {
        no_values(alloc, self.cursor.values.len())
    }

    /// The last visit, with the values of all variables.
    pub fn point(&self) -> Point<'_>
        requires { IsAtLeaf self.now }
        ensures lane { result.lane ≡ None }
        ensures point { IsPointOf self.now result }
    {
        Point {
            lane: None,
            values: self.cursor.values.as_slice(),
        }
    }

    /// Makes the values of all variables at the last visit, where its substituted loop has a number below its extent,
    /// and tells whether that is a valid value. Each value is made once.
    pub fn enter_lane(&self, x: u32, values: &mut [Option<u32>]) -> bool
        requires within { OnLanes self.now (λ lanes. x < lanes.extent) }
        requires room { length values.old ≡ length self.now.sched.names }
        ensures valid { OnLanes self.now (λ lanes. result ≡ is_among x lanes.valid) }
        ensures point { OnTrue result (ArePointValues self.now (Some x) values.new) }
        ensures room { length values.new ≡ length values.old }
    {
        let sched = self.sched;
        let conditions = Conditions {
            parts: sched.parts(),
            loc: self.loc,
        };
        let lane = LeafLane {
            leaf: self.progress.leaf(),
            value: x,
        };
        let slots = self.cursor.slots.as_slice();
        tabulate_leaf_lane(
            &conditions.parts.nest,
            &Naming::Root,
            &conditions,
            lane,
            slots,
            values,
        )
    }

    /// The value of a variable at a point of the last visit.
    pub fn value_in(&self, point: &Point, var: u32) -> u64
        requires point { IsPointOf self.now point.now }
        requires valued { HasValueAt self.now point.now.lane var }
        ensures value { result ≡ env_at self.now point.now.lane var }
        ensures below { result < slice_index self.now.sched.extents var }
    {
        number_of(tabled(point.values, var))
    }

    /// The leaf of the last visit.
    pub fn leaf(&self) -> &Nest
        requires { IsAtLeaf self.now }
        ensures leaf { IsLeafOf self.now (tree_of result.now) }
        ensures valued { AreValued self.now }
        ensures loops { HaveLoopValues self.now }
        ensures tests { HaveTestValues self.now }
    {
        self.leaf.nest
    }

    /// The extent of the last visit's substituted loop, and none where its leaf isn't substituted.
    pub fn lanes(&self) -> Option<u32>
        requires { IsAtLeaf self.now }
        ensures extent { IsExtent self.now result }
        ensures ascending { OnVisit self.now.last (λ visit. AreAscending visit.lanes) }
    {
        extent_of(self.leaf.substituted)
    }

    /// The value of a variable at the last visit, whatever value a substituted loop has.
    pub fn eval(&self, var: u32) -> u64
        requires { HasValue self.now var }
        ensures value { IsValue self.now var result }
        ensures below { result < slice_index self.now.sched.extents var }
    {
        number_of(tabled(self.cursor.values.as_slice(), var))
    }
}
