//! A statement of a job, and its nest as its operations are listed.

ghost use Rattle.std.specs.Prelude.{◌≡◌, ◌<◌, ◌≤◌, ◌-◌, ◌++◌, ◌∷◌, [], true, IfOk, OnOk, length, map, nat_eq, take, if◌then◌else◌};
ghost use Rattle.dt_base.specs.Ranges.{below};
ghost use Rattle.dt_place.specs.Machines.{nodes_of};
ghost use Rattle.dt_plan.specs.Layouts.{node_of};
ghost use Rattle.dt_plan.specs.Operations.{moved_depth, scratch_on, work_size};
ghost use Rattle.dt_plan.specs.Brackets.{visited};
ghost use Rattle.dt_plan.specs.NodeWords.{IsOpened, opened_depth, opened_on};
ghost use Rattle.dt_plan.specs.PathOps.{alloc_of, closed_of, free_of, opened_of};
ghost use Rattle.dt_plan.specs.Statements.{FitsPart, HasHomes, has_path, need_at, needs_on, node_needs, outline_at, path_at, work_need};

use crate::job_layout::JobLayout;
use crate::kind::Kind;
use crate::moved::{
    greatest_depth, moved_depth, node_works, output_of, push_root_works, tensor_count, tensors_in,
    work_size,
};
use crate::needs::{Need, Needs};
use crate::opened::Opened;
use crate::ops::{Op, Ops};
use crate::outlined::{Around, Outlined, Paths};
use crate::parts::Part;
use crate::path_ops::{OnPath, push_allocs, push_closed, push_frees, push_opened};
use crate::visited_paths::{depth_of, first_paths, is_visited, visit_count, visited_values};
use dt_base::{NoMemory, Vars};
use dt_bounds::needed;
use dt_model::Locator;
use dt_nest::Sched;
use dt_runs::Runs;
use std::alloc::Global;
use std::marker::Model;

/// The first values of a path, so many as there are.
#[tactic(auto, using(std::proofs::lemmas::List::take_all))]
fn front_of(path: &[u32], count: u32) -> &[u32]
    ensures { result.now ≡ take count path.now }
{
    let count = count as usize;
    if count < path.len() {
        &path[..count]
    } else {
        path
    }
}

/// What opens and closes workspaces.
fn around_works(alloc: Global, on: &OnPath, needs: &[Need]) -> Result<Around, NoMemory>
    ensures opened { IfOk result (λ a. a.opened ≡ map (alloc_of on.now) needs.now) }
    ensures closed { IfOk result (λ a. a.closed ≡ map (free_of on.now) needs.now) }
{
    let mut opened = Ops::new(alloc);
    push_allocs(alloc, on, needs, &mut opened)?;
    let mut closed = Ops::new(alloc);
    push_frees(alloc, on, needs, &mut closed)?;
    Ok(Around { opened, closed })
}

/// What opens the scratch of a path, and what closes it.
fn around_path(alloc: Global, on: &OnPath, needs: &[Need]) -> Result<Around, NoMemory>
    ensures opened { IfOk result (λ a. a.opened ≡ opened_of on.now needs.now) }
    ensures closed { IfOk result (λ a. a.closed ≡ closed_of on.now needs.now) }
{
    let mut opened = Ops::new(alloc);
    push_opened(alloc, on, needs, &mut opened)?;
    let mut closed = Ops::new(alloc);
    push_closed(alloc, on, needs, &mut closed)?;
    Ok(Around { opened, closed })
}

/// A part of a job with its number, the tensors and workspaces that are moved along its paths, and how many loops there are
/// down to its task.
#[derive(Drop)]
pub(crate) struct Statement<'a, L: Locator> {
    layout: &'a JobLayout<'a, L>,
    number: u32,
    part: &'a Part,
    moved: Vec<u32>,
    deepest: u32,
}

impl<'a, L: Locator> Model for Statement<'a, L> {
    ghost use Rattle.std.specs.Coded.{Coded, codes};
    ghost use Rattle.dt_nest.specs.TreeCode.{Node, tree_code};
    ghost use Rattle.std.specs.Prelude.{◌≡◌, ◌++◌};
    ghost use Rattle.dt_nest.specs.Paths.{task_depth, tensors_in};
    ghost use Rattle.dt_plan.specs.Operations.{root_works};
    ghost use Rattle.dt_plan.specs.Statements.{FitsPart, StatementView};

    ghost Value = { StatementView };

    ghost coded = { let node : Coded Node = Prim.hlevel codes in Prim.hlevel (codes, tree_code node) };

    ghost view = { λ a. record { layout = a.layout.now; number = a.number; part = a.part.now } };

    ghost invariant = { λ a. FitsPart a.layout.now a.part.now
        × (a.moved.items ≡ tensors_in a.part.now.sched ++ root_works a.part.now.sched) × (a.deepest ≡ task_depth a.part.now.sched) };
}

impl<'a, L: Locator> Statement<'a, L> {
    /// A part of the job, with its number.
    pub(crate) fn of(
        alloc: Global,
        layout: &'a JobLayout<'a, L>,
        number: u32,
        part: &'a Part,
    ) -> Result<Statement<'a, L>, NoMemory>
        requires { FitsPart layout.now part.now }
        ensures { IfOk result (λ s. s ≡ record { layout = layout.now; number = number; part = part.now }) }
    {
        let sched = &part.sched;
        let mut moved = tensors_in(alloc, sched)?;
        let deepest = greatest_depth(sched, moved.as_slice());
        push_root_works(sched, &mut moved)?;
        Ok(Statement {
            layout,
            number,
            part,
            moved,
            deepest,
        })
    }

    pub(crate) fn sched(&self) -> &Sched
        ensures { result.now ≡ self.now.part.sched }
    {
        &self.part.sched
    }

    /// Whether there is a visit.
    pub(crate) fn is_visited(&self, alloc: Global) -> Result<bool, NoMemory>
        ensures some { IfOk result (λ some. some ≡ visited (outline_at self.now)) }
        ensures homes { HasHomes self.now.layout }
        ensures part { FitsPart self.now.layout self.now.part }
    {
        let layout = self.layout;
        is_visited(alloc, &self.part.sched, layout.loc, &[])
    }

    /// How many loops the paths have on which this is opened.
    pub(crate) fn opened_depth(&self, opened: Opened) -> u32
        ensures { result ≡ opened_depth self.now.part.sched opened }
    {
        match opened {
            Opened::Scratch(tensor) => depth_of(&self.part.sched, tensor),
            Opened::Works(_) => self.deepest,
        }
    }

    /// The words of what is opened on a path.
    pub(crate) fn words_on(
        &self,
        alloc: Global,
        opened: Opened,
        path: &[u32],
    ) -> Result<u64, NoMemory>
        requires path { has_path self.now path.now ≡ true }
        requires opened { IsOpened self.now.part.sched opened }
        ensures { IfOk result (λ words. words ≡ opened_on self.now.layout self.now.part.sched opened path.now) }
    {
        match opened {
            Opened::Scratch(tensor) => {
                let layout = self.layout;
                let need = needed(alloc, &self.part.sched, layout.loc, tensor, path)?;
                Ok(u64::from(layout.loc.cost(tensor)) * u64::from(need.count()))
            }
            Opened::Works(words) => Ok(words),
        }
    }

    /// The words of a workspace's scratch.
    fn work_words(&self, alloc: Global, number: u32) -> Result<Runs, NoMemory>
        requires { length self.now.part.sched.tensors ≤ number }
        ensures { IfOk result (λ words. words ≡ below (work_size self.now.part.sched (number - length self.now.part.sched.tensors))) }
    {
        let sched = &self.part.sched;
        let size = work_size(sched, number - tensor_count(sched));
        let words = Runs::of_box(alloc, &[size], &[0], &[size])?;
        Ok(words)
    }

    /// The words of scratch on a path.
    fn scratch(&self, alloc: Global, number: u32, path: &[u32]) -> Result<Runs, NoMemory>
        requires { has_path self.now path.now ≡ true }
        ensures { IfOk result (λ words. words ≡ scratch_on self.now.layout self.now.part.sched number path.now) }
    {
        let sched = &self.part.sched;
        if number < tensor_count(sched) {
            let layout = self.layout;
            needed(alloc, sched, layout.loc, number, path)
        } else {
            self.work_words(alloc, number)
        }
    }

    /// Puts the scratch of a tensor or workspace at the end, if it is opened on the path.
    fn push_need(
        &self,
        alloc: Global,
        number: u32,
        path: &[u32],
        needs: &mut Vec<Need>,
    ) -> Result<(), NoMemory>
        requires { has_path self.now path.now ≡ true }
        ensures { OnOk result (needs.new.items ≡ needs.old.items ++ (if nat_eq (moved_depth self.now.part.sched number) (length path.now) then need_at self.now path.now number ∷ [] else [])) }
    {
        if moved_depth(&self.part.sched, number) as usize != path.len() {
            return Ok(());
        }
        let words = self.scratch(alloc, number, path)?;
        needs.push(Need {
            tensor: number,
            words,
        })?;
        Ok(())
    }

    /// The scratch that is opened on a path.
    fn needs(&self, alloc: Global, path: &[u32]) -> Result<Needs, NoMemory>
        requires { has_path self.now path.now ≡ true }
        ensures { IfOk result (λ needs. needs ≡ needs_on self.now path.now) }
    {
        let mut items = Vec::new(alloc);
        for number in self.moved.as_slice() {
            self.push_need(alloc, *number, path, &mut items)?;
        }
        Ok(Needs { items })
    }

    /// The node of a path.
    pub(crate) fn node_of(&self, path: &[u32]) -> u32
        ensures node { result ≡ node_of self.now.layout.machine self.now.part.sched path.now }
        ensures within { result < nodes_of self.now.layout.machine }
    {
        let layout = self.layout;
        let coords = front_of(path, self.part.sched.parts().distributed);
        match layout.machine.number(coords) {
            None => 0,
            Some(node) => node,
        }
    }

    /// A path on its node.
    fn on_path<'b>(&'b self, path: &'b [u32]) -> OnPath<'b>
        ensures path { result ≡ path_at self.now path.now }
        ensures homes { HasHomes self.now.layout }
        ensures part { FitsPart self.now.layout self.now.part }
    {
        let layout = self.layout;
        OnPath {
            stmt: self.number,
            node: self.node_of(path),
            path,
            output: output_of(&self.part.sched.parts().nest),
            homes: layout.homes,
        }
    }

    /// Puts the zero of a home of the left tensor at the end, if there is one.
    fn push_zero(&self, alloc: Global, node: u32, ops: &mut Ops) -> Result<(), NoMemory>
        requires { node < nodes_of self.now.layout.machine }
        ensures { OnOk result (ops.new ≡ ops.old ++ (outline_at self.now).zeros node) }
    {
        if self.part.adds {
            return Ok(());
        }
        let layout = self.layout;
        let output = output_of(&self.part.sched.parts().nest);
        let home = &layout.homes[output as usize].as_slice()[node as usize];
        if home.count() == 0 {
            return Ok(());
        }
        ops.push(Op {
            stmt: self.number,
            node,
            path: Vars::new(alloc),
            kind: Kind::Zero,
            tensor: output,
            other: node,
            words: home.copied(alloc)?,
            units: 1,
        })
    }

    /// Puts the scratch of a workspace at the end.
    fn push_work(&self, alloc: Global, number: u32, needs: &mut Vec<Need>) -> Result<(), NoMemory>
        requires { length self.now.part.sched.tensors ≤ number }
        ensures { OnOk result (needs.new.items ≡ needs.old.items ++ work_need self.now number ∷ []) }
    {
        let words = self.work_words(alloc, number)?;
        needs.push(Need {
            tensor: number,
            words,
        })?;
        Ok(())
    }
}

/// The scratch of the workspaces that are opened around a node's paths.
fn node_needs<L: Locator>(alloc: Global, statement: &Statement<L>) -> Result<Needs, NoMemory>
    ensures { IfOk result (λ needs. needs ≡ node_needs statement.now) }
{
    let works = node_works(alloc, &statement.part.sched)?;
    let mut items = Vec::new(alloc);
    for number in works.as_slice() {
        statement.push_work(alloc, *number, &mut items)?;
    }
    Ok(Needs { items })
}

impl<'a, L: Locator> Outlined for Statement<'a, L> {
    ghost outline = { outline_at };

    ghost has_path = { has_path };

    fn nodes(&self) -> u32 {
        let layout = self.layout;
        layout.machine.nodes()
    }

    fn inner(&self) -> u32 {
        self.deepest - self.part.sched.parts().distributed
    }

    fn node(&self, path: &[u32]) -> u32 {
        self.node_of(path)
    }

    fn first_paths(&self, alloc: Global) -> Result<Paths, NoMemory> {
        let sched = &self.part.sched;
        let layout = self.layout;
        let paths = first_paths(alloc, sched, layout.loc, sched.parts().distributed)?;
        Ok(paths)
    }

    fn values(&self, alloc: Global, path: &[u32]) -> Result<Vec<u32>, NoMemory> {
        let layout = self.layout;
        let values = visited_values(alloc, &self.part.sched, layout.loc, path)?;
        Ok(values)
    }

    fn zeros(&self, alloc: Global) -> Result<Ops, NoMemory> {
        let mut ops = Ops::new(alloc);
        for node in 0..self.nodes() {
            self.push_zero(alloc, node, &mut ops)?;
        }
        Ok(ops)
    }

    fn around_node(&self, alloc: Global, node: u32) -> Result<Around, NoMemory> {
        let layout = self.layout;
        let needs = node_needs(alloc, self)?;
        let on = OnPath {
            stmt: self.number,
            node,
            path: &[],
            output: 0,
            homes: layout.homes,
        };
        let around = around_works(alloc, &on, needs.as_slice())?;
        Ok(around)
    }

    fn around(&self, alloc: Global, path: &[u32]) -> Result<Around, NoMemory> {
        let needs = self.needs(alloc, path)?;
        let on = self.on_path(path);
        let around = around_path(alloc, &on, needs.as_slice())?;
        Ok(around)
    }

    fn task(&self, alloc: Global, path: &[u32]) -> Result<Op, NoMemory> {
        let layout = self.layout;
        let node = self.node_of(path);
        let units = visit_count(alloc, &self.part.sched, layout.loc, path)?;
        Ok(Op {
            stmt: self.number,
            node,
            path: Vars::from_slice(alloc, path)?,
            kind: Kind::Task,
            tensor: 0,
            other: node,
            words: Runs::empty(alloc),
            units,
        })
    }
}
