//! The schedule that the tests visit, made part by part.

ghost use Rattle.std.specs.Prelude.{◌≡◌, ◌≤◌, ◌∷◌, [], None, IfOk, length};
ghost use Rattle.dt_nest.specs.Schedule.{seen};
ghost use Rattle.dt_nest.specs.Tree.{Loop, Pre, tree_of};
ghost use Rattle.dt_visit_tests.specs.RowSchedule.{at, fill_leaf, fill_tree, new_names, row_schedule, row_tree, sum_leaf, sum_tree};

use dt_base::{Extents, Name, Names, NoMemory, Vars};
use dt_model::{Access, Factor, Factors, Term, Terms};
use dt_nest::{
    Derivations, Derive, Derived, Kernel, MovedList, NameTable, Nest, Pair, Pairs, Sched,
    SchedParts, Walk, Work, Works,
};
use std::alloc::Global;

fn access(alloc: Global, tensor: u32, vars: &[u32]) -> Result<Access, NoMemory>
    ensures { IfOk result (λ a. a ≡ at tensor vars.now) }
{
    let vars = Vars::from_slice(alloc, vars)?;
    Ok(Access { tensor, vars })
}

/// The leaf that fills the workspace.
fn fill_leaf(alloc: Global) -> Result<Nest, NoMemory>
    ensures { IfOk result (λ n. tree_of n ≡ fill_leaf) }
{
    let mut factors = Factors::new(alloc);
    factors.push(Factor::Read(access(alloc, 1, &[0, 1])?))?;
    let mut terms = Terms::new(alloc);
    terms.push(Term {
        minus: false,
        factors,
    })?;
    Ok(Nest::Leaf {
        lhs: access(alloc, 3, &[2, 3])?,
        terms,
        guards: Vars::from_slice(alloc, &[1])?,
        kernel: Kernel::Plain,
    })
}

/// The leaf that reads the workspace.
fn sum_leaf(alloc: Global) -> Result<Nest, NoMemory>
    ensures { IfOk result (λ n. tree_of n ≡ sum_leaf) }
{
    let mut factors = Factors::new(alloc);
    factors.push(Factor::Read(access(alloc, 3, &[2, 3])?))?;
    factors.push(Factor::Read(access(alloc, 2, &[1])?))?;
    let mut terms = Terms::new(alloc);
    terms.push(Term {
        minus: false,
        factors,
    })?;
    Ok(Nest::Leaf {
        lhs: access(alloc, 0, &[0])?,
        terms,
        guards: Vars::from_slice(alloc, &[1])?,
        kernel: Kernel::Dot,
    })
}

/// A loop around a nest.
fn around(alloc: Global, var: u32, extent: u32, nest: Nest) -> Result<Nest, NoMemory>
    ensures { IfOk result (λ n. tree_of n ≡ Loop var extent None (tree_of nest)) }
{
    Ok(Nest::Loop {
        var,
        extent,
        walk: None,
        body: Box::new(alloc, nest)?,
    })
}

/// The loops of the producer, under their new names.
fn fill_nest(alloc: Global) -> Result<Nest, NoMemory>
    ensures { IfOk result (λ n. tree_of n ≡ fill_tree) }
{
    let inner = around(alloc, 5, 3, fill_leaf(alloc)?)?;
    around(alloc, 4, 2, inner)
}

/// The loops of the consumer.
fn sum_nest(alloc: Global) -> Result<Nest, NoMemory>
    ensures { IfOk result (λ n. tree_of n ≡ sum_tree) }
{
    let inner = around(alloc, 3, 3, sum_leaf(alloc)?)?;
    around(alloc, 2, 2, inner)
}

fn new_names(alloc: Global) -> Result<Pairs, NoMemory>
    ensures { IfOk result (λ pairs. pairs ≡ new_names) }
{
    let pairs = [Pair { from: 2, to: 4 }, Pair { from: 3, to: 5 }];
    Ok(Pairs::from_vec(Vec::from_slice(alloc, &pairs)?))
}

/// The precompute node.
fn node(alloc: Global) -> Result<Nest, NoMemory>
    ensures { IfOk result (λ n. tree_of n ≡ Pre 0 new_names fill_tree sum_tree) }
{
    let fill = fill_nest(alloc)?;
    let sum = sum_nest(alloc)?;
    Ok(Nest::Pre {
        work: 0,
        pairs: new_names(alloc)?,
        producer: Box::new(alloc, fill)?,
        consumer: Box::new(alloc, sum)?,
    })
}

/// The nest of the schedule.
fn row_nest(alloc: Global) -> Result<Nest, NoMemory>
    ensures { IfOk result (λ n. tree_of n ≡ row_tree) }
{
    let body = node(alloc)?;
    let walk = Walk {
        tensor: 1,
        vars: Vars::from_slice(alloc, &[0, 1])?,
    };
    Ok(Nest::Loop {
        var: 0,
        extent: 3,
        walk: Some(walk),
        body: Box::new(alloc, body)?,
    })
}

fn loop_names(alloc: Global) -> Result<NameTable, NoMemory>
    ensures { IfOk result (λ names. names ≡ row_schedule.names) }
{
    let mut names = NameTable::new(alloc);
    names.push(Name::from_slice(b"i"))?;
    names.push(Name::from_slice(b"j"))?;
    names.push(Name::from_slice(b"jo"))?;
    names.push(Name::from_slice(b"ji"))?;
    names.push(Name::from_slice(b"jow"))?;
    names.push(Name::from_slice(b"jiw"))?;
    Ok(names)
}

fn tensor_names(alloc: Global) -> Result<Names, NoMemory>
    ensures { IfOk result (λ names. names ≡ row_schedule.tensors) }
{
    let mut names = Names::new(alloc);
    names.push(Name::from_slice(b"A"))?;
    names.push(Name::from_slice(b"B"))?;
    names.push(Name::from_slice(b"C"))?;
    Ok(names)
}

fn derivations(alloc: Global) -> Result<Derivations, NoMemory>
    ensures { IfOk result (λ derived. derived ≡ row_schedule.derived) }
{
    let mut derived = Derivations::new(alloc);
    let how = Derive::Split {
        outer: 2,
        inner: 3,
        factor: 3,
    };
    derived.push(Derived { var: 1, how })?;
    Ok(derived)
}

fn workspaces(alloc: Global) -> Result<Works, NoMemory>
    ensures { IfOk result (λ works. works ≡ row_schedule.works) }
{
    let mut works = Works::new(alloc);
    works.push(Work {
        name: Name::from_slice(b"W"),
        extents: Extents::from_slice(alloc, &[2, 3])?,
    })?;
    Ok(works)
}

/// The schedule with a walked loop, a precompute node and a substituted loop.
pub fn row_schedule(alloc: Global) -> Result<Sched, NoMemory>
    ensures { IfOk result (λ sched. sched ≡ row_schedule) }
{
    let parts = SchedParts {
        nest: row_nest(alloc)?,
        derived: derivations(alloc)?,
        distributed: 0,
        moved: MovedList::new(alloc),
        tensors: tensor_names(alloc)?,
        names: loop_names(alloc)?,
        extents: Extents::from_slice(alloc, &[3, 4, 2, 3, 2, 3])?,
        works: workspaces(alloc)?,
    };
    Ok(Sched::from_parts(parts))
}
