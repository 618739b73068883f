//! A matrix times a vector, whose inner loop is substituted.

ghost use Rattle.std.specs.Prelude.{◌≡◌, ◌≤◌, ◌∷◌, [], IfOk, map};
ghost use Rattle.dt_nest.specs.FitsStored.{FitsStored};
ghost use Rattle.dt_nest.specs.Tree.{tree_of};
ghost use Rattle.dt_tensor.specs.Packed.{IsPacked, stored_of};
ghost use Rattle.dt_bench.specs.DotSchedule.{at, dot_leaf, dot_schedule};

use crate::case_end::CaseEnd;
use dt_base::{Extents, Name, Names, NoMemory, Vars};
use dt_model::{Access, Factor, Factors, Shape, Term, Terms};
use dt_nest::{Derivations, Kernel, MovedList, NameTable, Nest, Sched, SchedParts, Works};
use dt_tensor::{Tensor, Tensors};
use std::alloc::Global;

fn access(alloc: Global, tensor: u32, vars: &[u32]) -> Result<Access, NoMemory>
    ensures { IfOk result (λ a. a ≡ at tensor vars.now) }
{
    let vars = Vars::from_slice(alloc, vars)?;
    Ok(Access { tensor, vars })
}

fn dot_leaf(alloc: Global) -> Result<Nest, NoMemory>
    ensures { IfOk result (λ n. tree_of n ≡ dot_leaf) }
{
    let mut factors = Factors::new(alloc);
    factors.push(Factor::Read(access(alloc, 1, &[0, 1])?))?;
    factors.push(Factor::Read(access(alloc, 2, &[1])?))?;
    let mut terms = Terms::new(alloc);
    terms.push(Term {
        minus: false,
        factors,
    })?;
    Ok(Nest::Leaf {
        lhs: access(alloc, 0, &[0])?,
        terms,
        guards: Vars::new(alloc),
        kernel: Kernel::Dot,
    })
}

/// The two loops, each of this extent, the inner one substituted.
fn dot_nest(alloc: Global, extent: u32) -> Result<Nest, NoMemory>
    ensures { IfOk result (λ n. tree_of n ≡ (dot_schedule extent).nest) }
{
    let leaf = dot_leaf(alloc)?;
    let inner = Nest::Loop {
        var: 1,
        extent,
        walk: None,
        body: Box::new(alloc, leaf)?,
    };
    Ok(Nest::Loop {
        var: 0,
        extent,
        walk: None,
        body: Box::new(alloc, inner)?,
    })
}

fn loop_names(alloc: Global) -> Result<NameTable, NoMemory>
    ensures { IfOk result (λ names. names ≡ (105 ∷ 48 ∷ []) ∷ (106 ∷ []) ∷ []) }
{
    let mut names = NameTable::new(alloc);
    names.push(Name::from_slice(b"i0"))?;
    names.push(Name::from_slice(b"j"))?;
    Ok(names)
}

/// The names of the tensors.
pub fn tensor_names(alloc: Global) -> Result<Names, NoMemory>
    ensures { IfOk result (λ names. names ≡ (65 ∷ []) ∷ (66 ∷ []) ∷ (67 ∷ []) ∷ []) }
{
    let mut names = Names::new(alloc);
    names.push(Name::from_slice(b"A"))?;
    names.push(Name::from_slice(b"B"))?;
    names.push(Name::from_slice(b"C"))?;
    Ok(names)
}

/// The schedule over a square matrix of this extent.
pub fn dot_schedule(alloc: Global, extent: u32) -> Result<Sched, NoMemory>
    ensures { IfOk result (λ sched. sched ≡ dot_schedule extent) }
{
    let parts = SchedParts {
        nest: dot_nest(alloc, extent)?,
        derived: Derivations::new(alloc),
        distributed: 0,
        moved: MovedList::new(alloc),
        tensors: tensor_names(alloc)?,
        names: loop_names(alloc)?,
        extents: Extents::from_slice(alloc, &[extent, extent])?,
        works: Works::new(alloc),
    };
    Ok(Sched::from_parts(parts))
}

/// A dense tensor of zeros.
fn zeros(alloc: Global, extents: &[u32]) -> Result<Tensor, CaseEnd>
    ensures extents { IfOk result (λ t. t.extents ≡ extents.now) }
    ensures packed { IfOk result (λ t. IsPacked t) }
{
    let Some(shape) = Shape::from_extents(extents) else {
        return Err(CaseEnd::Refused);
    };
    let count = shape.count();
    if count > 1_048_576 {
        return Err(CaseEnd::Refused);
    }
    let tensor = Tensor::dense(shape, vec![in alloc; 0u64; count as usize]?);
    let _packed = tensor.shape();
    Ok(tensor)
}

/// The vector A, the matrix B and the vector C.
pub fn dot_tensors(alloc: Global, extent: u32) -> Result<Tensors, CaseEnd>
    ensures { IfOk result (λ tensors. FitsStored (map stored_of tensors) (dot_schedule extent)) }
{
    let mut list = Vec::new(alloc);
    list.push(zeros(alloc, &[extent])?)?;
    list.push(zeros(alloc, &[extent, extent])?)?;
    list.push(zeros(alloc, &[extent])?)?;
    Ok(Tensors::from_list(list))
}
