//! Statements that are written as rows, and tensors of zeros, for tests.

use dt_base::{Extents, NoMemory, Vars};
use dt_model::{Access, Factor, Factors, Shape, Stmt, Term, Terms};
use dt_tensor::{Tensor, Tensors};
use std::alloc::Global;
use std::test::Fail;

/// A factor: a tensor at these variables, or a literal.
#[derive(Clone, Copy)]
pub enum Part<'a> {
    At(u32, &'a [u32]),
    Number(u64),
}

/// A statement over tensors of these shapes.
#[derive(Clone, Copy)]
pub struct Written<'a> {
    pub extents: &'a [u32],
    pub shapes: &'a [&'a [u32]],
    pub left: (u32, &'a [u32]),
    pub adds: bool,
    pub terms: &'a [&'a [Part<'a>]],
}

/// A tensor at these variables.
fn access(alloc: Global, tensor: u32, vars: &[u32]) -> Result<Access, NoMemory> {
    let vars = Vars::from_slice(alloc, vars)?;
    Ok(Access { tensor, vars })
}

/// A term with these factors.
fn term(alloc: Global, parts: &[Part]) -> Result<Term, NoMemory> {
    let mut factors = Factors::new(alloc);
    for part in parts {
        let factor = match *part {
            Part::Number(n) => Factor::Literal(n),
            Part::At(tensor, vars) => Factor::Read(access(alloc, tensor, vars)?),
        };
        factors.push(factor)?;
    }
    Ok(Term {
        minus: false,
        factors,
    })
}

/// The statement as it is written.
pub fn statement(alloc: Global, written: &Written) -> Result<Stmt, NoMemory> {
    let (tensor, vars) = written.left;
    let mut terms = Terms::new(alloc);
    for parts in written.terms {
        terms.push(term(alloc, *parts)?)?;
    }
    Ok(Stmt {
        lhs: access(alloc, tensor, vars)?,
        adds: written.adds,
        terms,
        extents: Extents::from_slice(alloc, written.extents)?,
    })
}

/// Tensors of these shapes, with no number but 0.
pub fn zeros(alloc: Global, shapes: &[&[u32]]) -> Result<Tensors, Fail> {
    let mut list = Vec::new(alloc);
    for extents in shapes {
        list.push(zero(alloc, *extents)?)?;
    }
    Ok(Tensors::from_list(list))
}

/// A tensor with these extents, with no number but 0.
pub fn zero(alloc: Global, extents: &[u32]) -> Result<Tensor, Fail> {
    let shape = Shape::from_extents(extents).ok_or("no shape")?;
    let count = shape.count();
    if count > 1048576 {
        return Err("too many")?;
    }
    Ok(Tensor::dense(shape, vec![in alloc; 0u64; count as usize]?))
}
