//! The tests of what `value_at` asks of a statement and an index.

ghost use Rattle.std.specs.Prelude.{◌≡◌, ◌<◌, ◌↔◌, IsTrue, All, length, map, slice_index};
ghost use Rattle.dt_base.specs.Ranges.{below};
ghost use Rattle.dt_model.specs.Stmts.{shapes_of, IsAccess, IsFactor, IsTerm, IsStmt, IsIndex};

use crate::stmt::{Access, Factor, Stmt, Term};
use crate::value::tensor_at;
use crate::whole::Whole;

fn are_below(vars: &[u32], count: usize) -> bool
    ensures { IsTrue result ↔ All (λ v. v < count) vars.now }
{
    vars.iter().all(|v| (*v as usize) < count)
}

/// Whether the variables are numbered from 0, in order.
fn are_counted(vars: &[u32]) -> bool
    ensures { IsTrue result ↔ (vars.now ≡ below (length vars.now)) }
{
    for (i, v) in vars.iter().enumerate() {
        if *v as usize != i {
            return false;
        }
    }
    true
}

/// Whether each dimension has the extent of the variable that stands there.
fn have_extents(dims: &[u32], vars: &[u32], extents: &[u32]) -> bool
    requires { All (λ v. v < length extents.now) vars.now }
    ensures { IsTrue result ↔ (dims.now ≡ map (λ v. slice_index extents.now v) vars.now) }
{
    if dims.len() != vars.len() {
        return false;
    }
    for (i, v) in vars.iter().enumerate() {
        if dims[i] != extents[*v as usize] {
            return false;
        }
    }
    true
}

fn is_access(access: &Access, tensors: &[Whole], extents: &[u32]) -> bool
    ensures { IsTrue result ↔ IsAccess (shapes_of tensors.now) extents.now access.now }
{
    let vars = access.vars.as_slice();
    if vars.len() > 4 || !are_below(vars, extents.len()) {
        return false;
    }
    match tensor_at(tensors, access.tensor as usize) {
        None => false,
        Some(tensor) => have_extents(tensor.shape().dims(), vars, extents),
    }
}

fn is_factor(factor: &Factor, tensors: &[Whole], extents: &[u32]) -> bool
    ensures { IsTrue result ↔ IsFactor (shapes_of tensors.now) extents.now factor.now }
{
    match factor {
        Factor::Literal(_) => true,
        Factor::Read(access) => is_access(access, tensors, extents),
    }
}

fn is_term(term: &Term, tensors: &[Whole], extents: &[u32]) -> bool
    ensures { IsTrue result ↔ IsTerm (shapes_of tensors.now) extents.now term.now }
{
    let factors = term.factors.as_slice();
    factors.iter().all(|f| is_factor(f, tensors, extents))
}

fn are_terms(terms: &[Term], tensors: &[Whole], extents: &[u32]) -> bool
    ensures { IsTrue result ↔ All (IsTerm (shapes_of tensors.now) extents.now) terms.now }
{
    terms.iter().all(|t| is_term(t, tensors, extents))
}

/// Whether the statement stands over these tensors: each access fits its tensor, and the variables are numbered
/// from the left side on.
pub fn is_stmt(stmt: &Stmt, tensors: &[Whole]) -> bool
    ensures { IsTrue result ↔ IsStmt (shapes_of tensors.now) stmt.now }
{
    let extents = stmt.extents.as_slice();
    extents.len() <= 8
        && are_counted(stmt.lhs.vars.as_slice())
        && is_access(&stmt.lhs, tensors, extents)
        && are_terms(stmt.terms.as_slice(), tensors, extents)
}

/// Whether the coordinates are an index of the statement's left tensor.
pub fn is_index(stmt: &Stmt, tensors: &[Whole], c: &[u32]) -> bool
    ensures { IsTrue result ↔ IsIndex (shapes_of tensors.now) stmt.now c.now }
{
    match tensor_at(tensors, stmt.lhs.tensor as usize) {
        None => c.is_empty(),
        Some(left) => left.shape().index(c).is_some(),
    }
}
