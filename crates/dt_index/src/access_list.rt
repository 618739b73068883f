//! The accesses of a statement, from the left.

ghost use Rattle.std.specs.Prelude.{◌≡◌, ◌++◌, IfOk, OnOk, map};
ghost use Rattle.dt_index.specs.Resolve.{accesses_of, right_accesses, term_accesses};

use crate::form::{Form, NamedAccess, NamedFactor, NamedTerm};
use dt_base::NoMemory;
use std::alloc::Global;

/// The accesses of a statement: the left one, and those of the right side.
pub(crate) fn all_accesses<'a>(
    alloc: Global,
    form: &'a Form,
    right: &[&'a NamedAccess],
) -> Result<Vec<&'a NamedAccess>, NoMemory>
    requires { map (λ a. a.now) right.now ≡ right_accesses form.now }
    ensures { IfOk result (λ v. map (λ a. a.now) v.items ≡ accesses_of form.now) }
{
    let mut accesses = Vec::new(alloc);
    accesses.push(&form.lhs)?;
    accesses.extend_from_slice(right)?;
    Ok(accesses)
}

/// The accesses of the right side.
pub(crate) fn right_accesses(alloc: Global, form: &Form) -> Result<Vec<&NamedAccess>, NoMemory>
    ensures { IfOk result (λ v. map (λ a. a.now) v.items ≡ right_accesses form.now) }
{
    let mut accesses = Vec::new(alloc);
    for term in form.terms.as_slice() {
        add_term(&mut accesses, term)?;
    }
    Ok(accesses)
}

fn add_term<'a>(accesses: &mut Vec<&'a NamedAccess>, term: &'a NamedTerm) -> Result<(), NoMemory>
    ensures { OnOk result (map (λ a. a.now) accesses.new.items ≡ map (λ a. a.now) accesses.old.items ++ term_accesses term.now) }
{
    for factor in term.factors.as_slice() {
        match factor {
            NamedFactor::Read(access) => accesses.push(access)?,
            NamedFactor::Literal(_) => {}
        }
    }
    Ok(())
}
