//! A statement by numbers, in place of names.

ghost use Rattle.std.specs.Prelude.{◌≡◌, ◌≤◌, ◌<◌, ◌++◌, ℕ, List, length, map, position, IfOk, IfSome, OnOk};
ghost use Rattle.std.specs.List.{flat_map, list_any};
ghost use Rattle.std.specs.Str.{bytes_eq};
ghost use Rattle.dt_index.specs.Resolve.{distinct, extent_of, number_in, numbered, numbered_factor, numbered_term, stmt_by};

use crate::form::{Form, NamedAccess, NamedFactor, NamedTerm};
use crate::lookup::Lookup;
use crate::name_set::NameSet;
use crate::occurrence_list::Occurrence;
use crate::offenders::same_name;
use dt_base::{Extents, Name, Names, NoMemory, Vars};
use dt_model::{Access, Factor, Factors, Stmt, Term, Terms};
use std::alloc::Global;

/// The variables of accesses, by first occurrence.
pub(crate) fn variables_in(alloc: Global, accesses: &[&NamedAccess]) -> Result<Names, NoMemory>
    ensures { IfOk result (λ vs. vs ≡ distinct (flat_map (λ a. a.vars) (map (λ a. a.now) accesses.now))) }
{
    let mut variables = NameSet::new(alloc);
    for access in accesses {
        add_new(&mut variables, access.vars.as_slice())?;
    }
    copied_names(alloc, variables.as_slice())
}

/// Puts those names at the end that don't stand there yet.
fn add_new(names: &mut NameSet, more: &[Name]) -> Result<(), NoMemory>
    ensures { OnOk result ((vs : List (List ℕ)) → names.old ≡ distinct vs → names.new ≡ distinct (vs ++ more.now)) }
{
    for name in more {
        names.insert(name.copied())?;
    }
    Ok(())
}

fn copied_names(alloc: Global, names: &[Name]) -> Result<Names, NoMemory>
    ensures { IfOk result (λ copies. copies ≡ names.now) }
{
    let mut copies = Names::new(alloc);
    for name in names {
        copies.push(name.copied())?;
    }
    Ok(copies)
}

pub(crate) fn has_name(names: &[Name], name: &Name) -> bool
    ensures { result ≡ list_any (λ w. bytes_eq w name.now) names.now }
{
    names.iter().any(|other| same_name(other, name))
}

/// The statement over the tensors by number. The variables have the numbers of their places.
pub(crate) fn statement<L: Lookup>(
    alloc: Global,
    form: &Form,
    names: &L,
    variables: &[Name],
    occurrences: &[Occurrence],
) -> Result<Stmt, NoMemory>
    requires { length variables.now ≤ 8 }
    ensures { IfOk result (λ s. s ≡ stmt_by (L.tensors names.now) variables.now occurrences.now form.now) }
{
    let mut terms = Terms::new(alloc);
    for term in form.terms.as_slice() {
        terms.push(numbered_term(alloc, term, names, variables)?)?;
    }
    Ok(Stmt {
        lhs: numbered(alloc, &form.lhs, names, variables)?,
        adds: form.adds,
        terms,
        extents: extents(alloc, variables, occurrences)?,
    })
}

fn numbered_term<L: Lookup>(
    alloc: Global,
    term: &NamedTerm,
    names: &L,
    variables: &[Name],
) -> Result<Term, NoMemory>
    requires { length variables.now ≤ 8 }
    ensures { IfOk result (λ t. t ≡ numbered_term (L.tensors names.now) variables.now term.now) }
{
    let mut factors = Factors::new(alloc);
    for factor in term.factors.as_slice() {
        factors.push(numbered_factor(alloc, factor, names, variables)?)?;
    }
    Ok(Term {
        minus: term.minus,
        factors,
    })
}

fn numbered_factor<L: Lookup>(
    alloc: Global,
    factor: &NamedFactor,
    names: &L,
    variables: &[Name],
) -> Result<Factor, NoMemory>
    requires { length variables.now ≤ 8 }
    ensures { IfOk result (λ f. f ≡ numbered_factor (L.tensors names.now) variables.now factor.now) }
{
    match factor {
        NamedFactor::Read(access) => {
            let access = numbered(alloc, access, names, variables)?;
            Ok(Factor::Read(access))
        }
        NamedFactor::Literal(value) => Ok(Factor::Literal(value.unwrap_or(0))),
    }
}

fn numbered<L: Lookup>(
    alloc: Global,
    access: &NamedAccess,
    names: &L,
    variables: &[Name],
) -> Result<Access, NoMemory>
    requires { length variables.now ≤ 8 }
    ensures { IfOk result (λ a. a ≡ numbered (L.tensors names.now) variables.now access.now) }
{
    let mut vars = Vars::new(alloc);
    for variable in access.vars.as_slice() {
        vars.push(number_in(variables, variable))?;
    }
    Ok(Access {
        tensor: names.find(access.tensor.as_slice()).unwrap_or(0),
        vars,
    })
}

fn number_in(variables: &[Name], variable: &Name) -> u32
    requires { length variables.now ≤ 8 }
    ensures { result ≡ number_in variables.now variable.now }
{
    match place_of(variables, variable) {
        None => 0,
        Some(place) => place as u32,
    }
}

fn place_of(variables: &[Name], variable: &Name) -> Option<usize>
    ensures within { IfSome result (λ k. k < length variables.now) }
    ensures value { result ≡ position (λ w. bytes_eq w variable.now) variables.now }
{
    variables
        .iter()
        .position(|other| same_name(other, variable))
}

/// One extent for each variable.
fn extents(
    alloc: Global,
    variables: &[Name],
    occurrences: &[Occurrence],
) -> Result<Extents, NoMemory>
    ensures { IfOk result (λ es. es ≡ map (extent_of occurrences.now) variables.now) }
{
    let mut extents = Extents::new(alloc);
    for variable in variables {
        extents.push(extent_of(variable, occurrences))?;
    }
    Ok(extents)
}

/// The extent of a variable where it first stands.
pub(crate) fn extent_of(variable: &Name, occurrences: &[Occurrence]) -> u32
    ensures { result ≡ extent_of occurrences.now variable.now }
{
    let first = occurrences
        .iter()
        .find(|occurrence| same_name(&occurrence.name, variable));
    match first {
        None => 0,
        Some(occurrence) => occurrence.extent,
    }
}
