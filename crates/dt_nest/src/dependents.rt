//! The derivations whose values follow from some loops.

ghost use Rattle.std.specs.Prelude.{◌≡◌, ◌<◌, ◌++◌, ◌∷◌, ◌^◌, [], ℕ, IfOk, OnOk, if◌then◌else◌, length};
ghost use Rattle.std.specs.List.{AllByRecursion, list_any};
ghost use Rattle.dt_nest.specs.Lawful.{sources};
ghost use Rattle.dt_nest.specs.ValueTables.{dependents, marked};
ghost use Rattle.dt_nest.specs.InnerLoops.{AreDependents, is_inner_loop};

use crate::derivations::{Derivations, Derive, Derived};
use crate::inner_loops::InnerLoop;
use dt_base::NoMemory;
use std::alloc::Global;

/// Whether a variable is marked; none past the last is.
fn marked(marks: &[bool], u: u32) -> bool
    ensures { result ≡ marked marks.now u }
{
    let at = u as usize;
    if at < marks.len() { marks[at] } else { false }
}

/// Whether one of some variables is marked.
fn any_marked(marks: &[bool], vars: &[u32]) -> bool
    ensures { result ≡ list_any (marked marks.now) vars.now }
{
    match vars.split_first() {
        None => false,
        Some((first, rest)) => marked(marks, *first) || any_marked(marks, rest),
    }
}

/// Whether a derivation names a variable that is marked.
fn names_marked(marks: &[bool], how: &Derive) -> bool
    ensures { result ≡ list_any (marked marks.now) (sources how.now) }
{
    match how {
        Derive::Split { outer, inner, .. } => marked(marks, *outer) || marked(marks, *inner),
        Derive::Quotient { fused, .. } => marked(marks, *fused),
        Derive::Rest { fused, .. } => marked(marks, *fused),
        Derive::Rotate { base, by, .. } => {
            marked(marks, *base) || any_marked(marks, by.as_slice())
        }
        Derive::Pos { base, .. } => marked(marks, *base),
    }
}

/// Puts a derivation at the end of a list, where it is one of those sought.
fn push_if(
    alloc: Global,
    sought: bool,
    derived: &Derived,
    list: &mut Derivations,
) -> Result<(), NoMemory>
    ensures { OnOk result (list.new ≡ list.old ++ (if sought then derived.now ∷ [] else [])) }
{
    if sought {
        list.push(derived.copied(alloc)?)?;
    }
    Ok(())
}

/// The derivations whose values follow from the marked variables, in the order in which the values are made: what a
/// derivation names is replaced by a later one. It marks the variables that follow.
pub fn dependents(
    alloc: Global,
    derived: &[Derived],
    marks: &mut [bool],
) -> Result<Derivations, NoMemory>
    requires { AllByRecursion (λ d. d.var < length marks.old) derived.now }
    ensures list { IfOk result (λ list. list ≡ dependents derived.now (marked marks.old)) }
    ensures length { length marks.new ≡ length marks.old }
{
    let mut list = Derivations::new(alloc);
    let mut k = derived.len();
    while k > 0 {
        k -= 1;
        let d = &derived[k];
        let follows = names_marked(marks, &d.how);
        marks[d.var as usize] = follows;
        push_if(alloc, follows, d, &mut list)?;
    }
    Ok(list)
}

/// Whether a variable is one of the inner loops.
fn is_inner_loop(inner_loops: &[InnerLoop], u: u32) -> bool
    ensures { result ≡ is_inner_loop inner_loops.now u }
{
    match inner_loops.split_first() {
        None => false,
        Some((first, rest)) => u == first.var || is_inner_loop(rest, u),
    }
}

/// Marks the inner loops, and no other variable.
fn mark_inner_loops(inner_loops: &[InnerLoop], marks: &mut [bool])
    requires small { length marks.old < 2 ^ 32 }
    requires within { AllByRecursion (λ w. w.var < length marks.old) inner_loops.now }
    ensures marks { (u : ℕ) → marked marks.new u ≡ is_inner_loop inner_loops.now u }
    ensures length { length marks.new ≡ length marks.old }
{
    for u in 0..marks.len() {
        marks[u] = is_inner_loop(inner_loops, u as u32);
    }
}

/// For each inner loop the derivations whose values follow from it or from the loops inside it.
pub fn inner_loop_dependents(
    alloc: Global,
    derived: &[Derived],
    inner_loops: &[InnerLoop],
    names: usize,
) -> Result<Vec<Derivations>, NoMemory>
    requires small { names < 2 ^ 32 }
    requires derived { AllByRecursion (λ d. d.var < names) derived.now }
    requires inner_loops { AllByRecursion (λ w. w.var < names) inner_loops.now }
    ensures count { IfOk result (λ lists. length lists.items ≡ length inner_loops.now) }
    ensures lists { IfOk result (λ lists. AreDependents derived.now inner_loops.now lists.items) }
{
    let mut marks = vec![in alloc; false; names]?;
    let mut lists = Vec::new(alloc);
    for k in 0..inner_loops.len() {
        mark_inner_loops(&inner_loops[..k + 1], marks.as_mut_slice());
        let list = dependents(alloc, derived, marks.as_mut_slice())?;
        lists.push(list)?;
    }
    Ok(lists)
}
