//! What is asked of a nest.

ghost use Rattle.std.specs.Prelude.{◌≡◌, ◌+◌, ◌≤◌, ◌++◌, length, nat_eq};
ghost use Rattle.std.specs.List.{flat_map, list_any};
ghost use Rattle.dt_nest.specs.Tree.{tree_of, has_loop, loop_count, factor_accesses, read_accesses};
ghost use Rattle.dt_nest.specs.Questions.{accesses_tensor, is_among, is_fixed, loops_to, all_differ, begins_with, chain_from, in_order, is_chain, is_in, misplaced};

use crate::loops::Nest;
use crate::search::has_kernel;
use arrayvec::ArrayVec;
use dt_model::{Factor, Term};

/// Whether the nest has the loop, in either branch of a precompute node.
pub fn has_loop(nest: &Nest, v: u32) -> bool
    ensures { result ≡ has_loop v (tree_of nest.now) }
{
    match nest {
        Nest::Loop { var, body, .. } => *var == v || has_loop(body, v),
        Nest::Pre {
            producer,
            consumer,
            ..
        } => has_loop(producer, v) || has_loop(consumer, v),
        Nest::Leaf { .. } => false,
    }
}

/// The number of loops, those of both branches of a precompute node.
pub fn loop_count(nest: &Nest) -> u32
    requires { loop_count (tree_of nest.now) ≤ 16 }
    ensures { result ≡ loop_count (tree_of nest.now) }
{
    match nest {
        Nest::Loop { body, .. } => loop_count(body) + 1,
        Nest::Pre {
            producer,
            consumer,
            ..
        } => loop_count(producer) + loop_count(consumer),
        Nest::Leaf { .. } => 0,
    }
}

/// Whether `v` is among the first `k` loops, outside every precompute node.
pub fn is_among(nest: &Nest, k: u32, v: u32) -> bool
    ensures { result ≡ is_among k v (tree_of nest.now) }
{
    if k == 0 {
        return false;
    }
    match nest {
        Nest::Loop { var, body, .. } => *var == v || is_among(body, k - 1, v),
        Nest::Pre { .. } => false,
        Nest::Leaf { .. } => false,
    }
}

/// Whether loop `v` is walked or substituted.
pub fn is_fixed(nest: &Nest, v: u32) -> bool
    ensures { result ≡ is_fixed v (tree_of nest.now) }
{
    match nest {
        Nest::Loop {
            var,
            walk,
            body,
            ..
        } => {
            if *var == v {
                walk.is_some() || has_kernel(body)
            } else {
                is_fixed(body, v)
            }
        }
        Nest::Pre {
            producer,
            consumer,
            ..
        } => is_fixed(producer, v) || is_fixed(consumer, v),
        Nest::Leaf { .. } => false,
    }
}

/// Whether `u` is a loop around loop `v`.
pub fn is_around(nest: &Nest, v: u32, u: u32) -> bool
    ensures { result ≡ is_in (loops_to v (tree_of nest.now)) u }
{
    match nest {
        Nest::Loop { var, body, .. } => *var != v && (u == *var || is_around(body, v, u)),
        Nest::Pre {
            producer,
            consumer,
            ..
        } => {
            if has_loop(producer, v) {
                is_around(producer, v, u)
            } else {
                is_around(consumer, v, u)
            }
        }
        Nest::Leaf { .. } => false,
    }
}

pub fn is_in(vars: &[u32], v: u32) -> bool
    ensures { result ≡ is_in vars.now v }
{
    vars.contains(&v)
}

pub fn all_differ(vars: &[u32]) -> bool
    ensures { result ≡ all_differ vars.now }
{
    match vars.split_first() {
        None => true,
        Some((first, rest)) => !is_in(rest, *first) && all_differ(rest),
    }
}

fn begins_with(nest: &Nest, vars: &[u32]) -> bool
    ensures { result ≡ begins_with vars.now (tree_of nest.now) }
{
    match vars.split_first() {
        None => true,
        Some((first, rest)) => match nest {
            Nest::Loop { var, body, .. } => *var == *first && begins_with(body, rest),
            Nest::Pre { .. } => false,
            Nest::Leaf { .. } => false,
        },
    }
}

fn chain_from(nest: &Nest, first: u32, rest: &[u32]) -> bool
    ensures { result ≡ chain_from first rest.now (tree_of nest.now) }
{
    match nest {
        Nest::Loop { var, body, .. } => {
            if *var == first {
                begins_with(body, rest)
            } else {
                chain_from(body, first, rest)
            }
        }
        Nest::Pre {
            producer,
            consumer,
            ..
        } => chain_from(producer, first, rest) || chain_from(consumer, first, rest),
        Nest::Leaf { .. } => false,
    }
}

/// Whether these are consecutive loops, each the body of the one before.
pub fn is_chain(nest: &Nest, vars: &[u32]) -> bool
    ensures { result ≡ is_chain vars.now (tree_of nest.now) }
{
    match vars.split_first() {
        None => true,
        Some((first, rest)) => chain_from(nest, *first, rest),
    }
}

/// The list with those of these loops that stand in the nest at the end, in the nest's order.
fn then_in_order(nest: &Nest, vars: &[u32], found: ArrayVec<u32, 16>) -> ArrayVec<u32, 16>
    requires { length found.items + loop_count (tree_of nest.now) ≤ 16 }
    ensures items { result.items ≡ found.items ++ in_order vars.now (tree_of nest.now) }
    ensures few { length result.items ≤ length found.items + loop_count (tree_of nest.now) }
{
    match nest {
        Nest::Loop { var, body, .. } => {
            if is_in(vars, *var) {
                let mut found = found;
                found.push(*var);
                then_in_order(body, vars, found)
            } else {
                then_in_order(body, vars, found)
            }
        }
        Nest::Pre {
            producer,
            consumer,
            ..
        } => {
            let found = then_in_order(producer, vars, found);
            then_in_order(consumer, vars, found)
        }
        Nest::Leaf { .. } => found,
    }
}

/// Those of these loops that stand in the nest, in the nest's order.
pub fn in_order(nest: &Nest, vars: &[u32]) -> ArrayVec<u32, 16>
    requires { loop_count (tree_of nest.now) ≤ 16 }
    ensures { result.items ≡ in_order vars.now (tree_of nest.now) }
{
    then_in_order(nest, vars, ArrayVec::new())
}

/// The first of these loops that isn't at its place from the outside.
pub fn misplaced(nest: &Nest, vars: &[u32]) -> Option<u32>
    ensures { result ≡ misplaced vars.now (tree_of nest.now) }
{
    let (first, rest) = vars.split_first()?;
    match nest {
        Nest::Loop { var, body, .. } => {
            if *var == *first {
                misplaced(body, rest)
            } else {
                Some(*first)
            }
        }
        Nest::Pre { .. } => Some(*first),
        Nest::Leaf { .. } => Some(*first),
    }
}

fn factor_accesses(factor: &Factor, t: u32) -> bool
    ensures { result ≡ list_any (λ a. nat_eq a.tensor t) (factor_accesses factor.now) }
{
    match factor {
        Factor::Read(access) => access.tensor == t,
        Factor::Literal(_) => false,
    }
}

#[tactic(auto, using(crate::proofs::Accesses::any))]
fn factors_access(factors: &[Factor], t: u32) -> bool
    ensures { result ≡ list_any (λ a. nat_eq a.tensor t) (flat_map factor_accesses factors.now) }
{
    match factors.split_first() {
        None => false,
        Some((first, rest)) => factor_accesses(first, t) || factors_access(rest, t),
    }
}

#[tactic(auto, using(crate::proofs::Accesses::any))]
fn terms_access(terms: &[Term], t: u32) -> bool
    ensures { result ≡ list_any (λ a. nat_eq a.tensor t) (read_accesses terms.now) }
{
    match terms.split_first() {
        None => false,
        Some((first, rest)) => {
            factors_access(first.factors.as_slice(), t) || terms_access(rest, t)
        }
    }
}

/// Whether a leaf of the nest accesses the tensor or workspace.
#[tactic(auto, using(crate::proofs::Accesses::any))]
pub fn accesses_tensor(nest: &Nest, t: u32) -> bool
    ensures { result ≡ accesses_tensor (tree_of nest.now) t }
{
    match nest {
        Nest::Loop { body, .. } => accesses_tensor(body, t),
        Nest::Pre {
            producer,
            consumer,
            ..
        } => accesses_tensor(producer, t) || accesses_tensor(consumer, t),
        Nest::Leaf { lhs, terms, .. } => { lhs.tensor == t || terms_access(terms.as_slice(), t) }
    }
}
