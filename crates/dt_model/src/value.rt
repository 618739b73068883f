//! The number that a statement gives at an index.

ghost use Rattle.std.specs.Prelude.{◌≡◌, ◌≤◌, ◌<◌, ◌+◌, ◌*◌, ◌^◌, ◌%◌, ◌++◌, ◌-◌, ℕ, length, take, drop, sum_by, map, All, slice_get};
ghost use Rattle.std.specs.Option.{option_copied};
ghost use Rattle.dt_model.specs.Stmts.{shapes_of, HasVariables, HasFactorVariables, IsStmt, IsIndex};
ghost use Rattle.dt_model.specs.Value.{value_of, term_value, factor_value, access_value, coordinates, sign, term_sum};

use crate::stmt::{Access, Factor, Stmt};
use crate::whole::Whole;

pub(crate) fn tensor_at(tensors: &[Whole], at: usize) -> Option<&Whole>
    ensures { option_copied result ≡ slice_get tensors.now at }
{
    tensors.get(at)
}

fn access_at(access: &Access, tensors: &[Whole], env: &[u32]) -> u64
    requires { HasVariables (length env.now) access.now }
    ensures { result ≡ access_value tensors.now env.now access.now }
{
    let vars = access.vars.as_slice();
    let mut c = [0u32; 4];
    for (i, v) in vars.iter().enumerate() {
        c[i] = env[*v as usize];
    }
    match tensor_at(tensors, access.tensor as usize) {
        None => 0,
        Some(tensor) => tensor.get(&c[..vars.len()]).unwrap_or(0),
    }
}

fn factor_at(factor: &Factor, tensors: &[Whole], env: &[u32]) -> u64
    requires { HasFactorVariables (length env.now) factor.now }
    ensures { result ≡ factor_value tensors.now env.now factor.now }
{
    match factor {
        Factor::Literal(n) => *n,
        Factor::Read(access) => access_at(access, tensors, env),
    }
}

fn product_at(factors: &[Factor], tensors: &[Whole], env: &[u32]) -> u64
    requires { All (HasFactorVariables (length env.now)) factors.now }
    ensures { result ≡ term_value tensors.now env.now factors.now % 2 ^ 64 }
{
    let mut product = 1u64;
    for factor in factors {
        product = product.wrapping_mul(factor_at(factor, tensors, env));
    }
    product
}

/// The sum over the assignments of the variables from `at` on, modulo 2 ^ 64; those before it stay.
fn sum_from(
    factors: &[Factor],
    tensors: &[Whole],
    extents: &[u32],
    env: &mut [u32],
    at: usize,
) -> u64
    requires factors { All (HasFactorVariables (length env.old)) factors.now }
    requires count { length env.old ≡ length extents.now }
    requires at { at ≤ length extents.now }
    ensures sum { result ≡ term_sum tensors.now (drop at extents.now) (take at env.old) factors.now % 2 ^ 64 }
    ensures kept { take at env.new ≡ take at env.old }
{
    if at == extents.len() {
        return product_at(factors, tensors, env);
    }
    let mut sum = 0u64;
    for i in 0..extents[at] {
        env[at] = i;
        sum = sum.wrapping_add(sum_from(factors, tensors, extents, env, at + 1));
    }
    sum
}

/// The number that the statement gives at the index c of its left tensor: the signed sum over its terms, modulo
/// 2^64, of the sum over all assignments of the reduction variables of the product of the factors.
pub fn value_at(stmt: &Stmt, tensors: &[Whole], c: &[u32]) -> u64
    requires stmt { IsStmt (shapes_of tensors.now) stmt.now }
    requires index { IsIndex (shapes_of tensors.now) stmt.now c.now }
    ensures { result ≡ value_of stmt.now tensors.now c.now }
{
    let extents = stmt.extents.as_slice();
    let mut all = [0u32; 8];
    let env = &mut all[..extents.len()];
    for (i, x) in c.iter().enumerate() {
        env[i] = *x;
    }
    let mut sum = 0u64;
    for term in stmt.terms.as_slice() {
        let part = sum_from(term.factors.as_slice(), tensors, extents, env, c.len());
        if term.minus {
            sum = sum.wrapping_sub(part);
        } else {
            sum = sum.wrapping_add(part);
        }
    }
    sum
}
