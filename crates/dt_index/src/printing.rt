//! The text of a statement.

ghost use Rattle.std.specs.Prelude.{◌≡◌, ◌++◌, codes, map, IfOk, OnOk};
ghost use Rattle.std.specs.List.{flat_map, join_by};
ghost use Rattle.dt_index.specs.Printed.{PrintingLaw, access_text, assignment_text, factor_text, first_sign, name_at, named_access, named_factor, named_term, next_sign, stmt_text, term_text, terms_text, vars_text};

use dt_base::{Bytes, Name, Names, NoMemory};
use dt_model::{Access, Factor, Stmt, Term};
use std::alloc::Global;

/// The statement as text, with these names of its variables and tensors. A number past a list has the empty name.
pub fn print_stmt(
    alloc: Global,
    stmt: &Stmt,
    vars: &Names,
    tensors: &Names,
) -> Result<Bytes, NoMemory>
    ensures { IfOk result (λ t. t ≡ stmt_text stmt.now vars.now tensors.now) }
{
    let mut out = Bytes::new(alloc);
    put_access(&mut out, &stmt.lhs, vars.as_slice(), tensors.as_slice())?;
    out.append(assignment(stmt.adds))?;
    put_terms(
        &mut out,
        stmt.terms.as_slice(),
        vars.as_slice(),
        tensors.as_slice(),
    )?;
    Ok(out)
}

/// A statement that was read from a text is read from its printed text again.
pub fn printed_is_read_again()
    ensures { PrintingLaw }
{}

fn assignment(adds: bool) -> &'static [u8]
    ensures { result.now ≡ assignment_text adds }
{
    if adds { b" += " } else { b" = " }
}

fn put_terms(
    out: &mut Bytes,
    terms: &[Term],
    vars: &[Name],
    tensors: &[Name],
) -> Result<(), NoMemory>
    ensures { OnOk result (out.new ≡ out.old ++ terms_text (map (named_term vars.now tensors.now) terms.now)) }
{
    match terms.split_first() {
        None => Ok(()),
        Some((first, rest)) => {
            out.append(first_sign(first.minus))?;
            put_term(out, first, vars, tensors)?;
            put_more_terms(out, rest, vars, tensors)
        }
    }
}

/// Puts the terms, a sign before each.
fn put_more_terms(
    out: &mut Bytes,
    terms: &[Term],
    vars: &[Name],
    tensors: &[Name],
) -> Result<(), NoMemory>
    ensures { OnOk result (out.new ≡ out.old ++ flat_map (λ u. next_sign u.minus ++ term_text u) (map (named_term vars.now tensors.now) terms.now)) }
{
    for term in terms {
        out.append(next_sign(term.minus))?;
        put_term(out, term, vars, tensors)?;
    }
    Ok(())
}

fn first_sign(minus: bool) -> &'static [u8]
    ensures { result.now ≡ first_sign minus }
{
    if minus { b"- " } else { b"" }
}

fn next_sign(minus: bool) -> &'static [u8]
    ensures { result.now ≡ next_sign minus }
{
    if minus { b" - " } else { b" + " }
}

fn put_term(out: &mut Bytes, term: &Term, vars: &[Name], tensors: &[Name]) -> Result<(), NoMemory>
    ensures { OnOk result (out.new ≡ out.old ++ term_text (named_term vars.now tensors.now term.now)) }
{
    match term.factors.as_slice().split_first() {
        None => Ok(()),
        Some((first, rest)) => {
            put_factor(out, first, vars, tensors)?;
            put_more_factors(out, rest, vars, tensors)
        }
    }
}

/// Puts the factors, `*` before each.
fn put_more_factors(
    out: &mut Bytes,
    factors: &[Factor],
    vars: &[Name],
    tensors: &[Name],
) -> Result<(), NoMemory>
    ensures { OnOk result (out.new ≡ out.old ++ flat_map (λ f. codes " * " ++ factor_text f) (map (named_factor vars.now tensors.now) factors.now)) }
{
    for factor in factors {
        out.append(b" * ")?;
        put_factor(out, factor, vars, tensors)?;
    }
    Ok(())
}

fn put_factor(
    out: &mut Bytes,
    factor: &Factor,
    vars: &[Name],
    tensors: &[Name],
) -> Result<(), NoMemory>
    ensures { OnOk result (out.new ≡ out.old ++ factor_text (named_factor vars.now tensors.now factor.now)) }
{
    match factor {
        Factor::Read(access) => put_access(out, access, vars, tensors),
        Factor::Literal(value) => out.append_number(*value),
    }
}

fn put_access(
    out: &mut Bytes,
    access: &Access,
    vars: &[Name],
    tensors: &[Name],
) -> Result<(), NoMemory>
    ensures { OnOk result (out.new ≡ out.old ++ access_text (named_access vars.now tensors.now access.now)) }
{
    put_name(out, tensors, access.tensor)?;
    put_vars(out, access.vars.as_slice(), vars)
}

/// Puts the variables in parentheses, and nothing where there are none.
fn put_vars(out: &mut Bytes, vars: &[u32], names: &[Name]) -> Result<(), NoMemory>
    ensures { OnOk result (out.new ≡ out.old ++ vars_text (map (name_at names.now) vars.now)) }
{
    match vars.split_first() {
        None => Ok(()),
        Some((first, rest)) => {
            out.append(b"(")?;
            put_name(out, names, *first)?;
            put_more_vars(out, rest, names)?;
            out.append(b")")
        }
    }
}

/// Puts the variables, a comma before each.
fn put_more_vars(out: &mut Bytes, vars: &[u32], names: &[Name]) -> Result<(), NoMemory>
    ensures { OnOk result (out.new ≡ out.old ++ flat_map (λ w. codes "," ++ w) (map (name_at names.now) vars.now)) }
{
    for var in vars {
        out.append(b",")?;
        put_name(out, names, *var)?;
    }
    Ok(())
}

/// Puts the name with this number, and nothing past the list.
fn put_name(out: &mut Bytes, names: &[Name], number: u32) -> Result<(), NoMemory>
    ensures { OnOk result (out.new ≡ out.old ++ name_at names.now number) }
{
    match names.get(number as usize) {
        None => Ok(()),
        Some(name) => out.append(name.as_slice()),
    }
}
