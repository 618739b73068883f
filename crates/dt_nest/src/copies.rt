//! Copies of accesses, factors and terms.

ghost use Rattle.std.specs.Prelude.{◌≡◌, IfOk};

use dt_base::{Extents, Name, Names, NoMemory, Vars};
use dt_model::{Access, Factor, Factors, Term, Terms};
use std::alloc::Global;

pub fn vars_copied(alloc: Global, vars: &Vars) -> Result<Vars, NoMemory>
    ensures { IfOk result (λ v. v ≡ vars.now) }
{
    Vars::from_slice(alloc, vars.as_slice())
}

pub fn extents_copied(alloc: Global, extents: &Extents) -> Result<Extents, NoMemory>
    ensures { IfOk result (λ e. e ≡ extents.now) }
{
    Extents::from_slice(alloc, extents.as_slice())
}

pub fn names_copied(alloc: Global, names: &Names) -> Result<Names, NoMemory>
    ensures { IfOk result (λ n. n ≡ names.now) }
{
    let items = copy_names(alloc, names.as_slice())?;
    Ok(Names::from_vec(items))
}

fn copy_names(alloc: Global, names: &[Name]) -> Result<Vec<Name>, NoMemory>
    ensures { IfOk result (λ v. v.items ≡ names.now) }
{
    let mut items = Vec::new(alloc);
    for name in names {
        items.push(name.copied())?;
    }
    Ok(items)
}

pub fn access_copied(alloc: Global, access: &Access) -> Result<Access, NoMemory>
    ensures { IfOk result (λ a. a ≡ access.now) }
{
    let vars = vars_copied(alloc, &access.vars)?;
    Ok(Access {
        tensor: access.tensor,
        vars,
    })
}

pub fn factor_copied(alloc: Global, factor: &Factor) -> Result<Factor, NoMemory>
    ensures { IfOk result (λ f. f ≡ factor.now) }
{
    match factor {
        Factor::Read(access) => {
            let access = access_copied(alloc, access)?;
            Ok(Factor::Read(access))
        }
        Factor::Literal(n) => Ok(Factor::Literal(*n)),
    }
}

fn copy_factors(alloc: Global, factors: &[Factor]) -> Result<Vec<Factor>, NoMemory>
    ensures { IfOk result (λ v. v.items ≡ factors.now) }
{
    let mut items = Vec::new(alloc);
    for factor in factors {
        items.push(factor_copied(alloc, factor)?)?;
    }
    Ok(items)
}

pub fn factors_copied(alloc: Global, factors: &Factors) -> Result<Factors, NoMemory>
    ensures { IfOk result (λ f. f ≡ factors.now) }
{
    let items = copy_factors(alloc, factors.as_slice())?;
    Ok(Factors::from_vec(items))
}

pub fn term_copied(alloc: Global, term: &Term) -> Result<Term, NoMemory>
    ensures { IfOk result (λ t. t ≡ term.now) }
{
    let factors = factors_copied(alloc, &term.factors)?;
    Ok(Term {
        minus: term.minus,
        factors,
    })
}

fn copy_terms(alloc: Global, terms: &[Term]) -> Result<Vec<Term>, NoMemory>
    ensures { IfOk result (λ v. v.items ≡ terms.now) }
{
    let mut items = Vec::new(alloc);
    for term in terms {
        items.push(term_copied(alloc, term)?)?;
    }
    Ok(items)
}

pub fn terms_copied(alloc: Global, terms: &Terms) -> Result<Terms, NoMemory>
    ensures { IfOk result (λ t. t ≡ terms.now) }
{
    let items = copy_terms(alloc, terms.as_slice())?;
    Ok(Terms::from_vec(items))
}
