//! Variables that are summed over and stand not in each term.

ghost use Rattle.std.specs.Prelude.{◌≡◌, ◌||◌, ◌&&◌, not, ℕ, List, IfOk, OnOk, find};
ghost use Rattle.std.specs.List.{list_all};
ghost use Rattle.std.specs.Option.{option_copied};
ghost use Rattle.std.specs.Str.{bytes_eq};
ghost use Rattle.dt_index.specs.NameSets.{among, among_common};
ghost use Rattle.dt_index.specs.Resolve.{factor_has, term_has, uneven_reduction};

use crate::form::{Form, NamedFactor, NamedTerm};
use crate::name_set::NameSet;
use crate::numbering::has_name;
use dt_base::{Name, NoMemory};
use dt_model::Cause;
use std::alloc::Global;

/// The first reduction variable that some term lacks.
pub(crate) fn uneven_reduction(
    alloc: Global,
    form: &Form,
    variables: &[Name],
) -> Result<Option<Cause>, NoMemory>
    ensures { IfOk result (λ cause. cause ≡ uneven_reduction form.now variables.now) }
{
    let common = common_names(alloc, form.terms.as_slice())?;
    match first_uneven(form.lhs.vars.as_slice(), &common, variables) {
        None => Ok(None),
        Some(variable) => Ok(Some(Cause::UnevenReduction(variable.copied()))),
    }
}

/// The first variable that is none of the left side's, and none of those that all terms have.
fn first_uneven<'a>(
    left: &[Name],
    common: &Option<NameSet>,
    variables: &'a [Name],
) -> Option<&'a Name>
    ensures { option_copied result ≡ find (λ v. not (among left.now v) && not (among_common common.now v)) variables.now }
{
    variables.iter().find(|variable| !has_name(left, variable) && !is_common(common, variable))
}

fn is_common(common: &Option<NameSet>, name: &Name) -> bool
    ensures { result ≡ among_common common.now name.now }
{
    match common {
        None => true,
        Some(names) => names.has(name),
    }
}

/// The variables that all terms have, none where there is no term.
fn common_names(alloc: Global, terms: &[NamedTerm]) -> Result<Option<NameSet>, NoMemory>
    ensures { IfOk result (λ common. (v : List ℕ) → among_common common v ≡ list_all (term_has v) terms.now) }
{
    let mut common = None;
    for term in terms {
        common = Some(kept_names(alloc, &common, term)?);
    }
    Ok(common)
}

/// Those of the term's variables that are common so far.
fn kept_names(
    alloc: Global,
    common: &Option<NameSet>,
    term: &NamedTerm,
) -> Result<NameSet, NoMemory>
    ensures { IfOk result (λ names. (v : List ℕ) → among names v ≡ (term_has v term.now && among_common common.now v)) }
{
    let mut kept = NameSet::new(alloc);
    for factor in term.factors.as_slice() {
        keep_factor(&mut kept, common, factor)?;
    }
    Ok(kept)
}

fn keep_factor(
    kept: &mut NameSet,
    common: &Option<NameSet>,
    factor: &NamedFactor,
) -> Result<(), NoMemory>
    ensures { OnOk result ((v : List ℕ) → among kept.new v ≡ (among kept.old v || (factor_has v factor.now && among_common common.now v))) }
{
    match factor {
        NamedFactor::Read(access) => keep_names(kept, common, access.vars.as_slice()),
        NamedFactor::Literal(_) => Ok(()),
    }
}

fn keep_names(kept: &mut NameSet, common: &Option<NameSet>, names: &[Name]) -> Result<(), NoMemory>
    ensures { OnOk result ((v : List ℕ) → among kept.new v ≡ (among kept.old v || (among names.now v && among_common common.now v))) }
{
    for name in names {
        keep_name(kept, common, name)?;
    }
    Ok(())
}

fn keep_name(kept: &mut NameSet, common: &Option<NameSet>, name: &Name) -> Result<(), NoMemory>
    ensures { OnOk result ((v : List ℕ) → among kept.new v ≡ (among kept.old v || (bytes_eq name.now v && among_common common.now v))) }
{
    if is_common(common, name) {
        kept.insert(name.copied())?;
    }
    Ok(())
}
