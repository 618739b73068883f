//! Variables that stand at dimensions of different extents.

ghost use Rattle.std.specs.Prelude.{◌≡◌, ◌==◌, ◌||◌, ◌&&◌, not, ℕ, List, IfOk, OnOk, find, option_map};
ghost use Rattle.std.specs.Option.{option_copied};
ghost use Rattle.std.specs.Str.{bytes_eq};
ghost use Rattle.dt_index.specs.NameSets.{among, noted, noted_extent};
ghost use Rattle.dt_index.specs.Resolve.{clashes, extent_clash};

use crate::first_extents::FirstExtents;
use crate::name_set::NameSet;
use crate::occurrence_list::Occurrence;
use dt_base::{Name, NoMemory};
use dt_model::Cause;
use std::alloc::Global;

/// The first variable that stands at dimensions of different extents.
pub(crate) fn extent_clash(
    alloc: Global,
    occurrences: &[Occurrence],
    variables: &[Name],
) -> Result<Option<Cause>, NoMemory>
    ensures { IfOk result (λ cause. cause ≡ extent_clash occurrences.now variables.now) }
{
    let clashing = clashing_names(alloc, occurrences)?;
    match first_among(&clashing, variables) {
        None => Ok(None),
        Some(variable) => Ok(Some(Cause::ExtentClash(variable.copied()))),
    }
}

fn first_among<'a>(set: &NameSet, names: &'a [Name]) -> Option<&'a Name>
    ensures { option_copied result ≡ find (among set.now) names.now }
{
    names.iter().find(|name| set.has(name))
}

fn clashing_names(alloc: Global, occurrences: &[Occurrence]) -> Result<NameSet, NoMemory>
    ensures { IfOk result (λ names. (v : List ℕ) → among names v ≡ clashes occurrences.now v) }
{
    let firsts = noted_extents(alloc, occurrences)?;
    let mut clashing = NameSet::new(alloc);
    for occurrence in occurrences {
        add_clash(&mut clashing, &firsts, occurrence)?;
    }
    Ok(clashing)
}

/// Adds the variable of an occurrence that has not the variable's first extent.
fn add_clash(
    clashing: &mut NameSet,
    firsts: &FirstExtents,
    occurrence: &Occurrence,
) -> Result<(), NoMemory>
    ensures { OnOk result ((v : List ℕ) → among clashing.new v ≡ (among clashing.old v || (bytes_eq occurrence.now.name v && not (occurrence.now.extent == noted_extent firsts.now v)))) }
{
    if occurrence.extent != firsts.get(&occurrence.name).unwrap_or(0) {
        clashing.insert(occurrence.name.copied())?;
    }
    Ok(())
}

/// The extent of each variable where it first stands.
fn noted_extents(alloc: Global, occurrences: &[Occurrence]) -> Result<FirstExtents, NoMemory>
    ensures { IfOk result (λ extents. (v : List ℕ) → noted extents v ≡ option_map (λ o. o.extent) (find (λ o. bytes_eq o.name v) occurrences.now)) }
{
    let mut firsts = FirstExtents::new(alloc);
    for occurrence in occurrences {
        firsts.note(&occurrence.name, occurrence.extent)?;
    }
    Ok(firsts)
}
