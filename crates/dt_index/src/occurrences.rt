//! Where the variables of a statement stand, and at dimensions of which extents.

ghost use Rattle.std.specs.Prelude.{◌≡◌, ◌≤◌, ◌++◌, [], length, All, IfOk, IfSome, OnOk, option_map, unwrap_or, map};
ghost use Rattle.dt_model.specs.Shape.{dims, IsShape};
ghost use Rattle.std.specs.List.{flat_map, zip};
ghost use Rattle.dt_index.specs.Resolve.{named_extents, access_occurrences};

use crate::form::NamedAccess;
use crate::lookup::Lookup;
use crate::occurrence_list::{Occurrence, Occurrences};
use dt_base::{Name, NoMemory};
use dt_model::Shape;
use std::alloc::Global;

/// The shape of the tensor with this name.
pub(crate) fn named_shape<L: Lookup>(names: &L, name: &[u8]) -> Option<Shape>
    ensures lawful { IfSome result IsShape }
    ensures extents { named_extents (L.tensors names.now) name.now ≡ unwrap_or (option_map dims result) [] }
    ensures few { length (named_extents (L.tensors names.now) name.now) ≤ 4 }
{
    match names.find(name) {
        None => None,
        Some(tensor) => Some(names.shape(tensor)),
    }
}

/// The variables of accesses where they stand, from the left.
pub(crate) fn occurrences_in<L: Lookup>(
    alloc: Global,
    accesses: &[&NamedAccess],
    names: &L,
) -> Result<Occurrences, NoMemory>
    ensures value { IfOk result (λ os. os ≡ flat_map (access_occurrences (L.tensors names.now)) (map (λ a. a.now) accesses.now)) }
    ensures few { OnOk result (All (λ a. length (named_extents (L.tensors names.now) a.tensor) ≤ 4) (map (λ a. a.now) accesses.now)) }
{
    let mut all = Occurrences::new(alloc);
    for access in accesses {
        add_occurrences(&mut all, access, names)?;
    }
    Ok(all)
}

fn add_occurrences<L: Lookup>(
    all: &mut Occurrences,
    access: &NamedAccess,
    names: &L,
) -> Result<(), NoMemory>
    ensures value { OnOk result (all.new ≡ all.old ++ access_occurrences (L.tensors names.now) access.now) }
    ensures few { length (named_extents (L.tensors names.now) access.now.tensor) ≤ 4 }
{
    match named_shape(names, access.tensor.as_slice()) {
        None => Ok(()),
        Some(shape) => add_dimensions(all, access.vars.as_slice(), shape.dims()),
    }
}

fn add_dimensions(
    all: &mut Occurrences,
    variables: &[Name],
    extents: &[u32],
) -> Result<(), NoMemory>
    ensures { OnOk result (all.new ≡ all.old ++ map (λ p. record { name = p.0; extent = p.1 }) (zip variables.now extents.now)) }
{
    for (variable, extent) in variables.iter().zip(extents) {
        all.push(Occurrence {
            name: variable.copied(),
            extent: *extent,
        })?;
    }
    Ok(())
}
