//! The names of a schedule's loops, tensors and workspaces, by number.

ghost use Rattle.std.specs.Prelude.{◌≡◌};
ghost use Rattle.dt_nest.specs.PartNames.{name_of, tensor_name, work_name};
ghost use Rattle.dt_nest.specs.Schedule.{seen};

use crate::parts::SchedParts;
use dt_base::Name;

/// The name of a loop or variable, empty where there is none.
pub fn name_of(parts: &SchedParts, v: u32) -> Name
    ensures { result ≡ name_of (seen parts.now) v }
{
    match parts.names.as_slice().get(v as usize) {
        Some(name) => name.copied(),
        None => Name::from_slice(&[]),
    }
}

/// The name of a workspace by its own number, empty where there is none.
pub fn work_name(parts: &SchedParts, work: u32) -> Name
    ensures { result ≡ work_name (seen parts.now) work }
{
    match parts.works.as_slice().get(work as usize) {
        Some(work) => work.name.copied(),
        None => Name::from_slice(&[]),
    }
}

/// The name of a tensor, or of a workspace, whose numbers come after all tensors; empty where there is none.
pub fn tensor_name(parts: &SchedParts, t: u32) -> Name
    ensures { result ≡ tensor_name (seen parts.now) t }
{
    let tensors = parts.tensors.as_slice();
    let t = t as usize;
    if t < tensors.len() {
        return tensors[t].copied();
    }
    match parts.works.as_slice().get(t - tensors.len()) {
        Some(work) => work.name.copied(),
        None => Name::from_slice(&[]),
    }
}
