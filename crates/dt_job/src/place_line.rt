//! A line `place`.

ghost use Rattle.std.specs.Prelude.{◌<◌, ◌^◌, ◌-◌, IfOk, length};
ghost use Rattle.dt_job.specs.Stops.{Says};
ghost use Rattle.dt_job.specs.PlaceLine.{place_line, unplaced_number};

use crate::declarations::Declarations;
use crate::draft::Draft;
use crate::line_stop::LineStop;
use dt_base::Name;
use dt_model::Cause;
use dt_place::{read_place, resolve_place};
use std::alloc::Global;

/// `place NAME LETTERS -> LEVEL`, by what stands behind the first word
#[tactic(auto, unfolding(crate::specs::PlaceLine::place_line))]
pub fn read_placement(alloc: Global, draft: &mut Draft, text: &[u8]) -> Result<(), LineStop>
    requires { length text.now < 2 ^ 32 - 1 }
    ensures { Says (λ _. draft.new) result (place_line draft.old text.now) }
{
    if !draft.phase().takes_declaration() {
        return Err(LineStop::Refused(Cause::OutOfPlace));
    }
    let Some(machine) = draft.machine() else {
        return Err(LineStop::Refused(Cause::OutOfPlace));
    };
    let form = read_place(alloc, text)?;
    let at = unplaced_number(draft.declared(), &form.name)?;
    let placement = resolve_place(alloc, &form, draft.declared().order(at), machine)?;
    draft.place(at, placement);
    Ok(())
}

/// The number of the tensor with this name, which no line has placed yet.
#[tactic(auto, unfolding(crate::specs::PlaceLine::unplaced_number))]
fn unplaced_number(declared: &Declarations, name: &Name) -> Result<u32, LineStop>
    ensures given { Says (λ k. k) result (unplaced_number declared.now name.now) }
    ensures within { IfOk result (λ k. k < length declared.now) }
{
    let Some(at) = declared.number_of(name.as_slice()) else {
        return Err(LineStop::Refused(Cause::UnknownTensor(name.copied())));
    };
    if declared.is_placed(at) {
        return Err(LineStop::Refused(Cause::Twice(name.copied())));
    }
    Ok(at)
}
