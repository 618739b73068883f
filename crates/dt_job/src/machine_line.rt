//! The line `machine`.

ghost use Rattle.std.specs.Prelude.{◌<◌, ◌^◌, ◌-◌, length};
ghost use Rattle.dt_job.specs.Stops.{Says};
ghost use Rattle.dt_job.specs.MachineLine.{machine_line};

use crate::draft::Draft;
use crate::line_stop::LineStop;
use dt_model::Cause;
use dt_place::parse_machine;
use std::alloc::Global;

/// `machine DIMENSIONS`, by what stands behind the first word
#[tactic(auto, unfolding(crate::specs::MachineLine::machine_line))]
pub fn read_machine(alloc: Global, draft: &mut Draft, text: &[u8]) -> Result<(), LineStop>
    requires { length text.now < 2 ^ 32 - 1 }
    ensures { Says (λ _. draft.new) result (machine_line draft.old text.now) }
{
    if !draft.phase().takes_machine() {
        return Err(LineStop::Refused(Cause::OutOfPlace));
    }
    let machine = parse_machine(alloc, text)?;
    draft.take_machine(machine);
    Ok(())
}
