//! The line `end`.

ghost use Rattle.std.specs.Prelude.{map};
ghost use Rattle.dt_text.specs.Spans.{token_in};
ghost use Rattle.dt_job.specs.Stops.{Says};
ghost use Rattle.dt_job.specs.EndLine.{end_line};

use crate::draft::Draft;
use crate::line_stop::LineStop;
use dt_model::Cause;
use dt_text::Token;

/// `end`
#[tactic(auto, unfolding(crate::specs::EndLine::end_line))]
pub fn read_end(draft: &mut Draft, text: &[u8], tokens: &[Token]) -> Result<(), LineStop>
    ensures { Says (λ _. draft.new) result (end_line draft.old (map (token_in text.now) tokens.now)) }
{
    if !draft.phase().is_open() {
        return Err(LineStop::Refused(Cause::OutOfPlace));
    }
    match tokens {
        [] => {
            draft.close()?;
            Ok(())
        }
        _ => Err(LineStop::Refused(Cause::Syntax)),
    }
}
