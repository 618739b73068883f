//! The line `distal`.

ghost use Rattle.std.specs.Prelude.{All, length, map};
ghost use Rattle.dt_text.specs.Spans.{IsToken, token_in};
ghost use Rattle.dt_job.specs.Stops.{Says};
ghost use Rattle.dt_job.specs.DistalLine.{distal_line};

use crate::draft::Draft;
use crate::line_stop::LineStop;
use crate::numerals::read_numeral;
use dt_model::Cause;
use dt_text::{Token, word};

/// `distal 1`
#[tactic(auto, unfolding(crate::specs::DistalLine::distal_line))]
pub fn read_distal(draft: &mut Draft, text: &[u8], tokens: &[Token]) -> Result<(), LineStop>
    requires { All (IsToken (length text.now)) tokens.now }
    ensures { Says (λ _. draft.new) result (distal_line draft.old (map (token_in text.now) tokens.now)) }
{
    if !draft.phase().takes_distal() {
        return Err(LineStop::Refused(Cause::OutOfPlace));
    }
    match tokens {
        [version] => {
            if read_numeral(word(text, *version))? != 1 {
                return Err(LineStop::Refused(Cause::Version));
            }
            draft.begin();
            Ok(())
        }
        _ => Err(LineStop::Refused(Cause::Syntax)),
    }
}
