//! A line `print`.

ghost use Rattle.std.specs.Prelude.{All, length, map};
ghost use Rattle.dt_text.specs.Spans.{IsToken, token_in};
ghost use Rattle.dt_job.specs.Stops.{Says};
ghost use Rattle.dt_job.specs.PrintLine.{print_line};

use crate::draft::Draft;
use crate::line_stop::LineStop;
use crate::outputs::Show;
use dt_base::Name;
use dt_model::Cause;
use dt_text::{Token, is_name, word};

/// `print NAME`
#[tactic(auto, unfolding(crate::specs::PrintLine::print_line))]
pub fn read_print(draft: &mut Draft, text: &[u8], tokens: &[Token]) -> Result<(), LineStop>
    requires { All (IsToken (length text.now)) tokens.now }
    ensures { Says (λ _. draft.new) result (print_line draft.old (map (token_in text.now) tokens.now)) }
{
    if !draft.phase().takes_output() {
        return Err(LineStop::Refused(Cause::OutOfPlace));
    }
    match tokens {
        [name] => {
            let name = word(text, *name);
            if !is_name(name) {
                return Err(LineStop::Refused(Cause::Syntax));
            }
            let Some(at) = draft.declared().number_of(name) else {
                return Err(LineStop::Refused(Cause::UnknownTensor(Name::from_slice(name))));
            };
            draft.show(Show::Print(at))?;
            Ok(())
        }
        _ => Err(LineStop::Refused(Cause::Syntax)),
    }
}
