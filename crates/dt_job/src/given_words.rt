//! The words behind `data` and `fill`.

ghost use Rattle.std.specs.Prelude.{◌≡◌, ◌≤◌, All, IfOk, length, map, true};
ghost use Rattle.dt_text.specs.Spans.{IsToken, token_in};
ghost use Rattle.dt_job.specs.Stops.{Says};
ghost use Rattle.dt_job.specs.Phases.{takes_declaration};
ghost use Rattle.dt_job.specs.GivenWords.{given_words};

use crate::draft::Draft;
use crate::line_stop::LineStop;
use dt_model::Cause;
use dt_text::{Token, is_name, word};

/// The name of the tensor that a line gives numbers, and the words behind it.
#[derive(Drop)]
pub struct GivenWords<'a> {
    pub name: &'a [u8],
    pub behind: &'a [Token],
}

/// The words of a line that gives numbers.
#[tactic(auto, unfolding(crate::specs::GivenWords::given_words))]
pub fn read_given_words<'a>(
    draft: &Draft,
    text: &'a [u8],
    tokens: &'a [Token],
) -> Result<GivenWords<'a>, LineStop>
    requires { All (IsToken (length text.now)) tokens.now }
    ensures words { Says (λ g. (g.name.now, map (token_in text.now) g.behind.now)) result (given_words draft.now.phase (map (token_in text.now) tokens.now)) }
    ensures tokens { IfOk result (λ g. All (IsToken (length text.now)) g.behind.now) }
    ensures early { IfOk result (λ _. takes_declaration draft.now.phase ≡ true) }
    ensures short { IfOk result (λ g. length g.name.now ≤ 16) }
{
    if !draft.phase().takes_declaration() {
        return Err(LineStop::Refused(Cause::OutOfPlace));
    }
    match tokens {
        [] => Err(LineStop::Refused(Cause::Syntax)),
        [name, behind @ ..] => {
            let name = word(text, *name);
            if !is_name(name) {
                return Err(LineStop::Refused(Cause::Syntax));
            }
            Ok(GivenWords { name, behind })
        }
    }
}
