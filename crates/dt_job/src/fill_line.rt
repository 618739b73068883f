//! A line `fill`.

ghost use Rattle.std.specs.Prelude.{◌≡◌, ◌≤◌, All, length, map, true};
ghost use Rattle.dt_text.specs.Spans.{IsToken, token_in};
ghost use Rattle.dt_job.specs.Stops.{Says};
ghost use Rattle.dt_job.specs.Phases.{takes_declaration};
ghost use Rattle.dt_job.specs.FillLine.{fill_line, fill_of, filled_in};

use crate::data_line::ungiven_number;
use crate::draft::Draft;
use crate::fills::Fill;
use crate::given_words::read_given_words;
use crate::line_stop::LineStop;
use crate::numerals::read_numeral;
use dt_model::Cause;
use dt_text::{Token, word};
use std::alloc::Global;

/// `fill NAME ramp` or `fill NAME seed N`
#[tactic(auto, unfolding(crate::specs::FillLine::fill_line))]
pub fn read_fill(
    alloc: Global,
    draft: &mut Draft,
    text: &[u8],
    tokens: &[Token],
) -> Result<(), LineStop>
    requires { All (IsToken (length text.now)) tokens.now }
    ensures { Says (λ _. draft.new) result (fill_line draft.old (map (token_in text.now) tokens.now)) }
{
    let given = read_given_words(draft, text, tokens)?;
    let fill = read_kind(text, given.behind)?;
    give_fill(alloc, draft, given.name, fill)
}

/// `ramp` or `seed N`
#[tactic(auto, unfolding(crate::specs::FillLine::fill_of))]
fn read_kind(text: &[u8], tokens: &[Token]) -> Result<Fill, LineStop>
    requires { All (IsToken (length text.now)) tokens.now }
    ensures { Says (λ f. f) result (fill_of (map (token_in text.now) tokens.now)) }
{
    match tokens {
        [kind] => {
            if word(text, *kind) != b"ramp".as_slice() {
                return Err(LineStop::Refused(Cause::Syntax));
            }
            Ok(Fill::Ramp)
        }
        [kind, seed] => {
            if word(text, *kind) != b"seed".as_slice() {
                return Err(LineStop::Refused(Cause::Syntax));
            }
            let seed = read_numeral(word(text, *seed))?;
            Ok(Fill::Seed(seed))
        }
        _ => Err(LineStop::Refused(Cause::Syntax)),
    }
}

/// What a fill gives for the tensor with this name.
#[tactic(auto, unfolding(crate::specs::FillLine::filled_in))]
fn give_fill(alloc: Global, draft: &mut Draft, name: &[u8], fill: Fill) -> Result<(), LineStop>
    requires early { takes_declaration draft.old.phase ≡ true }
    requires short { length name.now ≤ 16 }
    ensures { Says (λ _. draft.new) result (filled_in draft.old name.now fill) }
{
    let at = ungiven_number(draft.declared(), name)?;
    let numbers = fill.values(alloc, draft.declared().position_count(at))?;
    draft.give(at, numbers);
    Ok(())
}
