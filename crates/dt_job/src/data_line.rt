//! A line `data`.

ghost use Rattle.std.specs.Prelude.{◌≡◌, ◌≤◌, ◌<◌, All, IfOk, length, map, true};
ghost use Rattle.dt_text.specs.Spans.{IsToken, token_in};
ghost use Rattle.dt_job.specs.Stops.{Says};
ghost use Rattle.dt_job.specs.Phases.{takes_declaration};
ghost use Rattle.dt_job.specs.DataLine.{data_line, numbers_line, ungiven_number};

use crate::declarations::Declarations;
use crate::draft::Draft;
use crate::given_words::read_given_words;
use crate::line_stop::LineStop;
use crate::numerals::{are_numerals, read_numbers};
use dt_base::Name;
use dt_model::Cause;
use dt_text::Token;
use std::alloc::Global;

/// `data NAME V V`: a tensor's numbers, in row-major order
#[tactic(auto, unfolding(crate::specs::DataLine::data_line))]
pub fn read_data(
    alloc: Global,
    draft: &mut Draft,
    text: &[u8],
    tokens: &[Token],
) -> Result<(), LineStop>
    requires { All (IsToken (length text.now)) tokens.now }
    ensures { Says (λ _. draft.new) result (data_line draft.old (map (token_in text.now) tokens.now)) }
{
    let given = read_given_words(draft, text, tokens)?;
    if !are_numerals(text, given.behind) {
        return Err(LineStop::Refused(Cause::Syntax));
    }
    let numbers = read_numbers(alloc, text, given.behind)?;
    give_numbers(draft, given.name, numbers)
}

/// These numbers for the tensor with this name.
#[tactic(auto, unfolding(crate::specs::DataLine::numbers_line))]
fn give_numbers(draft: &mut Draft, name: &[u8], numbers: Vec<u64>) -> Result<(), LineStop>
    requires early { takes_declaration draft.old.phase ≡ true }
    requires short { length name.now ≤ 16 }
    ensures { Says (λ _. draft.new) result (numbers_line draft.old name.now numbers.items) }
{
    let at = ungiven_number(draft.declared(), name)?;
    if numbers.len() != draft.declared().position_count(at) as usize {
        return Err(LineStop::Refused(Cause::WrongCount));
    }
    draft.give(at, numbers);
    Ok(())
}

/// The number of the tensor with this name, which no line has given numbers yet.
#[tactic(auto, unfolding(crate::specs::DataLine::ungiven_number))]
pub fn ungiven_number(declared: &Declarations, name: &[u8]) -> Result<u32, LineStop>
    requires { length name.now ≤ 16 }
    ensures given { Says (λ k. k) result (ungiven_number declared.now name.now) }
    ensures within { IfOk result (λ k. k < length declared.now) }
{
    let Some(at) = declared.number_of(name) else {
        return Err(LineStop::Refused(Cause::UnknownTensor(Name::from_slice(name))));
    };
    if declared.is_given(at) {
        return Err(LineStop::Refused(Cause::Twice(Name::from_slice(name))));
    }
    Ok(at)
}
