//! Lines, by their first words.

ghost use Rattle.std.specs.Prelude.{◌≡◌, ◌≤◌, ◌<◌, ◌^◌, ◌-◌, All, length, map, slice_range};
ghost use Rattle.dt_text.specs.Spans.{IsToken, token_in};
ghost use Rattle.dt_job.specs.Stops.{Says};
ghost use Rattle.dt_job.specs.Lines.{bytes_line, line_stop_of, words_line};

use crate::data_line::read_data;
use crate::distal_line::read_distal;
use crate::draft::Draft;
use crate::end_line::read_end;
use crate::fill_line::read_fill;
use crate::line_stop::LineStop;
use crate::machine_line::read_machine;
use crate::place_line::read_placement;
use crate::print_line::read_print;
use crate::stmt_line::read_stmt;
use crate::tensor_line::read_tensor;
use dt_model::Cause;
use dt_schedule::is_command;
use dt_text::{Line, TextEnd, Token, after_word, tokens, word};
use std::alloc::Global;

/// A line by its first word; `plain` is the line's bytes.
#[tactic(auto, unfolding(crate::specs::Lines::words_line))]
fn read_words(
    alloc: Global,
    draft: &mut Draft,
    text: &[u8],
    plain: &[u8],
    tokens: &[Token],
) -> Result<(), LineStop>
    requires fits { length text.now < 2 ^ 32 - 1 }
    requires plain { length plain.now < 2 ^ 32 - 1 }
    requires tokens { All (IsToken (length text.now)) tokens.now }
    ensures { Says (λ _. draft.new) result (words_line draft.old plain.now (map (token_in text.now) tokens.now)) }
{
    match tokens {
        [] => Ok(()),
        [first, behind @ ..] => {
            let first = word(text, *first);
            if first == b"distal".as_slice() {
                read_distal(draft, text, behind)
            } else if first == b"machine".as_slice() {
                read_machine(alloc, draft, after_word(plain))
            } else if first == b"tensor".as_slice() {
                read_tensor(alloc, draft, text, behind)
            } else if first == b"place".as_slice() {
                read_placement(alloc, draft, after_word(plain))
            } else if first == b"data".as_slice() {
                read_data(alloc, draft, text, behind)
            } else if first == b"fill".as_slice() {
                read_fill(alloc, draft, text, behind)
            } else if first == b"stmt".as_slice() {
                read_stmt(alloc, draft, after_word(plain))
            } else if first == b"end".as_slice() {
                read_end(draft, text, behind)
            } else if first == b"print".as_slice() {
                read_print(draft, text, behind)
            } else if is_command(first) {
                draft.command(alloc, plain)
            } else {
                Err(LineStop::Refused(Cause::UnknownWord))
            }
        }
    }
}

fn line_stop(end: TextEnd) -> LineStop
    ensures { result ≡ line_stop_of end }
{
    match end {
        TextEnd::LineTooLong => LineStop::Refused(Cause::LineTooLong),
        TextEnd::BadByte(place) => LineStop::Refused(Cause::BadByte(place)),
        TextEnd::NoMemory => LineStop::NoMemory,
    }
}

/// A line by its bytes.
#[tactic(auto, unfolding(crate::specs::Lines::bytes_line))]
pub fn read_line(alloc: Global, draft: &mut Draft, text: &[u8], line: Line) -> Result<(), LineStop>
    requires fits { length text.now < 2 ^ 32 - 1 }
    requires order { line.from ≤ line.to }
    requires within { line.to ≤ length text.now }
    ensures { Says (λ _. draft.new) result (bytes_line draft.old (slice_range text.now line.from line.to)) }
{
    let tokens = match tokens(alloc, text, line) {
        Ok(tokens) => tokens,
        Err(end) => return Err(line_stop(end)),
    };
    read_words(alloc, draft, text, line.plain(text), tokens.as_slice())
}
