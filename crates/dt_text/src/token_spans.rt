//! The tokens of a line.

ghost use Rattle.std.specs.Prelude.{◌≡◌, ◌≤◌, ◌<◌, ◌+◌, ◌-◌, ◌^◌, ◌∷◌, [], length, IfOk, map, slice_range};
ghost use Rattle.std.specs.List.{position_or_len};
ghost use Rattle.dt_text.specs.Tokens.{tokens_of, is_blank, after_word};
ghost use Rattle.dt_text.specs.Spans.{token_in, IsToken, AreSpans};
ghost use Rattle.dt_text.specs.Words.{line_words, GivesWords};

use crate::line::Line;
use crate::line_bytes::{bad_place, behind_blanks, is_blank, is_skipped};
use crate::text_end::TextEnd;
use crate::token_list::{Token, Tokens};
use dt_base::NoMemory;
use std::alloc::Global;

/// The most bytes of a line, without its LF and with its CR.
const LONGEST_LINE: u32 = 1_048_576;

/// The tokens of a line, none where it is skipped.
pub fn tokens(alloc: Global, text: &[u8], line: Line) -> Result<Tokens, TextEnd>
    requires fits { length text.now < 2 ^ 32 - 1 }
    requires order { line.from ≤ line.to }
    requires within { line.to ≤ length text.now }

    // LineTooLong comes before the tests of bytes, and for lines too that would be skipped.
    ensures words { GivesWords text.now result (line_words (slice_range text.now line.from line.to)) }
    ensures spans { IfOk result (λ ts. AreSpans line.from line.to ts) }
{
    if line.to - line.from > LONGEST_LINE {
        return Err(TextEnd::LineTooLong);
    }
    let plain = line.plain(text);
    if is_skipped(plain) {
        return Ok(Tokens::new(alloc));
    }
    match bad_place(plain) {
        Some(place) => Err(TextEnd::BadByte(place)),
        None => Ok(words_between(alloc, text, line.from, line.from + plain.len() as u32)?),
    }
}

/// The tokens of a whole text, as of a part of a line that was tested already.
pub fn words(alloc: Global, text: &[u8]) -> Result<Tokens, NoMemory>
    requires { length text.now < 2 ^ 32 - 1 }
    ensures words { IfOk result (λ ts. map (token_in text.now) ts ≡ tokens_of text.now) }
    ensures spans { IfOk result (λ ts. AreSpans 0 (length text.now) ts) }
{
    words_between(alloc, text, 0, text.len() as u32)
}

/// The bytes of a token.
pub fn word(text: &[u8], token: Token) -> &[u8]
    requires { IsToken (length text.now) token }
    ensures bytes { result.now ≡ token_in text.now token }
    ensures within { length result.now ≡ token.to - token.from }
{
    &text[token.from as usize..token.to as usize]
}

/// What stands behind the first token of a text, and nothing where it has none.
pub fn after_word(text: &[u8]) -> &[u8]
    ensures bytes { result.now ≡ after_word text.now }
    ensures within { length result.now ≤ length text.now }
{
    let rest = behind_blanks(text);
    &rest[word_len(rest)..]
}

fn words_between(alloc: Global, text: &[u8], from: u32, to: u32) -> Result<Tokens, NoMemory>
    requires fits { length text.now < 2 ^ 32 - 1 }
    requires order { from ≤ to }
    requires within { to ≤ length text.now }
    ensures words { IfOk result (λ ts. map (token_in text.now) ts ≡ tokens_of (slice_range text.now from to)) }
    ensures spans { IfOk result (λ ts. AreSpans from to ts) }
{
    let mut items = Vec::new(alloc);
    let mut at = from;
    while at < to {
        let token = next_token(text, at, to);
        if token.from < token.to {
            items.push(token)?;
        }
        at = token.to;
    }
    Ok(Tokens::from_vec(items))
}

/// The first token at `at` or behind it, and an empty one at `to` where there is none.
fn next_token(text: &[u8], at: u32, to: u32) -> Token
    requires fits { length text.now < 2 ^ 32 - 1 }
    requires order { at < to }
    requires within { to ≤ length text.now }
    ensures order { (at ≤ result.from) × (at < result.to) × (result.from ≤ result.to) × (result.to ≤ to) }
    ensures found { result.from < result.to → tokens_of (slice_range text.now at to) ≡ token_in text.now result ∷ tokens_of (slice_range text.now result.to to) }
    ensures none { result.from ≡ result.to → (tokens_of (slice_range text.now at to) ≡ []) × (result.to ≡ to) }
{
    let rest = behind_blanks(&text[at as usize..to as usize]);
    let from = to - rest.len() as u32;
    Token {
        from,
        to: from + word_len(rest) as u32,
    }
}

/// How many bytes stand before the first blank.
fn word_len(text: &[u8]) -> usize
    ensures within { result ≤ length text.now }
    ensures value { result ≡ position_or_len is_blank text.now }
{
    text.iter().take_while(|b| !is_blank(**b)).count()
}
