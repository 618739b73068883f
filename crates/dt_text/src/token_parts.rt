//! The parts of a token that a byte separates.

ghost use Rattle.std.specs.Prelude.{◌≡◌, ◌≤◌, ◌<◌, ◌^◌, All, IfOk, length, map};
ghost use Rattle.std.specs.List.{position_or_len};
ghost use Rattle.dt_text.specs.Parts.{is_byte, parts_at};
ghost use Rattle.dt_text.specs.Spans.{IsToken, token_in};

use crate::token_list::{Token, Tokens};
use dt_base::NoMemory;
use std::alloc::Global;

/// The parts of a token between the bytes that separate them, as the numbers of `4x4`. There is one part more than
/// separators, and a part may be empty.
pub fn parts_at(alloc: Global, token: &[u8], separator: u8) -> Result<Tokens, NoMemory>
    requires { length token.now < 2 ^ 32 }
    ensures parts { IfOk result (λ ts. map (token_in token.now) ts ≡ parts_at separator token.now) }
    ensures tokens { IfOk result (λ ts. All (IsToken (length token.now)) ts) }
{
    let mut items = Vec::new(alloc);
    let mut from = 0u32;
    loop {
        let to = from + part_len(&token[from as usize..], separator) as u32;
        items.push(Token { from, to })?;
        if to as usize == token.len() {
            return Ok(Tokens::from_vec(items));
        }
        from = to + 1;
    }
}

/// How many bytes stand before the first separator.
fn part_len(token: &[u8], separator: u8) -> usize
    ensures place { result ≡ position_or_len (is_byte separator) token.now }
    ensures within { result ≤ length token.now }
{
    token.iter().take_while(|b| **b != separator).count()
}
