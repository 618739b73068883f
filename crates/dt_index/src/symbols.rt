//! The symbols of a statement's text.

ghost use Rattle.std.specs.Prelude.{◌≡◌, ◌<◌, ◌≤◌, ◌∷◌, [], IfNone, IfSome, length, take, drop};
ghost use Rattle.std.specs.List.{prefix_len};
ghost use Rattle.dt_model.specs.Steps.{Gives};
ghost use Rattle.dt_text.specs.Names.{is_name_byte};
ghost use Rattle.dt_index.specs.Symbols.{first_len, pieces_of, sign_of, starts_with_plus_equals, symbol_of, symbols_of};

use crate::symbol_list::{Symbol, Symbols};
use dt_base::Name;
use dt_model::{Cause, LineEnd};
use dt_text::{behind_blanks, is_name, is_name_byte, is_numeral, number};
use std::alloc::Global;

/// The symbols of the text, or Syntax where a piece of it is no symbol.
pub fn read_symbols(alloc: Global, text: &[u8]) -> Result<Symbols, LineEnd>
    ensures { Gives (λ s. s) result (symbols_of text.now) }
{
    let mut symbols = Symbols::new(alloc);
    let mut rest = text;
    loop {
        match next_piece(rest) {
            None => return Ok(symbols),
            Some((piece, behind)) => {
                match symbol(piece) {
                    None => return Err(LineEnd::Refused(Cause::Syntax)),
                    Some(symbol) => symbols.push(symbol)?,
                }
                rest = behind;
            }
        }
    }
}

/// The first piece of a text, and what stands behind it.
fn next_piece(text: &[u8]) -> Option<(&[u8], &[u8])>
    ensures none { IfNone result (pieces_of text.now ≡ []) }
    ensures pieces { IfSome result (λ p. pieces_of text.now ≡ p.0.now ∷ pieces_of p.1.now) }
    ensures shorter { IfSome result (λ p. length p.1.now < length text.now) }
{
    let rest = behind_blanks(text);
    if rest.is_empty() {
        return None;
    }
    Some(rest.split_at(piece_len(rest)))
}

/// How long the piece is that begins a text: the two bytes of `+=`, a word's length, or one byte.
fn piece_len(text: &[u8]) -> usize
    requires { 0 < length text.now }
    ensures within { result ≤ length text.now }
    ensures some { 0 < result }
    ensures value { result ≡ first_len text.now }
{
    if starts_with_plus_equals(text) {
        2
    } else {
        name_len(text).max(1)
    }
}

fn starts_with_plus_equals(text: &[u8]) -> bool
    ensures { result ≡ starts_with_plus_equals text.now }
{
    matches!(text, [b'+', b'=', ..])
}

/// How many bytes of a name stand at the front.
fn name_len(text: &[u8]) -> usize
    ensures within { result ≤ length text.now }
    ensures value { result ≡ prefix_len is_name_byte text.now }
{
    text.iter().take_while(|b| is_name_byte(**b)).count()
}

fn symbol(piece: &[u8]) -> Option<Symbol>
    ensures { result ≡ symbol_of piece.now }
{
    if is_name(piece) {
        Some(Symbol::Name(Name::from_slice(piece)))
    } else if is_numeral(piece) {
        Some(Symbol::Number(number(piece)))
    } else {
        sign(piece)
    }
}

fn sign(piece: &[u8]) -> Option<Symbol>
    ensures { result ≡ sign_of piece.now }
{
    match piece {
        [b'('] => Some(Symbol::Open),
        [b')'] => Some(Symbol::Close),
        [b','] => Some(Symbol::Comma),
        [b'*'] => Some(Symbol::Times),
        [b'+'] => Some(Symbol::Plus),
        [b'-'] => Some(Symbol::Minus),
        [b'='] => Some(Symbol::Equals),
        [b'+', b'='] => Some(Symbol::PlusEquals),
        _ => None,
    }
}
