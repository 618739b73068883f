//! `place` lines.

ghost use Rattle.std.specs.Prelude.{◌≡◌, ◌≤◌, ◌<◌, ◌-◌, ◌^◌, ◌==◌, [], ◌∷◌, All, IfOk, IfSome, length, map, not, position, option_map};
ghost use Rattle.std.specs.List.{list_all};
ghost use Rattle.std.specs.Str.{bytes_eq};
ghost use Rattle.dt_runs.specs.Sets.{contains};
ghost use Rattle.dt_text.specs.Spans.{IsToken, token_in};
ghost use Rattle.dt_text.specs.Tokens.{tokens_of};
ghost use Rattle.dt_model.specs.Steps.{Gives};
ghost use Rattle.dt_place.specs.Placements.{IsPlacement};
ghost use Rattle.dt_place.specs.PlaceLine.{are_letters, form_of, is_arrow, is_dash, is_level, is_lower, letters_of, level_symbols, place_line, placed_of, repeated_after, symbol_of, symbols_of};

use crate::machines::Machine;
use crate::place_form::PlaceForm;
use crate::placements::{Placement, Symbol, Symbols};
use dt_base::{Bytes, Lines, Name, NoMemory};
use dt_model::{Cause, LineEnd};
use dt_text::{Token, is_name, word, words};
use std::alloc::Global;

/// The placement of a line, from what stands behind its first word, for a tensor of this order. Whether a tensor has
/// the name, and has no placement yet, is for the caller to test.
#[tactic(auto, unfolding(crate::specs::PlaceLine::place_line))]
pub fn parse_place(
    alloc: Global,
    text: &[u8],
    order: u8,
    machine: &Machine,
) -> Result<Placement, LineEnd>
    requires { length text.now < 2 ^ 32 - 1 }
    ensures given { Gives (λ p. p) result (place_line (tokens_of text.now) order machine.now.levels) }
    ensures lawful { IfOk result (λ p. IsPlacement p machine.now) }
{
    let form = read_place(alloc, text)?;
    let placement = resolve_place(alloc, &form, order, machine)?;
    Ok(placement)
}

/// A line's parts, from what stands behind its first word, or Syntax.
pub fn read_place(alloc: Global, text: &[u8]) -> Result<PlaceForm, LineEnd>
    requires { length text.now < 2 ^ 32 - 1 }
    ensures { Gives (λ f. f) result (form_of (tokens_of text.now)) }
{
    let tokens = words(alloc, text)?;
    read_form(alloc, text, tokens.as_slice())
}

/// The placement of a tensor of this order on the machine, or the first cause against it.
#[tactic(auto, unfolding(crate::specs::PlaceLine::placed_of))]
pub fn resolve_place(
    alloc: Global,
    form: &PlaceForm,
    order: u8,
    machine: &Machine,
) -> Result<Placement, LineEnd>
    ensures given { Gives (λ p. p) result (placed_of form.now order machine.now.levels) }
    ensures lawful { IfOk result (λ p. IsPlacement p machine.now) }
{
    let letters = form.letters.as_slice();
    if letters.len() != order as usize {
        return Err(LineEnd::Refused(Cause::WrongOrder(form.name.copied())));
    }
    if let Some(letter) = repeated_letter(letters) {
        return Err(LineEnd::Refused(Cause::NameTwice(letter_name(letter))));
    }
    if !machine.has_levels(form.levels.as_slice()) {
        return Err(LineEnd::Refused(Cause::WrongDims));
    }
    let symbols = read_symbols(alloc, letters, form.levels.as_slice())?;
    Ok(Placement::ByNames(symbols))
}

#[tactic(auto, unfolding(crate::specs::PlaceLine::form_of))]
fn read_form(alloc: Global, text: &[u8], tokens: &[Token]) -> Result<PlaceForm, LineEnd>
    requires tokens { All (IsToken (length text.now)) tokens.now }
    ensures { Gives (λ f. f) result (form_of (map (token_in text.now) tokens.now)) }
{
    match tokens {
        [name, letters, arrow, level] => {
            let name = word(text, *name);
            let level = word(text, *level);
            if !is_name(name) || !is_arrow(word(text, *arrow)) || !is_level(level) {
                return Err(LineEnd::Refused(Cause::Syntax));
            }
            let letters = read_letters(alloc, word(text, *letters))?;
            let levels = one_level(alloc, level)?;
            Ok(PlaceForm {
                name: Name::from_slice(name),
                letters,
                levels,
            })
        }
        _ => Err(LineEnd::Refused(Cause::Syntax)),
    }
}

fn one_level(alloc: Global, level: &[u8]) -> Result<Lines, NoMemory>
    ensures { IfOk result (λ ls. ls ≡ level.now ∷ []) }
{
    let mut levels = Lines::new(alloc);
    levels.push(Bytes::from_slice(alloc, level)?)?;
    Ok(levels)
}

/// The letters of a tensor's dimensions, none for a scalar.
#[tactic(auto, unfolding(crate::specs::PlaceLine::letters_of))]
fn read_letters(alloc: Global, word: &[u8]) -> Result<Bytes, LineEnd>
    ensures { Gives (λ ls. ls) result (letters_of word.now) }
{
    if is_dash(word) {
        return Ok(Bytes::new(alloc));
    }
    if !are_letters(word) {
        return Err(LineEnd::Refused(Cause::Syntax));
    }
    let letters = Bytes::from_slice(alloc, word)?;
    Ok(letters)
}

fn is_dash(word: &[u8]) -> bool
    ensures { result ≡ is_dash word.now }
{
    word == b"-".as_slice()
}

fn is_arrow(word: &[u8]) -> bool
    ensures { result ≡ is_arrow word.now }
{
    word == b"->".as_slice()
}

fn is_level(word: &[u8]) -> bool
    ensures { result ≡ is_level word.now }
{
    are_letters(word) && word != b"nz".as_slice()
}

fn are_letters(word: &[u8]) -> bool
    ensures { result ≡ are_letters word.now }
{
    !word.is_empty() && are_lower(word)
}

fn are_lower(word: &[u8]) -> bool
    ensures { result ≡ list_all is_lower word.now }
{
    word.iter().all(|b| 97 <= *b && *b <= 122)
}

/// The name that is one letter.
fn letter_name(letter: u8) -> Name
    ensures { result ≡ letter ∷ [] }
{
    Name::from_slice(&[letter])
}

/// The first letter that has stood already.
fn repeated_letter(letters: &[u8]) -> Option<u8>
    ensures { result ≡ repeated_after [] letters.now }
{
    for (i, letter) in letters.iter().enumerate() {
        if has_letter(&letters[..i], *letter) {
            return Some(*letter);
        }
    }
    None
}

fn has_letter(letters: &[u8], letter: u8) -> bool
    ensures { result ≡ contains letters.now letter }
{
    letters.contains(&letter)
}

/// Which dimension of the tensor has the letter.
fn dimension(letters: &[u8], letter: u8) -> Option<usize>
    ensures place { result ≡ position (λ y. y == letter) letters.now }
    ensures within { IfSome result (λ k. k < length letters.now) }
{
    letters.iter().position(|y| *y == letter)
}

/// The symbols of all levels, in order.
fn read_symbols(alloc: Global, letters: &[u8], levels: &[Bytes]) -> Result<Symbols, LineEnd>
    requires { length letters.now < 256 }
    ensures { Gives (λ s. s) result (symbols_of letters.now levels.now) }
{
    let mut symbols = Symbols::new(alloc);
    for level in levels {
        match read_level(alloc, letters, level.as_slice()) {
            Err(end) => return Err(end),
            Ok(more) => symbols.append(more.as_slice())?,
        }
    }
    Ok(symbols)
}

/// The symbols of one level.
fn read_level(alloc: Global, letters: &[u8], level: &[u8]) -> Result<Symbols, LineEnd>
    requires { length letters.now < 256 }
    ensures { Gives (λ s. s) result (level_symbols letters.now [] level.now) }
{
    let mut symbols = Symbols::new(alloc);
    for (i, letter) in level.iter().enumerate() {
        match read_symbol(letters, &level[..i], *letter) {
            Err(end) => return Err(end),
            Ok(symbol) => symbols.push(symbol)?,
        }
    }
    Ok(symbols)
}

/// One symbol of a level, where `seen` stands before it.
#[tactic(auto, unfolding(crate::specs::PlaceLine::symbol_of))]
fn read_symbol(letters: &[u8], seen: &[u8], letter: u8) -> Result<Symbol, LineEnd>
    requires { length letters.now < 256 }
    ensures { Gives (λ s. s) result (symbol_of letters.now seen.now letter) }
{
    let Some(dimension) = dimension(letters, letter) else {
        return Err(LineEnd::Refused(Cause::UnknownName(letter_name(letter))));
    };
    if has_letter(seen, letter) {
        return Err(LineEnd::Refused(Cause::NameTwiceInLevel(letter_name(letter))));
    }
    Ok(Symbol::Along(dimension as u8))
}
