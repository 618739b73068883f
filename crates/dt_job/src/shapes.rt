//! Shapes and formats that stand as words of a line.

ghost use Rattle.std.specs.Prelude.{◌≡◌, ◌<◌, ◌^◌, All, IfOk, length, map};
ghost use Rattle.std.specs.List.{list_all};
ghost use Rattle.dt_text.specs.Spans.{IsToken, token_in};
ghost use Rattle.dt_model.specs.Shape.{is_extent, shape_of_extents};
ghost use Rattle.dt_job.specs.Shapes.{extent_words, is_dense_letter, is_scalar, level_words};

use dt_base::NoMemory;
use dt_model::Shape;
use dt_text::{Token, Tokens, parts_at, word};
use std::alloc::Global;

/// The words of a shape: none where it is `scalar`, and else those that `x` joins.
pub fn extent_words(alloc: Global, shape: &[u8]) -> Result<Tokens, NoMemory>
    requires { length shape.now < 2 ^ 32 }
    ensures words { IfOk result (λ ts. map (token_in shape.now) ts ≡ extent_words shape.now) }
    ensures tokens { IfOk result (λ ts. All (IsToken (length shape.now)) ts) }
{
    if is_scalar(shape) {
        return Ok(Tokens::new(alloc));
    }
    parts_at(alloc, shape, b'x')
}

fn is_scalar(shape: &[u8]) -> bool
    ensures { result ≡ is_scalar shape.now }
{
    shape == b"scalar".as_slice()
}

/// The level letters of a format, which commas join.
pub fn level_words(alloc: Global, format: &[u8]) -> Result<Tokens, NoMemory>
    requires { length format.now < 2 ^ 32 }
    ensures words { IfOk result (λ ts. map (token_in format.now) ts ≡ level_words format.now) }
    ensures tokens { IfOk result (λ ts. All (IsToken (length format.now)) ts) }
{
    parts_at(alloc, format, b',')
}

/// Whether each word is the letter of a dense level.
pub fn are_dense_letters(text: &[u8], tokens: &[Token]) -> bool
    requires { All (IsToken (length text.now)) tokens.now }
    ensures { result ≡ list_all is_dense_letter (map (token_in text.now) tokens.now) }
{
    for token in tokens {
        if !is_dense_letter(word(text, *token)) {
            return false;
        }
    }
    true
}

fn is_dense_letter(letter: &[u8]) -> bool
    ensures { result ≡ is_dense_letter letter.now }
{
    letter == b"d".as_slice()
}

/// The shape with these extents, where they are some of a tensor.
pub fn shape_of(extents: &[u64]) -> Option<Shape>
    ensures { result ≡ shape_of_extents extents.now }
{
    if extents.len() > 4 || !are_small(extents) {
        return None;
    }
    let mut all = [0u32; 4];
    for (i, n) in extents.iter().enumerate() {
        all[i] = *n as u32;
    }
    Shape::from_extents(&all[..extents.len()])
}

/// Whether each extent is one of a tensor.
fn are_small(extents: &[u64]) -> bool
    ensures { result ≡ list_all is_extent extents.now }
{
    extents.iter().all(|n| 1 <= *n && *n <= 4096)
}
