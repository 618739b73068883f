//! A line `tensor`.

ghost use Rattle.std.specs.Prelude.{◌≡◌, ◌≤◌, ◌<◌, ◌^◌, ◌-◌, ◌&&◌, All, IfOk, false, length, map, replicate, true};
ghost use Rattle.std.specs.Bool.{OnTrue};
ghost use Rattle.std.specs.List.{list_all};
ghost use Rattle.dt_model.specs.Shape.{dims, IsShape};
ghost use Rattle.dt_text.specs.Names.{is_name};
ghost use Rattle.dt_text.specs.Numbers.{is_numeral};
ghost use Rattle.dt_text.specs.Spans.{IsToken, token_in};
ghost use Rattle.dt_job.specs.Stops.{Says};
ghost use Rattle.dt_job.specs.Phases.{takes_declaration};
ghost use Rattle.dt_job.specs.JobTensors.{IsJobTensor};
ghost use Rattle.dt_job.specs.TensorLine.{declared_in, tensor_line, zeros_of};

use crate::draft::Draft;
use crate::line_stop::LineStop;
use crate::numerals::read_numbers;
use crate::shapes::{are_dense_letters, extent_words, level_words, shape_of};
use dt_base::Name;
use dt_model::{Cause, Shape};
use dt_tensor::{Entries, Tensor, pack};
use dt_text::{Token, are_all_numerals, is_name, word};
use std::alloc::Global;

/// `tensor NAME SHAPE` or `tensor NAME SHAPE FORMAT`, with dense levels
#[tactic(auto, unfolding(crate::specs::TensorLine::tensor_line))]
pub fn read_tensor(
    alloc: Global,
    draft: &mut Draft,
    text: &[u8],
    tokens: &[Token],
) -> Result<(), LineStop>
    requires fits { length text.now < 2 ^ 32 - 1 }
    requires tokens { All (IsToken (length text.now)) tokens.now }
    ensures { Says (λ _. draft.new) result (tensor_line draft.old (map (token_in text.now) tokens.now)) }
{
    if !draft.phase().takes_declaration() {
        return Err(LineStop::Refused(Cause::OutOfPlace));
    }
    match tokens {
        [name, shape] => {
            let name = word(text, *name);
            let shape = word(text, *shape);
            let words = extent_words(alloc, shape)?;
            if !names_extents(name, shape, words.as_slice()) {
                return Err(LineStop::Refused(Cause::Syntax));
            }
            let extents = read_numbers(alloc, shape, words.as_slice())?;
            declare(alloc, draft, name, extents.as_slice(), extents.len())
        }
        [name, shape, format] => {
            let name = word(text, *name);
            let shape = word(text, *shape);
            let format = word(text, *format);
            let words = extent_words(alloc, shape)?;
            let letters = level_words(alloc, format)?;
            if !(names_extents(name, shape, words.as_slice())
                && are_dense_letters(format, letters.as_slice()))
            {
                return Err(LineStop::Refused(Cause::Syntax));
            }
            let extents = read_numbers(alloc, shape, words.as_slice())?;
            declare(
                alloc,
                draft,
                name,
                extents.as_slice(),
                letters.as_slice().len(),
            )
        }
        _ => Err(LineStop::Refused(Cause::Syntax)),
    }
}

/// Whether there is a name, and each word of a shape is digits.
fn names_extents(name: &[u8], shape: &[u8], words: &[Token]) -> bool
    requires { All (IsToken (length shape.now)) words.now }
    ensures value { result ≡ is_name name.now && list_all is_numeral (map (token_in shape.now) words.now) }
    ensures few { OnTrue result (length name.now ≤ 16) }
{
    is_name(name) && are_all_numerals(shape, words)
}

/// A tensor with this name, these extents, and this many level letters.
#[tactic(auto, unfolding(crate::specs::TensorLine::declared_in))]
fn declare(
    alloc: Global,
    draft: &mut Draft,
    name: &[u8],
    extents: &[u64],
    letters: usize,
) -> Result<(), LineStop>
    requires early { takes_declaration draft.old.phase ≡ true }
    requires short { length name.now ≤ 16 }
    ensures { Says (λ _. draft.new) result (declared_in draft.old name.now extents.now letters) }
{
    if draft.declared().number_of(name).is_some() {
        return Err(LineStop::Refused(Cause::NameTaken(Name::from_slice(name))));
    }
    if draft.declared().len() >= 32 {
        return Err(LineStop::Refused(Cause::TooManyTensors));
    }
    let Some(shape) = shape_of(extents) else {
        return Err(LineStop::Refused(Cause::BadShape));
    };
    if letters != extents.len() {
        return Err(LineStop::Refused(Cause::BadFormat));
    }
    let tensor = zeros(alloc, shape)?;
    draft.declare(Name::from_slice(name), tensor)?;
    Ok(())
}

/// The tensor of this shape with dense levels and the number 0 at each position.
fn zeros(alloc: Global, shape: Shape) -> Result<Tensor, LineStop>
    requires { IsShape shape }
    ensures tensor { Says (λ t. t) result (zeros_of (dims shape) (replicate (length (dims shape)) false)) }
    ensures lawful { IfOk result (λ t. IsJobTensor t) }
{
    match pack(alloc, shape, [false; 4], &Entries::new(alloc)) {
        Ok(tensor) => Ok(tensor),
        Err(end) => Err(LineStop::from(end)),
    }
}
