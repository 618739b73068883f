//! Which form a statement's symbols have.

ghost use Rattle.std.specs.Prelude.{◌≡◌, ◌<◌, ◌≤◌, [], ◌∷◌, IfNone, IfSome, find, length, option_map};
ghost use Rattle.std.specs.List.{after_first, before_first, position_or_len};
ghost use Rattle.std.specs.Option.{option_copied};
ghost use Rattle.dt_model.specs.Steps.{Gives};
ghost use Rattle.dt_index.specs.Form.{access_of, factor_of, factor_parts, factors_in, form_of, is_assignment, is_close, is_comma, is_minus, is_open, is_plus_equals, is_plus_or_minus, is_times, name_of, right_side_of, term_parts, terms_in, vars_behind, vars_of};
ghost use Rattle.dt_index.specs.NextVar.{IsNextVar};
ghost use Rattle.dt_index.specs.NextPart.{HasPart, IsOnePart};

use crate::form::{Form, NamedAccess, NamedFactor, NamedFactors, NamedTerm, NamedTerms};
use crate::symbol_list::Symbol;
use dt_base::{Name, Names};
use dt_model::{Cause, LineEnd};
use std::alloc::Global;

/// The statement that the symbols are, or Syntax where they have another form.
#[tactic(auto, unfolding(crate::specs::Form::form_of))]
pub fn read_form(alloc: Global, symbols: &[Symbol]) -> Result<Form, LineEnd>
    ensures { Gives (λ f. f) result (form_of symbols.now) }
{
    let Some((left, sign, right)) = parted_at_assignment(symbols) else {
        return Err(LineEnd::Refused(Cause::Syntax));
    };
    let lhs = read_access(alloc, left)?;
    let terms = read_right_side(alloc, right)?;
    Ok(Form {
        lhs,
        adds: is_plus_equals(sign),
        terms,
    })
}

/// The terms of a right side, which may begin with `-`.
#[tactic(auto, unfolding(crate::specs::Form::right_side_of))]
fn read_right_side(alloc: Global, symbols: &[Symbol]) -> Result<NamedTerms, LineEnd>
    ensures { Gives (λ t. t) result (right_side_of symbols.now) }
{
    match symbols.split_first() {
        None => read_terms(alloc, false, symbols),
        Some((first, rest)) => {
            if is_minus(first) {
                read_terms(alloc, true, rest)
            } else {
                read_terms(alloc, false, symbols)
            }
        }
    }
}

/// Terms joined by `+` and `-`, where `minus` is the first one's sign.
#[tactic(auto, using(crate::proofs::FormSteps::last_term_stops))]
fn read_terms(alloc: Global, minus: bool, symbols: &[Symbol]) -> Result<NamedTerms, LineEnd>
    ensures { Gives (λ t. t) result (terms_in (term_parts minus symbols.now)) }
{
    let mut terms = NamedTerms::new(alloc);
    let mut minus = minus;
    let mut rest = symbols;
    loop {
        match parted_at_plus_or_minus(rest) {
            None => {
                let factors = read_factors(alloc, rest)?;
                terms.push(NamedTerm { minus, factors })?;
                return Ok(terms);
            }
            Some((front, sign, behind)) => match read_factors(alloc, front) {
                Err(end) => return Err(end),
                Ok(factors) => {
                    terms.push(NamedTerm { minus, factors })?;
                    minus = is_minus(sign);
                    rest = behind;
                }
            },
        }
    }
}

/// Factors joined by `*`.
#[tactic(auto, using(crate::proofs::FormSteps::factor_stops))]
fn read_factors(alloc: Global, symbols: &[Symbol]) -> Result<NamedFactors, LineEnd>
    ensures { Gives (λ f. f) result (factors_in (factor_parts symbols.now)) }
{
    let mut factors = NamedFactors::new(alloc);
    let mut rest = symbols;
    loop {
        match parted_at_times(rest) {
            None => {
                factors.push(read_factor(alloc, rest)?)?;
                return Ok(factors);
            }
            Some((front, behind)) => {
                factors.push(read_factor(alloc, front)?)?;
                rest = behind;
            }
        }
    }
}

/// A number that stands alone, or an access.
#[tactic(auto, unfolding(crate::specs::Form::factor_of))]
fn read_factor(alloc: Global, symbols: &[Symbol]) -> Result<NamedFactor, LineEnd>
    ensures { Gives (λ f. f) result (factor_of symbols.now) }
{
    if let [Symbol::Number(value)] = symbols {
        return Ok(NamedFactor::Literal(*value));
    }
    let access = read_access(alloc, symbols)?;
    Ok(NamedFactor::Read(access))
}

/// The symbols before the first `=` or `+=`, that sign, and the symbols behind it.
fn parted_at_assignment(symbols: &[Symbol]) -> Option<(&[Symbol], &Symbol, &[Symbol])>
    ensures sign { option_map (λ p. p.1.now) result ≡ find is_assignment symbols.now }
    ensures before { IfSome result (λ p. p.0.now ≡ before_first is_assignment symbols.now) }
    ensures behind { IfSome result (λ p. p.2.now ≡ after_first is_assignment symbols.now) }
{
    let at = before_assignment(symbols);
    if at == symbols.len() {
        return None;
    }
    Some((&symbols[..at], &symbols[at], &symbols[at + 1..]))
}

/// The symbols before the first `+` or `-`, that sign, and the symbols behind it.
fn parted_at_plus_or_minus(symbols: &[Symbol]) -> Option<(&[Symbol], &Symbol, &[Symbol])>
    ensures alone { IfNone result (IsOnePart symbols.now) }
    ensures parts { IfSome result (λ p. HasPart symbols.now p.0.now p.1.now p.2.now) }
    ensures shorter { IfSome result (λ p. length p.2.now < length symbols.now) }
{
    let at = before_plus_or_minus(symbols);
    if at == symbols.len() {
        return None;
    }
    Some((&symbols[..at], &symbols[at], &symbols[at + 1..]))
}

/// The symbols before the first `*`, and those behind it.
fn parted_at_times(symbols: &[Symbol]) -> Option<(&[Symbol], &[Symbol])>
    ensures alone { IfNone result (factor_parts symbols.now ≡ symbols.now ∷ []) }
    ensures parts { IfSome result (λ p. factor_parts symbols.now ≡ p.0.now ∷ factor_parts p.1.now) }
    ensures shorter { IfSome result (λ p. length p.1.now < length symbols.now) }
{
    let at = before_times(symbols);
    if at == symbols.len() {
        return None;
    }
    Some((&symbols[..at], &symbols[at + 1..]))
}

fn before_assignment(symbols: &[Symbol]) -> usize
    ensures place { result ≡ position_or_len is_assignment symbols.now }
    ensures within { result ≤ length symbols.now }
{
    symbols.iter().take_while(|s| !is_assignment(s)).count()
}

fn before_plus_or_minus(symbols: &[Symbol]) -> usize
    ensures place { result ≡ position_or_len is_plus_or_minus symbols.now }
    ensures within { result ≤ length symbols.now }
{
    symbols.iter().take_while(|s| !is_plus_or_minus(s)).count()
}

fn before_times(symbols: &[Symbol]) -> usize
    ensures place { result ≡ position_or_len is_times symbols.now }
    ensures within { result ≤ length symbols.now }
{
    symbols.iter().take_while(|s| !is_times(s)).count()
}

/// A tensor's name, and in parentheses its variables, if it has any.
#[tactic(auto, unfolding(crate::specs::Form::access_of))]
fn read_access(alloc: Global, symbols: &[Symbol]) -> Result<NamedAccess, LineEnd>
    ensures { Gives (λ a. a) result (access_of symbols.now) }
{
    let Some((first, rest)) = symbols.split_first() else {
        return Err(LineEnd::Refused(Cause::Syntax));
    };
    let Some(tensor) = name(first) else {
        return Err(LineEnd::Refused(Cause::Syntax));
    };
    let vars = read_vars_behind(alloc, rest)?;
    Ok(NamedAccess {
        tensor: tensor.copied(),
        vars,
    })
}

/// What may stand behind a tensor's name.
#[tactic(auto, unfolding(crate::specs::Form::vars_behind))]
fn read_vars_behind(alloc: Global, symbols: &[Symbol]) -> Result<Names, LineEnd>
    ensures { Gives (λ v. v) result (vars_behind symbols.now) }
{
    match symbols.split_first() {
        None => Ok(Names::new(alloc)),
        Some((first, rest)) => {
            if is_open(first) {
                read_vars(alloc, rest)
            } else {
                Err(LineEnd::Refused(Cause::Syntax))
            }
        }
    }
}

/// Variables parted by commas, with a closing parenthesis at the end.
fn read_vars(alloc: Global, symbols: &[Symbol]) -> Result<Names, LineEnd>
    ensures { Gives (λ v. v) result (vars_of symbols.now) }
{
    let mut vars = Names::new(alloc);
    let mut rest = symbols;
    loop {
        match next_var(rest) {
            NextVar::Wrong => return Err(LineEnd::Refused(Cause::Syntax)),
            NextVar::Last(var) => {
                vars.push(var.copied())?;
                return Ok(vars);
            }
            NextVar::More(var, behind) => {
                vars.push(var.copied())?;
                rest = behind;
            }
        }
    }
}

/// How a list of variables goes on.
enum NextVar<'a> {
    Wrong,
    Last(&'a Name),
    More(&'a Name, &'a [Symbol]),
}

#[tactic(auto, unfolding(crate::specs::Form::vars_of))]
fn next_var(symbols: &[Symbol]) -> NextVar<'_>
    ensures { IsNextVar symbols.now result }
{
    let Some((first, rest)) = symbols.split_first() else {
        return NextVar::Wrong;
    };
    let Some((sign, behind)) = rest.split_first() else {
        return NextVar::Wrong;
    };
    let Some(var) = name(first) else {
        return NextVar::Wrong;
    };
    if is_comma(sign) {
        NextVar::More(var, behind)
    } else if is_close(sign) && behind.is_empty() {
        NextVar::Last(var)
    } else {
        NextVar::Wrong
    }
}

fn name(symbol: &Symbol) -> Option<&Name>
    ensures { option_copied result ≡ name_of symbol.now }
{
    match symbol {
        Symbol::Name(name) => Some(name),
        Symbol::Number(_)
        | Symbol::Open
        | Symbol::Close
        | Symbol::Comma
        | Symbol::Times
        | Symbol::Plus
        | Symbol::Minus
        | Symbol::Equals
        | Symbol::PlusEquals => None,
    }
}

fn is_comma(symbol: &Symbol) -> bool
    ensures { result ≡ is_comma symbol.now }
{
    matches!(symbol, Symbol::Comma)
}

fn is_open(symbol: &Symbol) -> bool
    ensures { result ≡ is_open symbol.now }
{
    matches!(symbol, Symbol::Open)
}

fn is_close(symbol: &Symbol) -> bool
    ensures { result ≡ is_close symbol.now }
{
    matches!(symbol, Symbol::Close)
}

fn is_times(symbol: &Symbol) -> bool
    ensures { result ≡ is_times symbol.now }
{
    matches!(symbol, Symbol::Times)
}

fn is_minus(symbol: &Symbol) -> bool
    ensures { result ≡ is_minus symbol.now }
{
    matches!(symbol, Symbol::Minus)
}

fn is_plus_or_minus(symbol: &Symbol) -> bool
    ensures { result ≡ is_plus_or_minus symbol.now }
{
    matches!(symbol, Symbol::Plus | Symbol::Minus)
}

fn is_plus_equals(symbol: &Symbol) -> bool
    ensures { result ≡ is_plus_equals symbol.now }
{
    matches!(symbol, Symbol::PlusEquals)
}

fn is_assignment(symbol: &Symbol) -> bool
    ensures { result ≡ is_assignment symbol.now }
{
    matches!(symbol, Symbol::Equals | Symbol::PlusEquals)
}
