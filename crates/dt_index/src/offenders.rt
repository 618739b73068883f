//! The first offender of each kind in a statement.

ghost use Rattle.std.specs.Prelude.{◌≡◌, ◌==◌, length, not, is_none, find, count_by, nat_le, map};
ghost use Rattle.std.specs.List.{list_all, list_any};
ghost use Rattle.std.specs.Option.{option_copied};
ghost use Rattle.std.specs.Str.{bytes_eq};
ghost use Rattle.dt_index.specs.Known.{place_of};
ghost use Rattle.dt_index.specs.Resolve.{accesses_of, has_dense_output, has_few_terms, has_good_literals, is_bad_literal, lhs_repeats, named_extents, output_read, right_accesses, unknown_tensor, wrong_order};

use crate::form::{Form, NamedAccess, NamedFactor, NamedTerm};
use crate::lookup::Lookup;
use crate::occurrences::named_shape;
use dt_base::Name;
use dt_model::Cause;

pub(crate) fn has_good_literals(form: &Form) -> bool
    ensures { result ≡ has_good_literals form.now }
{
    !some_term_is_bad(form.terms.as_slice())
}

fn some_term_is_bad(terms: &[NamedTerm]) -> bool
    ensures { result ≡ list_any (λ t. list_any is_bad_literal t.factors) terms.now }
{
    terms.iter().any(|term| has_bad_literal(term))
}

fn has_bad_literal(term: &NamedTerm) -> bool
    ensures { result ≡ list_any is_bad_literal term.now.factors }
{
    term.factors
        .as_slice()
        .iter()
        .any(|factor| is_bad_literal(factor))
}

fn is_bad_literal(factor: &NamedFactor) -> bool
    ensures { result ≡ is_bad_literal factor.now }
{
    match factor {
        NamedFactor::Read(_) => false,
        NamedFactor::Literal(value) => value.is_none(),
    }
}

/// The first of all accesses whose tensor is not known.
pub(crate) fn unknown_tensor<L: Lookup>(
    form: &Form,
    accesses: &[&NamedAccess],
    names: &L,
) -> Option<Cause>
    requires { map (λ a. a.now) accesses.now ≡ accesses_of form.now }
    ensures { result ≡ unknown_tensor (L.tensors names.now) form.now }
{
    for access in accesses {
        if is_unknown(access, names) {
            return Some(Cause::UnknownTensor(access.tensor.copied()));
        }
    }
    None
}

fn is_unknown<L: Lookup>(access: &NamedAccess, names: &L) -> bool
    ensures { result ≡ is_none (place_of access.now.tensor (L.tensors names.now)) }
{
    names.find(access.tensor.as_slice()).is_none()
}

/// The first of all accesses that has not as many variables as its tensor has dimensions.
pub(crate) fn wrong_order<L: Lookup>(
    form: &Form,
    accesses: &[&NamedAccess],
    names: &L,
) -> Option<Cause>
    requires { map (λ a. a.now) accesses.now ≡ accesses_of form.now }
    ensures { result ≡ wrong_order (L.tensors names.now) form.now }
{
    for access in accesses {
        if has_wrong_order(access, names) {
            return Some(Cause::WrongOrder(access.tensor.copied()));
        }
    }
    None
}

fn has_wrong_order<L: Lookup>(access: &NamedAccess, names: &L) -> bool
    ensures { result ≡ not (length access.now.vars == length (named_extents (L.tensors names.now) access.now.tensor)) }
{
    access.vars.as_slice().len() != order_of(access.tensor.as_slice(), names)
}

/// How many dimensions the tensor with this name has, none where no tensor has it.
fn order_of<L: Lookup>(name: &[u8], names: &L) -> usize
    ensures { result ≡ length (named_extents (L.tensors names.now) name.now) }
{
    match named_shape(names, name) {
        None => 0,
        Some(shape) => shape.dims().len(),
    }
}

pub(crate) fn lhs_repeats(form: &Form) -> Option<Cause>
    ensures { result ≡ lhs_repeats form.now }
{
    match first_repeated(form.lhs.vars.as_slice()) {
        None => None,
        Some(variable) => Some(Cause::LhsRepeats(variable.copied())),
    }
}

fn first_repeated(variables: &[Name]) -> Option<&Name>
    ensures { option_copied result ≡ find (λ v. nat_le 2 (count_by (λ w. bytes_eq w v) variables.now)) variables.now }
{
    variables
        .iter()
        .find(|variable| 2 <= count_of(variable, variables))
}

fn count_of(variable: &Name, variables: &[Name]) -> usize
    ensures { result ≡ count_by (λ w. bytes_eq w variable.now) variables.now }
{
    variables
        .iter()
        .filter(|other| same_name(other, variable))
        .count()
}

/// The left tensor, where it is one of the right side's.
pub(crate) fn output_read(form: &Form, right: &[&NamedAccess]) -> Option<Cause>
    requires { map (λ a. a.now) right.now ≡ right_accesses form.now }
    ensures { result ≡ output_read form.now }
{
    for access in right {
        if same_name(&access.tensor, &form.lhs.tensor) {
            return Some(Cause::OutputRead(access.tensor.copied()));
        }
    }
    None
}

pub(crate) fn has_dense_output<L: Lookup>(form: &Form, names: &L) -> bool
    ensures { result ≡ has_dense_output (L.tensors names.now) form.now }
{
    match names.find(form.lhs.tensor.as_slice()) {
        None => false,
        Some(tensor) => names.dense(tensor),
    }
}

/// Whether there are at most 16 terms, with at most 8 factors each.
pub(crate) fn has_few_terms(form: &Form) -> bool
    ensures { result ≡ has_few_terms form.now }
{
    form.terms.as_slice().len() <= 16 && have_few_factors(form.terms.as_slice())
}

fn have_few_factors(terms: &[NamedTerm]) -> bool
    ensures { result ≡ list_all (λ t. nat_le (length t.factors) 8) terms.now }
{
    terms.iter().all(|term| term.factors.as_slice().len() <= 8)
}

pub(crate) fn same_name(left: &Name, right: &Name) -> bool
    ensures { result ≡ bytes_eq left.now right.now }
{
    left.as_slice() == right.as_slice()
}
