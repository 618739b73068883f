//! What a statement says of the tensors that are known.

ghost use Rattle.std.specs.Prelude.{◌≡◌, true, false, length, IfOk};
ghost use Rattle.std.specs.List.{IsDistinct};
ghost use Rattle.std.specs.Str.{bytes_eq};
ghost use Rattle.dt_model.specs.Steps.{Gives};
ghost use Rattle.dt_model.specs.Stmts.{AreEven, AreUsed, IsStmt};
ghost use Rattle.dt_index.specs.Known.{is_dense_at, shapes_of_known};
ghost use Rattle.dt_index.specs.Reads.{right_side_reads};
ghost use Rattle.dt_index.specs.Resolve.{Resolved, IsSmall, resolved_of};

use crate::access_list::{all_accesses, right_accesses};
use crate::clash::extent_clash;
use crate::form::Form;
use crate::lookup::Lookup;
use crate::numbering::{statement, variables_in};
use crate::occurrences::occurrences_in;
use crate::offenders::{
    has_dense_output, has_few_terms, has_good_literals, lhs_repeats, output_read, unknown_tensor,
    wrong_order,
};
use crate::uneven::uneven_reduction;
use dt_base::Names;
use dt_model::{Cause, LineEnd, Stmt, need};
use std::alloc::Global;

/// The most variables of a statement.
const MOST_VARIABLES: usize = 8;

/// The statement with the names of its variables, or the first cause against it.
#[tactic(auto, unfolding(crate::specs::Resolve::resolved_of))]
pub fn resolve<L: Lookup>(alloc: Global, form: &Form, names: &L) -> Result<(Stmt, Names), LineEnd>
    ensures given { Gives (λ r. record { stmt = r.0; variables = r.1 }) result (resolved_of (L.tensors names.now) form.now) }
    ensures lawful { IfOk result (λ r. IsStmt (shapes_of_known (L.tensors names.now)) r.0) }
    ensures used { IfOk result (λ r. AreUsed r.0) }
    ensures even { IfOk result (λ r. AreEven r.0) }
    ensures small { IfOk result (λ r. IsSmall r.0) }
    ensures named { IfOk result (λ r. length r.1 ≡ length r.0.extents) }
    ensures differ { IfOk result (λ r. IsDistinct bytes_eq r.1) }
    ensures dense { IfOk result (λ r. is_dense_at (L.tensors names.now) r.0.lhs.tensor ≡ true) }
    ensures unread { IfOk result (λ r. right_side_reads r.0.lhs.tensor r.0 ≡ false) }
{
    need(has_good_literals(form), Cause::BadNumber)?;
    let right = right_accesses(alloc, form)?;
    let accesses = all_accesses(alloc, form, right.as_slice())?;
    if let Some(cause) = unknown_tensor(form, accesses.as_slice(), names) {
        return Err(LineEnd::Refused(cause));
    }
    if let Some(cause) = wrong_order(form, accesses.as_slice(), names) {
        return Err(LineEnd::Refused(cause));
    }
    if let Some(cause) = lhs_repeats(form) {
        return Err(LineEnd::Refused(cause));
    }
    if let Some(cause) = output_read(form, right.as_slice()) {
        return Err(LineEnd::Refused(cause));
    }
    if !has_dense_output(form, names) {
        return Err(LineEnd::Refused(Cause::OutputFormat(form.lhs.tensor.copied())));
    }
    let variables = variables_in(alloc, accesses.as_slice())?;
    let occurrences = occurrences_in(alloc, accesses.as_slice(), names)?;
    if let Some(cause) = extent_clash(alloc, occurrences.as_slice(), variables.as_slice())? {
        return Err(LineEnd::Refused(cause));
    }
    if let Some(cause) = uneven_reduction(alloc, form, variables.as_slice())? {
        return Err(LineEnd::Refused(cause));
    }
    if !has_few_terms(form) {
        return Err(LineEnd::Refused(Cause::TooManyTerms));
    }
    if variables.as_slice().len() > MOST_VARIABLES {
        return Err(LineEnd::Refused(Cause::TooManyLoops));
    }
    let stmt = statement(
        alloc,
        form,
        names,
        variables.as_slice(),
        occurrences.as_slice(),
    )?;
    Ok((stmt, variables))
}
