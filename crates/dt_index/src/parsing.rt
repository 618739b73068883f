//! A statement from its text.

ghost use Rattle.std.specs.Prelude.{◌≡◌, true, false, length, IfOk};
ghost use Rattle.std.specs.List.{IsDistinct};
ghost use Rattle.std.specs.Str.{bytes_eq};
ghost use Rattle.dt_model.specs.Steps.{Gives};
ghost use Rattle.dt_model.specs.Stmts.{AreEven, AreUsed, IsStmt};
ghost use Rattle.dt_index.specs.Known.{is_dense_at, shapes_of_known};
ghost use Rattle.dt_index.specs.Reads.{right_side_reads};
ghost use Rattle.dt_index.specs.Resolve.{IsSmall, parsed_of};

use crate::form_reading::read_form;
use crate::lookup::Lookup;
use crate::resolving::resolve;
use crate::symbols::read_symbols;
use dt_base::Names;
use dt_model::{LineEnd, Stmt};
use std::alloc::Global;

/// The statement of a text over known tensors, with the names of its variables by first occurrence; or the first cause
/// against it. The tests come in this order: Syntax of the text; BadNumber of a literal; UnknownTensor; WrongOrder;
/// LhsRepeats; OutputRead; OutputFormat; ExtentClash; UnevenReduction; TooManyTerms; TooManyLoops. Each takes the first
/// offender from the left; the three that name a variable name the one that stands first in the text.
#[tactic(auto, unfolding(crate::specs::Resolve::parsed_of))]
pub fn parse_stmt<L: Lookup>(
    alloc: Global,
    text: &[u8],
    names: &L,
) -> Result<(Stmt, Names), LineEnd>
    ensures given { Gives (λ r. record { stmt = r.0; variables = r.1 }) result (parsed_of (L.tensors names.now) text.now) }
    ensures lawful { IfOk result (λ r. IsStmt (shapes_of_known (L.tensors names.now)) r.0) }
    ensures used { IfOk result (λ r. AreUsed r.0) }
    ensures even { IfOk result (λ r. AreEven r.0) }
    ensures small { IfOk result (λ r. IsSmall r.0) }
    ensures named { IfOk result (λ r. length r.1 ≡ length r.0.extents) }
    ensures differ { IfOk result (λ r. IsDistinct bytes_eq r.1) }
    ensures dense { IfOk result (λ r. is_dense_at (L.tensors names.now) r.0.lhs.tensor ≡ true) }
    ensures unread { IfOk result (λ r. right_side_reads r.0.lhs.tensor r.0 ≡ false) }
{
    let symbols = read_symbols(alloc, text)?;
    let form = read_form(alloc, symbols.as_slice())?;
    resolve(alloc, &form, names)
}
