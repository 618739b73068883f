//! The texts of refusals.

ghost use Rattle.std.specs.Prelude.{◌≡◌};
ghost use Rattle.dt_refusal.specs.Refusals.{refused_line_text, refused_order_text, refused_plan_text, too_long_text};

use crate::order_cause::OrderCause;
use crate::plan_cause::PlanCause;
use dt_base::ShortText;
use dt_model::Cause;

/// What is written where the line, by its number from 1, is refused.
pub fn refused_line(line: u32, cause: &Cause) -> ShortText
    ensures text { result ≡ refused_line_text line cause.now }
{
    let mut text = ShortText::new();
    text.append(b"refused line ");
    text.append_number(line);
    text.append(b": ");
    text.append(cause.text().as_slice());
    text.append(b"\n");
    text
}

/// What is written where the plan is refused.
pub fn refused_plan(cause: &PlanCause) -> ShortText
    ensures text { result ≡ refused_plan_text cause.now }
{
    let mut text = ShortText::new();
    text.append(b"refused plan: ");
    text.append(cause.text().as_slice());
    text.append(b"\n");
    text
}

/// What is written where the order is refused.
pub fn refused_order(cause: &OrderCause) -> ShortText
    ensures text { result ≡ refused_order_text cause.now }
{
    let mut text = ShortText::new();
    text.append(b"refused order: ");
    text.append(cause.text().as_slice());
    text.append(b"\n");
    text
}

/// What is written where the input is too long.
pub fn refused_too_long() -> ShortText
    ensures text { result ≡ too_long_text }
{
    let mut text = ShortText::new();
    text.append(b"refused input: TooLong\n");
    text
}
