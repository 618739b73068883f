//! Why a plan or an order is refused, and the texts of all refusals. None of them takes memory.
//!
//! In: a cause. Out: the text that is written. Proved by the `text` clause of each.
#![tactic(auto)]

mod numbers;
mod order_cause;
mod plan_cause;
mod refused;
#[cfg(test)]
mod tests;

pub use order_cause::{OrderCause, UnitFault};
pub use plan_cause::PlanCause;
pub use refused::{refused_line, refused_order, refused_plan, refused_too_long};
