//! The program over any source and sink. In: words, a source and a sink. Out: a status, and the answer in the sink. Proved
//! by the clauses of `distal`.
#![tactic(auto)]

mod accepting;
mod answering;
mod form;
mod laws;
mod planning;
mod running;
mod status;
mod tensor_text;
mod top;
mod visiting;
mod whole_numbers;

pub use laws::all_orders_agree;
pub use status::Status;
pub use top::distal;

#[cfg(test)]
mod tests;
#[cfg(test)]
mod top_tests;
