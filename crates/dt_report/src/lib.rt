//! The texts of plans. In: a plan with its events, the parts of its statements and their texts. Out: what is printed of it.
//! Proved by `plan_text`: exactly the text of the definition.
#![tactic(auto)]

mod op_lines;
mod plan_lines;
mod stmt_lines;
mod words;

pub use op_lines::put_op;
pub use plan_lines::plan_text;
pub use words::{put_path, put_words};
