//! In: the bytes of a job. Out: the job, or the first line that has a cause, with its first cause. Proved by `read_job`.
#![tactic(auto)]

mod data_line;
mod declaration;
mod declarations;
mod distal_line;
mod draft;
mod end_line;
mod fill_line;
mod fills;
mod given_words;
mod job;
mod keys;
mod line_stop;
mod lines;
mod machine_line;
mod numerals;
mod outputs;
mod phases;
mod place_line;
mod print_line;
mod reading;
mod scheduled;
mod shapes;
mod stmt_line;
mod tensor_line;

pub use dt_plan::{Part, Parts};
pub use job::Job;
pub use outputs::{Show, Shows};
pub use reading::{JobEnd, read_job};
