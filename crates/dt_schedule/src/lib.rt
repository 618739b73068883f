//! In: a command's line, and a schedule. Out: the schedule after it, or the line's first cause and the schedule as it was.
//! Proved by `run_command`.
#![tactic(auto)]

mod collapses;
mod command_words;
mod commands;
mod communicates;
mod distributes;
mod divides;
mod loop_names;
mod reading;
mod reorders;
mod rotates;
mod running;
mod site;
mod splits;
mod tensor_names;
mod two_loops;

pub use command_words::{CommandWord, command_word, is_command};
pub use commands::Command;
pub use running::run_command;
