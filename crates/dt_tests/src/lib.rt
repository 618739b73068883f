//! Tests that cross crates: jobs and their first causes; the homes of tensors; from a job's text to the visits of its
//! schedules, to the words that its nodes need, and to the nodes that these come from; the nests of the tutorial and of the
//! examples as they are printed. The modules that are public make statements, tensors and schedules for tests of other crates.
#![tactic(auto)]

#[cfg(test)]
mod copies;
#[cfg(test)]
mod copy_tests;
#[cfg(test)]
mod home_tests;
#[cfg(test)]
mod job_tests;
#[cfg(test)]
mod matrices;
#[cfg(test)]
mod need_tests;
#[cfg(test)]
mod nest_tests;
#[cfg(test)]
mod schedule_tests;
pub mod statements;
#[cfg(test)]
mod visit_tests;
#[cfg(test)]
mod visits;
pub mod written;
