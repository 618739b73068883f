//! Tests of plans: from a job's text to its operations, their events, the bounds of its nodes, its traffic, and its limits.
#![tactic(auto)]

#[cfg(test)]
mod event_tests;
#[cfg(test)]
mod jobs;
#[cfg(test)]
mod limit_tests;
#[cfg(test)]
mod plan_tests;
#[cfg(test)]
mod plans;
