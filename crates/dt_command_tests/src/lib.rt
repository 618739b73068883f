//! Tests of the commands, over schedules of one statement: what each is refused for, and the nest after it. They need public
//! calls alone.
#![tactic(auto)]

#[cfg(test)]
mod cause_tests;
#[cfg(test)]
mod communicate_tests;
#[cfg(test)]
mod effect_tests;
#[cfg(test)]
mod fixtures;
