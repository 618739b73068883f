//! Tests of what the lines of a job say: tokens and numbers, shapes, entries packed by levels, statements, machine and place
//! lines, and the texts of causes. They need public calls alone.
#![tactic(auto)]

#[cfg(test)]
mod cause_texts;
#[cfg(test)]
mod cursors;
#[cfg(test)]
mod fixtures;
#[cfg(test)]
mod grid_lines;
#[cfg(test)]
mod grids;
#[cfg(test)]
mod orders;
#[cfg(test)]
mod shapes;
#[cfg(test)]
mod statements;
#[cfg(test)]
mod tensors;
#[cfg(test)]
mod texts;
