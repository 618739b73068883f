//! In: the words that a node needs, and the homes of their tensor. Out: the pieces that it copies, by source, and the homes
//! that share its words. Proved by `pieces`, `shares`, and the laws `pieces_serve` and `shares_reach_homes`.
#![tactic(auto)]

mod laws;
mod piece_list;
mod sources;
#[cfg(test)]
mod tests;

pub use laws::{pieces_serve, shares_reach_homes};
pub use piece_list::{Piece, Pieces};
pub use sources::{pieces, shares};
