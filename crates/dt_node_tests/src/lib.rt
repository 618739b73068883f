//! Tests of visits on the memory of one node, with numbers by hand: a product's visits one after another, a factor of which few
//! numbers are stored, loops that are cut, and nodes that lack a word.
#![tactic(auto)]

#[cfg(test)]
mod node;
#[cfg(test)]
mod product_tests;
#[cfg(test)]
mod products;
