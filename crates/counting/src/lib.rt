// The pairs of states by their numbers, and how often the transition of each occurs in a tree.
#![tactic(auto)]

pub mod count;
pub mod pair;
