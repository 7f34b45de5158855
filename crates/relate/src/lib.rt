// The relation of a round between the targets of two transitions, out of the ranks of all pairs.
#![tactic(auto)]

mod between;
mod targets;

pub use targets::rows;
