// Trees in a fixed stack: the bytes of a tree whose lengths are known.
#![tactic(auto)]

pub mod write;
