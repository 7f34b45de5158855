// The parts of the byte layout: a cursor over the bytes, and the items of each section.
#![tactic(auto)]

pub mod cursor;
pub mod items;
