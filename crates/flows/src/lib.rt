// The flows of a pair that is kept, and the records of their amounts.
#![tactic(auto)]

pub mod flow;
pub mod records;
