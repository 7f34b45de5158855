// The decoded form of a table: one slice of 16-bit numbers, in compressed sparse rows, that all later code reads.
#![tactic(auto)]

mod distribution;
mod form;
mod tables;

pub use distribution::Distribution;
pub use form::Form;
pub use tables::Tables;
