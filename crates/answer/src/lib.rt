// What every call answers, and what it hands on of it: numbers for a caller in C, bytes for the display.
#![tactic(auto)]

mod answer;
mod display;
mod refusal;

pub use answer::{Answer, FIELDS, put, with_written};
pub use display::filled;
pub use refusal::Refusal;
