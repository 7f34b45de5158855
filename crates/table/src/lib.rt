// Reads a table, section by section (01, "A table in bytes").
#![tactic(auto)]

pub mod parts;
mod reader;
mod sections;

pub use reader::{check, read};
