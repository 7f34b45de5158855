// What the program podcheck does between reading and writing: the tables in its input, and the text that it prints.
#![tactic(auto)]

mod count;
mod input;
mod text;

pub use input::{first_table, second_table};
pub use text::{SHORT_TEXT, SHORT_TREE, TEXT, print};
