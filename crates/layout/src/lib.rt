// The byte layout of a table: definitions in specs/, laws in proofs/. Its only code are the bytes in one of the two layouts, and what
// refuses them.
#![tactic(auto)]

mod bytes;
mod refusals;

pub use bytes::TableBytes;
pub use refusals::Refusal;
