// A bit reader over lent bytes: the most significant bit of each byte comes first.
#![tactic(auto)]

mod reader;

pub use reader::{Lacking, Reader};
