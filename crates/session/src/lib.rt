// Sessions: a record of two lattices, an agreement and values, and the passes that its calls take.
#![tactic(auto)]

mod calls;
mod keeping;
mod opening;
mod pass;
mod questions;
mod record;
mod returned;

pub use pass::{CertifiedPass, DraftPass, OpenPass};
pub use record::{Items, Maps, Session, Table};
pub use returned::Returned;
