// Formats of bits: the fields that readers are made of.
#![tactic(auto)]

mod fault;
mod fields;
mod lists;

pub use fault::FieldFault;
pub use fields::{field, turned};
pub use lists::{Element, list};
