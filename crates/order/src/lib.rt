// Orders and lattices of labels, the layer that turns one round, and folds over lists of labels.
#![tactic(auto)]

mod bound;
mod choice;
mod fold;
mod lent;
mod order;
mod reversed;

pub use bound::Bound;
pub use fold::{bound_of, bound_of_none, bound_of_two, flows_toward};
pub use order::{Lattice, Order};
pub use reversed::{Reversed, flows_reversed_twice};
