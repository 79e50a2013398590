// Tables of labels that are lattices: listed rows, and levels with compartments.
#![tactic(auto)]

mod bounds;
mod fault;
mod graded;
mod judge;
mod listed;
mod ordered;
mod rows;

pub use fault::TableFault;
pub use graded::Graded;
pub use listed::Listed;
