// Houses of any kind: how one is described by plain numbers, and the lattice that is made of it.
#![tactic(auto)]

mod description;
mod making;
mod table;

pub use description::House;
pub use table::Table;
