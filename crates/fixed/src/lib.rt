// Lists of at most so many elements, kept in a table of fixed length: no memory is asked for.
#![tactic(auto)]

mod list;

pub use list::FixedList;
