// A sheet of cells: the table that every call on a basin is given, and what is done to it.
#![tactic(auto)]

pub mod crossing;
pub mod lake;
pub mod place;
pub mod scratch;
pub mod sheet;
pub mod water;
