// One step of the water on a sheet, and the slowest rate at which one can be made.
#![tactic(auto)]

mod column;
mod columns;
mod crossings;
mod edge;
mod edges;
mod numbers;
mod places;
mod spot;
