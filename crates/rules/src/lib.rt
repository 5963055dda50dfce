// Rules of shallow water in whole numbers: the speed of a wave, what passes a face, and what the bed takes from a flow.
#![tactic(auto)]

pub mod face;
pub mod flux;
pub mod friction;
pub mod refusal;
pub mod root;
pub mod side;
