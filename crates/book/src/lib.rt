// The words that calls and answers are made of. The water book itself, which says what each call makes of a sheet
// and its account, stands in specs/, and `laws` has what every list of calls keeps.
#![tactic(auto)]

pub mod account;
pub mod call;
pub mod cell;
pub mod laws;
pub mod refusal;
pub mod reply;
pub mod side;
pub mod turn;
