// What a call is answered: one enum with the refusals in it. A `Result` would wrap the other six cases in `Ok` wherever the
// book makes, turns or lists replies.
use crate::account::Account;
use crate::cell::Cell;
use crate::refusal::Refusal;

#[derive(Clone, Copy, PartialEq, Eq)]
pub enum Reply {
    Done,
    Refused { why: Refusal },
    // Absent where the place is off the sheet.
    CellIs { cell: Option<Cell> },
    AccountIs { account: Account },
    // The sum of all depths.
    StandingIs { amount: u64 },
    RateIs { rate: u16 },
    // With the number of the flux: no enum lists the rules that others write.
    ClosedWith { account: Account, flux: u8 },
}
