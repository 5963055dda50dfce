// What can be asked of a sheet, with its arguments as they come, in range or not.

#[derive(Clone, Copy, PartialEq, Eq)]
pub enum Call {
    // A new sheet of cells of this width, in mm.
    Prepare {
        rows: u8,
        columns: u8,
        width: u32,
    },
    // One cell of a sheet in preparation.
    Lay {
        row: u8,
        column: u8,
        bed: i32,
        depth: u32,
    },
    // Service begins.
    Open,
    // The water runs for one step, of which there are so many a second.
    Step {
        rate: u16,
    },
    // So much water comes to every cell.
    Rain {
        amount: u16,
    },
    // So much water leaves every cell that has it.
    Soak {
        amount: u16,
    },
    // A side by its number, its kind by number, and the two values of that kind: plain numbers instead of a `Hand` and a
    // `Side`, since wrong ones can be sent and are refused.
    ChangeSide {
        side: u8,
        kind: u8,
        a: i32,
        b: u32,
    },
    AskCell {
        row: u8,
        column: u8,
    },
    AskAccount,
    AskStanding,
    AskSlowestRate,
    Close,
}
