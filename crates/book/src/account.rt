// What became of a basin's water: sums of depths, in units of 0.01 mm.

// What came in over one side of the sheet, and what went out.
#[derive(Clone, Copy, PartialEq, Eq)]
pub struct Passed {
    pub into: u64,
    pub out: u64,
}

// What was there at opening, what rain brought, what was soaked away, and what passed each side.
#[derive(Clone, Copy, PartialEq, Eq)]
pub struct Account {
    pub poured: u64,
    pub rain: u64,
    pub soak: u64,
    pub west: Passed,
    pub east: Passed,
    pub south: Passed,
    pub north: Passed,
}
