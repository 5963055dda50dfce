// One cell of a sheet.

// Bed and depth are in units of 0.01 mm, the flows to the east and to the north in units times mm/s.
#[derive(Clone, Copy, Default, PartialEq, Eq)]
pub struct Cell {
    // A flag, and no `Option` of the rest: one table serves before and after the opening, a cell that is not laid reads 0
    // throughout, and in service, where each cell is laid, no step has a case for one that is not.
    pub laid: bool,
    pub bed: i32,
    pub depth: u32,
    pub east: i64,
    pub north: i64,
}
