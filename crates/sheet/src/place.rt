// A place on a sheet.

// Row 0 is the southernmost, column 0 the westernmost.
#[derive(Clone, Copy, PartialEq, Eq)]
pub struct Place {
    pub row: usize,
    pub column: usize,
}
