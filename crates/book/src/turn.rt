// A sheet entered another way round.

// Each exchanges two: east with west, south with north, or rows with columns.
#[derive(Clone, Copy, PartialEq, Eq)]
pub enum Turn {
    EastWest,
    SouthNorth,
    RowsColumns,
}
