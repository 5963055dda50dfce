// A place that is on a lake.
ghost use Rattle.std.specs.Prelude.{◌<◌};

use sheet::lake::Lake;

// With the lake that it is on; row 0 is the southernmost, column 0 the westernmost.
#[derive(Clone, Copy)]
pub(crate) struct Spot<'a> {
    pub lake: &'a Lake,
    pub row: usize,
    pub column: usize,
    ghost high: { row < lake.now.rows },
    ghost broad: { column < lake.now.columns },
}
