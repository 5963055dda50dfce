// A lake with the space that a step works in.
ghost use Rattle.std.specs.Prelude.{◌≡◌, ◌*◌, length};

use crate::lake::Lake;
pub use crate::scratch::Scratch;

#[derive(Drop)]
pub struct Sheet {
    pub lake: Lake,
    pub scratch: Scratch,
    ghost room: { length scratch.cells.items ≡ lake.rows * lake.columns },
    ghost faced: { length scratch.faces.items ≡ lake.rows * lake.columns },
    ghost eastern: { length scratch.east.items ≡ lake.rows },
    ghost northern: { length scratch.north.items ≡ lake.columns },
}
