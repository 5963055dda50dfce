// The cells and sides of a sheet.
ghost use Rattle.std.specs.Prelude.{◌≡◌, ◌*◌, ◌≤◌, false, length};
ghost use Rattle.sheet.specs.Waters.{table_with};
ghost use Rattle.sheet.specs.Ghosts.{sides_amiss};

use crate::water::Water;
use book::side::Side;

// Cells row by row from the south-west in one `Vec`, so that a step will go over them in one loop, and the sides as an array in
// the order of their numbers, which a turn permutes.
#[derive(Drop)]
pub struct Lake {
    pub rows: usize,
    pub columns: usize,
    pub width: u32,
    pub cells: Vec<Water>,
    pub sides: [Side; 4],
    ghost high: { (1 ≤ rows) × (rows ≤ 64) },
    ghost broad: { (1 ≤ columns) × (columns ≤ 64) },
    ghost few: { rows * columns ≤ 1024 },
    ghost spaced: { (10 ≤ width) × (width ≤ 100000) },
    ghost full: { length cells.items ≡ rows * columns },
    ghost four: { length sides ≡ 4 },
    ghost safe: { sides_amiss (table_with rows columns width cells.items sides) ≡ false },
}
