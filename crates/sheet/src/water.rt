// One cell of a lake, in range.
ghost use Rattle.std.specs.Prelude.{◌≡◌, ◌≤◌, pos, unsigned_abs};
ghost use Rattle.book.specs.Numbers.{velocity};
ghost use Rattle.book.specs.Sheets.{no_cell};

use book::cell::Cell;

// A cell with its velocities to the east and to the north, in mm/s.
#[derive(Clone, Copy)]
pub struct Water {
    pub cell: Cell,
    pub east: i32,
    pub north: i32,
    ghost bedded: { unsigned_abs cell.bed ≤ 10000000 },
    ghost shallow: { cell.depth ≤ 2000000 },
    ghost eastward: { east ≡ velocity cell.east cell.depth },
    ghost northward: { north ≡ velocity cell.north cell.depth },
    ghost slow: { unsigned_abs east ≤ 10000 },
    ghost still: { unsigned_abs north ≤ 10000 },
    ghost dry: { cell.depth ≡ 0 → cell.east ≡ pos 0 },
    ghost parched: { cell.depth ≡ 0 → cell.north ≡ pos 0 },
}

impl Water {
    // A cell that is not laid. By hand: a struct with ghost fields derives no `Default`.
    pub fn unlaid() -> Water
        ensures { result.cell ≡ no_cell }
    {
        Water {
            cell: Cell::default(),
            east: 0,
            north: 0,
        }
    }
}
