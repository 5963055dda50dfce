// The water of a cell as a face sees it, in range.
ghost use Rattle.std.specs.Prelude.{◌≤◌, unsigned_abs};

// Over a bed, with its velocity across the face and along it. Depths and velocities are plain numbers with ghost fields
// for their ranges, here and in sides, cells and crossings: as types of their own they would be opened in every formula.
#[derive(Clone, Copy)]
pub(crate) struct Column {
    pub bed: i32,
    pub depth: u32,
    pub normal: i32,
    pub along: i32,
    ghost bedded: { unsigned_abs bed ≤ 10000000 },
    ghost shallow: { depth ≤ 2000000 },
    ghost slow: { unsigned_abs normal ≤ 10000 },
    ghost calm: { unsigned_abs along ≤ 10000 },
}
