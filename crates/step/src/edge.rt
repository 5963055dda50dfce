// The water at a face, with its velocities along the face.
ghost use Rattle.std.specs.Prelude.{◌≤◌, unsigned_abs};

use rules::side::FaceSide;

// One side of it.
#[derive(Clone, Copy)]
pub(crate) struct Edge {
    pub side: FaceSide,
    pub along: i32,
    ghost calm: { unsigned_abs along ≤ 10000 },
}

// Both: the left is the west or the south.
#[derive(Clone, Copy)]
pub(crate) struct Edges {
    pub left: Edge,
    pub right: Edge,
}
