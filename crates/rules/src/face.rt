// A face between two cells.
ghost use Rattle.std.specs.Prelude.{◌≡◌, ◌≤◌};
ghost use Rattle.rules.specs.Side.{face_pace};
ghost use Rattle.rules.specs.Hll.{slowest, fastest};
ghost use Rattle.rules.specs.Face.{of_face};

use crate::side::FaceSide;

// Its two sides: the left is the west or the south.
#[derive(Clone, Copy)]
pub struct Face {
    pub left: FaceSide,
    pub right: FaceSide,
}

impl Face {
    // The greater pace of the two sides.
    #[tactic(auto, unfolding(crate::specs::Side::face_pace))]
    pub fn pace(self) -> u32
        ensures value { result ≡ of_face face_pace self }
        ensures bound { result ≤ 24008 }
    {
        self.left.pace().max(self.right.pace())
    }

    // The slowest wave from the face.
    #[tactic(auto, unfolding(crate::specs::Hll::slowest))]
    pub(crate) fn slowest_wave(self) -> i64
        ensures { result ≡ of_face slowest self }
    {
        self.left.slow_wave().min(self.right.slow_wave())
    }

    // The fastest wave from the face. It differs from `slowest_wave` in the wave and in the bound: one method for both would
    // take two closures.
    #[tactic(auto, unfolding(crate::specs::Hll::fastest))]
    pub(crate) fn fastest_wave(self) -> i64
        ensures { result ≡ of_face fastest self }
    {
        self.left.fast_wave().max(self.right.fast_wave())
    }
}
