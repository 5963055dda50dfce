// What passes a face in a second, by a rule that a basin chooses.
pub mod hll;
pub mod rusanov;

ghost use Rattle.std.specs.Prelude.{◌≡◌, ℕ, ℤ};
ghost use Rattle.rules.specs.Face.{of_face};
ghost use Rattle.rules.specs.Flux.{LawfulFlux};

use crate::face::Face;

// The water that passes from left to right, and the push along the normal of the face.
#[derive(Clone, Copy, Debug, PartialEq, Eq)]
pub struct Flux {
    pub water: i64,
    pub push: i64,
}

pub trait FluxRule {
    // The rule's fixed number, which a closing account tells: a number, since anyone may write a rule.
    const NUMBER: u8;

    ghost NUMBER: { ℕ };

    // Water and push as functions of the left depth and normal velocity and the right depth and normal velocity.
    ghost water: { Self → ℕ → ℤ → ℕ → ℤ → ℤ };

    ghost push: { Self → ℕ → ℤ → ℕ → ℤ → ℤ };

    // Answers water and push together.
    fn flux(&self, face: Face) -> Flux
        ensures water { result.water ≡ of_face (water self.now) face }
        ensures push { result.push ≡ of_face (push self.now) face };

    // Answers `NUMBER`.
    final fn fixed_number(&self) -> u8
        ensures { result ≡ NUMBER }
    {
        Self::NUMBER
    }

    ghost lawful: { (rule : Self) → LawfulFlux (water rule) (push rule) };
}
