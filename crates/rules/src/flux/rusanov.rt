// The flux of Rusanov: the mean of the two sides, less half the jump between them at the pace of the face.
ghost use Rattle.rules.specs.Rusanov.{rusanov_water, rusanov_push};
ghost use Rattle.rules.specs.Rusanovs.{rusanov_lawful};

use crate::face::Face;
use crate::flux::{Flux, FluxRule};

#[derive(Clone, Copy)]
pub struct Rusanov;

impl FluxRule for Rusanov {
    const NUMBER: u8 = 1;

    ghost NUMBER = { 1 };

    ghost water = { λ _. rusanov_water };

    ghost push = { λ _. rusanov_push };

    ghost lawful = { λ rule. rusanov_lawful };

    fn flux(&self, face: Face) -> Flux {
        let Face { left, right } = face;
        let pace = i64::from(face.pace());
        // Six names, as in `fan` of `hll`, where the reason stands.
        let (depth_left, depth_right) = (i64::from(left.depth), i64::from(right.depth));
        let (water_left, water_right) = (left.discharge(), right.discharge());
        let (push_left, push_right) = (left.momentum(), right.momentum());
        let water = (water_left + water_right - pace * (depth_right - depth_left)) / 2;
        let push = (push_left + push_right - 20 * pace * (water_right - water_left)) / 2;
        Flux { water, push }
    }
}
