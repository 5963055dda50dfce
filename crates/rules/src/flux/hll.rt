// The flux of Harten, Lax and van Leer: one state between the slowest wave from the face and the fastest.
ghost use Rattle.std.specs.Prelude.{◌≡◌};
ghost use Rattle.rules.specs.Side.{discharge, momentum};
ghost use Rattle.rules.specs.Hll.{Apart, fan_water, fan_push, hll_water, hll_push};
ghost use Rattle.rules.specs.Hlls.{hll_lawful};

use crate::face::Face;
use crate::flux::{Flux, FluxRule};
use crate::side::FaceSide;

#[derive(Clone, Copy)]
pub struct Hll;

impl FluxRule for Hll {
    const NUMBER: u8 = 2;

    ghost NUMBER = { 2 };

    ghost water = { λ _. hll_water };

    ghost push = { λ _. hll_push };

    ghost lawful = { λ rule. hll_lawful };

    fn flux(&self, face: Face) -> Flux {
        let low = face.slowest_wave();
        let high = face.fastest_wave();
        if low >= 0 {
            carried(face.left)
        } else if high <= 0 {
            carried(face.right)
        } else {
            fan(low, high, face)
        }
    }
}

// What one side carries across the face.
fn carried(side: FaceSide) -> Flux
    ensures water { result.water ≡ discharge side.depth side.normal }
    ensures push { result.push ≡ momentum side.depth side.normal }
{
    Flux {
        water: side.discharge(),
        push: side.momentum(),
    }
}

// What passes a face that lies between the two waves. Six names, as in the flux of Rusanov: tried with two values of
// `carried`, each reading of a field was one more step, and the proof did not close.
fn fan(low: i64, high: i64, face: Face) -> Flux
    requires { Apart 24008 low high }
    ensures water { result.water ≡ fan_water low high (discharge face.left.depth face.left.normal) (discharge face.right.depth face.right.normal) face.left.depth face.right.depth }
    ensures push { result.push ≡ fan_push low high (discharge face.left.depth face.left.normal) (discharge face.right.depth face.right.normal) (momentum face.left.depth face.left.normal) (momentum face.right.depth face.right.normal) }
{
    let Face { left, right } = face;
    let (depth_left, depth_right) = (i64::from(left.depth), i64::from(right.depth));
    let (water_left, water_right) = (left.discharge(), right.discharge());
    let (push_left, push_right) = (left.momentum(), right.momentum());
    let width = high - low;
    let product = low * high;
    let water = (high * water_left - low * water_right + product * (depth_right - depth_left))
        / width;
    let lean = (low + high) * ((push_left - push_right) / width);
    let jump = 20 * product / width * (water_right - water_left);
    let push = (push_left + push_right + lean) / 2 + jump;
    Flux { water, push }
}
