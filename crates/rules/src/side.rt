// One side of a face between two cells.
ghost use Rattle.std.specs.Prelude.{◌≡◌, ◌<◌, ◌≤◌, ℤ, pos, MatchResult, unsigned_abs};
ghost use Rattle.rules.specs.Root.{root_of};
ghost use Rattle.rules.specs.Side.{Amiss, pace_of, discharge, momentum};
ghost use Rattle.rules.specs.Hll.{slow_wave, fast_wave};

use crate::root::root;
use std::error::Error;
use std::fmt;

// The deepest water that a side may have, in units of 0.01 mm.
pub const MAX_DEPTH: u32 = 2_000_000;

// The greatest velocity, either way, in mm/s.
pub const MAX_VELOCITY: u32 = 10_000;

// Why a depth and a velocity make no side.
#[derive(Clone, Copy, Debug, PartialEq, Eq)]
pub enum SideFault {
    TooDeep,
    TooFast,
    DryMoving,
}

impl fmt::Display for SideFault {
    fn fmt<W: fmt::Write>(&self, f: &mut fmt::Formatter<W>) -> fmt::Result {
        match self {
            SideFault::TooDeep => write!(f, "the depth is over {MAX_DEPTH}"),
            SideFault::TooFast => write!(f, "the velocity is over {MAX_VELOCITY} either way"),
            SideFault::DryMoving => f.write_str("the velocity over a depth of 0 is not 0"),
        }
    }
}

impl Error for SideFault {}

// The depth of the water above the higher of the two beds, its velocity across the face, and its wave speed.
#[derive(Clone, Copy)]
pub struct FaceSide {
    pub depth: u32,
    pub normal: i32,
    pub wave: u32,
    ghost shallow: { depth ≤ 2000000 },
    ghost slow: { unsigned_abs normal ≤ 10000 },
    ghost dry: { depth ≡ 0 → normal ≡ pos 0 },
    ghost celerity: { wave ≡ root_of depth },
}

impl FaceSide {
    pub fn new(depth: u32, normal: i32) -> Result<FaceSide, SideFault>
        ensures { MatchResult result (λ side. (side.depth ≡ depth) × (side.normal ≡ normal)) (λ fault. Amiss depth normal fault) }
    {
        if depth > MAX_DEPTH {
            return Err(SideFault::TooDeep);
        }
        if normal.unsigned_abs() > MAX_VELOCITY {
            return Err(SideFault::TooFast);
        }
        if depth == 0 && normal != 0 {
            return Err(SideFault::DryMoving);
        }
        Ok(FaceSide {
            depth,
            normal,
            wave: root(depth),
        })
    }

    // The fastest that anything moves on this side.
    #[tactic(auto, using(crate::specs::Sides::root_near), unfolding(crate::specs::Side::pace_of))]
    pub fn pace(self) -> u32
        ensures value { result ≡ pace_of self.depth self.normal }
        ensures bound { result ≤ 24008 }
    {
        self.normal.unsigned_abs() + self.wave
    }

    // The slower wave of this side.
    #[tactic(auto, unfolding(crate::specs::Hll::slow_wave))]
    pub fn slow_wave(self) -> i64
        ensures { result ≡ slow_wave self.depth self.normal }
    {
        i64::from(self.normal) - i64::from(self.wave)
    }

    // The faster wave of this side. It differs from `slow_wave` in a sign, which one method for both would be given as a
    // literal at each call.
    #[tactic(auto, unfolding(crate::specs::Hll::fast_wave))]
    pub fn fast_wave(self) -> i64
        ensures { result ≡ fast_wave self.depth self.normal }
    {
        i64::from(self.normal) + i64::from(self.wave)
    }

    // The water that this side carries across the face.
    pub fn discharge(self) -> i64
        ensures value { result ≡ discharge self.depth self.normal }
        ensures bound { unsigned_abs result ≤ 20000000000 }
    {
        i64::from(self.depth) * i64::from(self.normal)
    }

    // Twenty times the momentum that it carries, with the weight of the water.
    pub fn momentum(self) -> i64
        ensures value { result ≡ momentum self.depth self.normal }
        ensures bound { unsigned_abs result ≤ 7924000000000000 }
    {
        let depth = i64::from(self.depth);
        let normal = i64::from(self.normal);
        20 * depth * (normal * normal) + 981 * (depth * depth)
    }
}
