// What crosses a face in one step.
ghost use Rattle.std.specs.Prelude.{◌≡◌, ℕ, ◌*◌, ◌^◌, ◌<◌, ◌≤◌, ℤ, pos, ◌*ℤ◌, nat_lt, unsigned_abs};
ghost use Rattle.book.specs.Numbers.{trunc};
ghost use Rattle.book.specs.Faces.{pace};
ghost use Rattle.book.specs.Step.{Rules, rules_of, water as water_over, carried as carried_over};
ghost use Rattle.rules.specs.Side.{face_pace};
ghost use Rattle.step.specs.Columns.{face_seen};
ghost use Rattle.step.specs.Crossings.{Crossed};

use crate::edge::Edges;
use rules::face::Face;
use rules::flux::{Flux, FluxRule};
use sheet::crossing::Crossing;

impl Edges {
    // The face without the velocities along it.
    fn face(self) -> Face
        ensures left { result.left ≡ self.left.side }
        ensures right { result.right ≡ self.right.side }
    {
        Face {
            left: self.left.side,
            right: self.right.side,
        }
    }

    // Whether the water at the face is too fast for a step: four times its pace is more than `span`, the width of a cell
    // times the rate.
    pub(crate) fn is_too_fast(self, span: u32) -> bool
        ensures { result ≡ nat_lt span (4 * pace (face_seen self)) }
    {
        span < 4 * self.face().pace()
    }

    // The flow along the face that the water carries over: that of the side it leaves.
    #[tactic(auto, using(std::proofs::lemmas::Int::wraps))]
    fn carried(self, water: i64) -> i64
        requires { unsigned_abs water ≤ 48016000000 }
        ensures value { (rules : Rules) → water ≡ water_over rules (face_seen self) → result ≡ carried_over rules (face_seen self) }
        ensures bound { unsigned_abs result ≤ 10 ^ 16 }
    {
        let from = if water > 0 { self.left } else { self.right };
        borne(water, from.along)
    }

    // What crosses the face under a flux rule; nothing where the step is too slow for it.
    pub(crate) fn cross<F: FluxRule>(self, rule: &F, span: u32) -> Option<Crossing>
        requires { 0 < span }
        ensures { (slowed : ℤ → ℕ → ℕ → ℕ → ℤ) → Crossed (rules_of F.FluxRule.NUMBER (F.FluxRule.water rule.now) (F.FluxRule.push rule.now) slowed) span (face_seen self) result }
    {
        if self.is_too_fast(span) {
            return None;
        }
        let Flux { water, push } = rule.flux(self.face());
        Some(Crossing {
            water: passing(water, span),
            push,
            carried: self.carried(water),
            left: self.left.side.depth,
            right: self.right.side.depth,
        })
    }
}

// The part of the water of a second that passes in a step.
fn passing(water: i64, span: u32) -> i64
    requires { 0 < span }
    ensures { result ≡ trunc water span }
{
    water / i64::from(span)
}

// Twenty times the water, at a velocity.
fn borne(water: i64, along: i32) -> i64
    requires most { unsigned_abs water ≤ 48016000000 }
    requires calm { unsigned_abs along ≤ 10000 }
    ensures value { result ≡ (pos 20 *ℤ water) *ℤ along }
    ensures bound { unsigned_abs result ≤ 10 ^ 16 }
{
    20 * water * i64::from(along)
}
