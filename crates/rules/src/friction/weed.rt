// Friction of weed that stands on a bed of any kind.
ghost use Rattle.std.specs.Prelude.{◌≡◌, ◌<◌, ◌≤◌, MatchResult, ⊤};
ghost use Rattle.rules.specs.Weed.{weed_slowed};
ghost use Rattle.std.proofs.Common.{rules};

use crate::friction::FrictionRule;
use crate::friction::drag::with_size;
use crate::friction::stream::Stream;
use crate::refusal::RuleRefusal;
use std::alloc::AllocError;

// The greatest strength.
pub const MAX_STRENGTH: u32 = 1_000_000_000;

pub struct Weed<R> {
    strength: u32,
    over: R,
    ghost small: { strength ≤ 1000000000 },
}

// By hand: over a ghost field and a type parameter together `Clone` is not derived; without the ghost field it would promise
// only what the clone of `R` does, and fail where that may.
impl<R: Copy> Clone for Weed<R> {
    ghost is_clone = { λ weed copy. copy ≡ weed };

    ghost is_infallible = { λ _. ⊤ };

    fn clone(&self) -> Result<Weed<R>, AllocError> {
        Ok(*self)
    }
}

impl<R: Copy> Copy for Weed<R> {}

impl<R> Weed<R> {
    // Hands the rule under it back where the strength is refused.
    pub fn new(strength: u32, over: R) -> Result<Weed<R>, (RuleRefusal, R)>
        ensures { MatchResult result (λ weed. (weed.strength ≡ strength) × (weed.over ≡ over)) (λ back. (1000000000 < strength) × (back.0 ≡ RuleRefusal.Strength) × (back.1 ≡ over)) }
    {
        if strength > MAX_STRENGTH {
            return Err((RuleRefusal::Strength, over));
        }
        Ok(Weed { strength, over })
    }
}

impl<R: FrictionRule> FrictionRule for Weed<R> {
    ghost slowed = { λ weed q u h d. weed_slowed weed.strength (R.FrictionRule.slowed weed.over q u h d) d };

    ghost lawful = { unfold weed_slowed in λ weed. Prim.search rules };

    #[tactic(auto, unfolding(crate::specs::Weed::weed_slowed))]
    fn slow(&self, stream: Stream) -> i64 {
        let left = self.over.slow(stream);
        let taken = u64::from(self.strength / stream.rate);
        with_size(left, left.unsigned_abs().saturating_sub(taken))
    }
}
