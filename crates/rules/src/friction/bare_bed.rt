// Friction of a bare bed, by the law of Darcy and Weisbach.
ghost use Rattle.std.specs.Prelude.{◌≡◌, ◌<◌, ◌≤◌, MatchResult};
ghost use Rattle.rules.specs.BareBed.{bare_slowed};
ghost use Rattle.rules.specs.Frictions.{bare_lawful};

use crate::friction::FrictionRule;
use crate::friction::drag::reduced;
use crate::friction::stream::Stream;
use crate::refusal::RuleRefusal;

// The greatest coefficient, in thousandths.
pub const MAX_COEFFICIENT: u32 = 1000;

#[derive(Clone, Copy)]
pub struct BareBed {
    coefficient: u32,
    ghost small: { coefficient ≤ 1000 },
}

impl BareBed {
    pub fn new(coefficient: u32) -> Result<BareBed, RuleRefusal>
        ensures { MatchResult result (λ bed. bed.coefficient ≡ coefficient) (λ why. (1000 < coefficient) × (why ≡ RuleRefusal.Coefficient)) }
    {
        if coefficient > MAX_COEFFICIENT {
            return Err(RuleRefusal::Coefficient);
        }
        Ok(BareBed { coefficient })
    }
}

impl FrictionRule for BareBed {
    ghost slowed = { λ bed. bare_slowed bed.coefficient };

    ghost lawful = { λ bed. bare_lawful bed.coefficient };

    #[tactic(auto, unfolding(crate::specs::BareBed::bare_slowed))]
    fn slow(&self, stream: Stream) -> i64 {
        let hold = 80 * (u64::from(stream.rate) * u64::from(stream.depth));
        let drag = u64::from(self.coefficient) * u64::from(stream.speed);
        reduced(stream.flow, hold, drag)
    }
}
