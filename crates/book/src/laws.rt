// The theorems of the water book, each the contract of a function that does nothing.
ghost use Rattle.rules.specs.Rusanov.{rusanov_water, rusanov_push};
ghost use Rattle.rules.specs.Hll.{hll_water, hll_push};
ghost use Rattle.rules.specs.BareBed.{bare_slowed};
ghost use Rattle.rules.specs.Weed.{weed_slowed};
ghost use Rattle.book.specs.Step.{rules_of};
ghost use Rattle.book.specs.Laws.{WaterLaws, WaterLawsHold};
ghost use Rattle.book.specs.Soundings.{Soundings, FurtherSoundings};
ghost use Rattle.book.specs.Limits.{Limits};

use rules::flux::FluxRule;
use rules::flux::hll::Hll;
use rules::flux::rusanov::Rusanov;
use rules::friction::FrictionRule;
use rules::friction::bare_bed::BareBed;
use rules::friction::weed::Weed;

// What every list of calls keeps, under every flux and every friction, by their meaning, that keep their laws.
#[tactic(auto, using(crate::proofs::WaterLaws::water_laws_hold))]
pub fn lawful_water()
    ensures { WaterLawsHold }
{}

// What every list of calls keeps under these rules.
pub fn water_laws<F: FluxRule, R: FrictionRule>(flux: &F, friction: &R)
    ensures { WaterLaws (rules_of F.FluxRule.NUMBER (F.FluxRule.water flux.now) (F.FluxRule.push flux.now) (R.FrictionRule.slowed friction.now)) }
{
    lawful_water()
}

// The same of the named rules: either flux, over a bare bed or over weed on one.
pub fn named_water_laws(bed: &BareBed, weed: &Weed<BareBed>)
    ensures rusanov_bare { WaterLaws (rules_of 1 rusanov_water rusanov_push (bare_slowed bed.now.coefficient)) }
    ensures hll_bare { WaterLaws (rules_of 2 hll_water hll_push (bare_slowed bed.now.coefficient)) }
    ensures rusanov_weed { WaterLaws (rules_of 1 rusanov_water rusanov_push (λ q u h d. weed_slowed weed.now.strength (bare_slowed weed.now.over.coefficient q u h d) d)) }
    ensures hll_weed { WaterLaws (rules_of 2 hll_water hll_push (λ q u h d. weed_slowed weed.now.strength (bare_slowed weed.now.over.coefficient q u h d) d)) }
{
    water_laws(&Rusanov, bed);
    water_laws(&Hll, bed);
    water_laws(&Rusanov, weed);
    water_laws(&Hll, weed);
}

// The soundings, all together.
pub fn soundings()
    ensures worked { Soundings }
    ensures further { FurtherSoundings }
    ensures limits { Limits }
{}
