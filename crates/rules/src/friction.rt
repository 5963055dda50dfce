// What the bed takes from a flow in a step.
pub mod bare_bed;
mod drag;
pub mod stream;
pub mod weed;

ghost use Rattle.std.specs.Prelude.{◌≡◌, ℕ, ℤ};
ghost use Rattle.rules.specs.Friction.{LawfulFriction};
ghost use Rattle.rules.specs.Stream.{of_stream};

use crate::friction::stream::Stream;

pub trait FrictionRule {
    // What is left of a flow: a function of the flow, the speed before the step, the depth after it and the rate.
    ghost slowed: { Self → ℤ → ℕ → ℕ → ℕ → ℤ };

    fn slow(&self, stream: Stream) -> i64
        ensures { result ≡ of_stream (slowed self.now) stream };

    ghost lawful: { (rule : Self) → LawfulFriction (slowed rule) };
}
