// What a friction rule is given.
ghost use Rattle.std.specs.Prelude.{◌≤◌, unsigned_abs};

// A flow, the speed before the step, the depth after it and the rate in steps a second, in the ranges in which every
// rule answers.
#[derive(Clone, Copy)]
pub struct Stream {
    pub flow: i64,
    pub speed: u32,
    pub depth: u32,
    pub rate: u32,
    ghost flow_within: { unsigned_abs flow ≤ 30000000000 },
    ghost speed_within: { speed ≤ 10000 },
    ghost wet: { 1 ≤ depth },
    ghost shallow: { depth ≤ 2000000 },
    ghost some_rate: { 1 ≤ rate },
    ghost rate_within: { rate ≤ 1000 },
}
