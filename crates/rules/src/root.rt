// The speed of a wave over a depth.
ghost use Rattle.std.specs.Prelude.{◌≡◌, ◌≤◌};
ghost use Rattle.rules.specs.Root.{LeastRoot, root_of};

// The least whole number `s` with `10 s s >= 981 depth`.
#[tactic(auto, using(crate::specs::Roots::root_only))]
pub fn root(depth: u32) -> u32
    ensures least { LeastRoot depth result }
    ensures value { result ≡ root_of depth }
{
    let target = 981 * u64::from(depth);
    let near = estimate(target);
    if 0 < near && 10 * ((near - 1) * (near - 1)) < target && target <= 10 * (near * near) {
        near as u32
    } else {
        slow_root(depth)
    }
}

// Nearly always the root of a tenth of `target`, rounded up: a power of two and three of Newton's steps. By hand, since the
// library's `isqrt`, which halves 32 times, takes five times as long.
fn estimate(target: u64) -> u64
    ensures { result ≤ 1048576 }
{
    let square = target.div_ceil(10);
    let power = (64 - square.leading_zeros()) / 2;
    let first = ((square >> power) + (1 << power)).max(2) / 2;
    let second = (first + square / first).max(2) / 2;
    let third = ((second + square / second) / 2).min(1048575);
    if third * third < square {
        third + 1
    } else {
        third
    }
}

// The same root, by the library's square root.
fn slow_root(depth: u32) -> u32
    ensures { LeastRoot depth result }
{
    match (981 * u64::from(depth)).div_ceil(10).checked_sub(1) {
        Some(below) => below.isqrt() as u32 + 1,
        None => 0,
    }
}
