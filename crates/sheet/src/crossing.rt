// What crosses a face in one step.
ghost use Rattle.std.specs.Prelude.{◌≡◌, ◌^◌, ◌≤◌, ℤ, pos, ◌*ℤ◌, neg_ℤ, ◌≤ℤ◌, unsigned_abs};

// The water that passes from left to right, the push and the flow that is carried along, and the depths of the two sides.
// No side gives more than a quarter of its water.
#[derive(Clone, Copy)]
pub struct Crossing {
    pub water: i64,
    pub push: i64,
    pub carried: i64,
    pub left: u32,
    pub right: u32,
    ghost rightward: { (pos 4 *ℤ water) ≤ℤ pos left },
    ghost leftward: { (pos 4 *ℤ neg_ℤ water) ≤ℤ pos right },
    ghost pushed: { unsigned_abs push ≤ 10 ^ 17 },
    ghost borne: { unsigned_abs carried ≤ 10 ^ 16 },
    ghost low: { left ≤ 2000000 },
    ghost high: { right ≤ 2000000 },
}

impl Crossing {
    // Nothing, between two dry sides. By hand: a struct with ghost fields derives no `Default`.
    pub fn idle() -> Crossing
        ensures water { result.water ≡ pos 0 }
        ensures push { result.push ≡ pos 0 }
        ensures carried { result.carried ≡ pos 0 }
        ensures left { result.left ≡ 0 }
        ensures right { result.right ≡ 0 }
    {
        Crossing {
            water: 0,
            push: 0,
            carried: 0,
            left: 0,
            right: 0,
        }
    }
}
