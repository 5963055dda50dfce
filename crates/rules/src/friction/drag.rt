// Flows made smaller.
ghost use Rattle.std.specs.Prelude.{◌≡◌, ◌+◌, ◌*◌, ◌^◌, ◌<◌, ◌≤◌, unsigned_abs};
ghost use Rattle.rules.specs.Drag.{with_size, dragged};

// The number of the given size with the sign of `flow`. The library has this of floats alone, and `signum` has no sign at 0.
pub(crate) fn with_size(flow: i64, size: u64) -> i64
    requires { size < 2 ^ 63 }
    ensures { result ≡ with_size flow size }
{
    if flow < 0 {
        -(size as i64)
    } else {
        size as i64
    }
}

// The flow less `flow * drag / (hold + drag)`, that quotient rounded away from zero.
#[tactic(auto, using(crate::specs::Frictions::dragged_is), unfolding(crate::specs::Drag::quot_up))]
pub(crate) fn reduced(flow: i64, hold: u64, drag: u64) -> i64
    requires some_hold { 0 < hold }
    requires sum { hold + drag < 2 ^ 64 }
    requires within { unsigned_abs flow < 2 ^ 63 }
    requires product { unsigned_abs flow * drag < 2 ^ 64 }
    ensures { result ≡ dragged hold drag flow }
{
    let size = flow.unsigned_abs();
    let lost = (size * drag).div_ceil(hold + drag);
    with_size(flow, size - lost)
}
