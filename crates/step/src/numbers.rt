// Whole numbers as the scheme uses them.
ghost use Rattle.std.specs.Prelude.{◌≡◌, ◌^◌, ◌<◌};
ghost use Rattle.book.specs.Numbers.{positive};

// The greater of 0 and a number.
pub(crate) fn positive_part(number: i64) -> u32
    requires { positive number < 2 ^ 32 }
    ensures { result ≡ positive number }
{
    number.max(0) as u32
}
