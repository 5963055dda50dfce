// Why a rule cannot be made.
ghost use Rattle.std.specs.Prelude.{◌≡◌};

use crate::friction::bare_bed::MAX_COEFFICIENT;
use crate::friction::weed::MAX_STRENGTH;
use std::error::Error;
use std::fmt;

#[derive(Clone, Copy, Debug, PartialEq, Eq)]
pub enum RuleRefusal {
    Coefficient,
    Strength,
}

impl RuleRefusal {
    // One number for all that can be wrong with a rule, which `as` would not give.
    pub fn number(self) -> u8
        ensures { result ≡ 8 }
    {
        8
    }
}

impl fmt::Display for RuleRefusal {
    fn fmt<W: fmt::Write>(&self, f: &mut fmt::Formatter<W>) -> fmt::Result {
        match self {
            RuleRefusal::Coefficient => write!(f, "the coefficient is over {MAX_COEFFICIENT}"),
            RuleRefusal::Strength => write!(f, "the strength is over {MAX_STRENGTH}"),
        }
    }
}

impl Error for RuleRefusal {}
