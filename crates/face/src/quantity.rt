// The numbers of a question, by name, each with its range.
ghost use Rattle.std.specs.Prelude.{◌≡◌, true, false, pos, ◌≤ℤ◌, MatchResult};
ghost use Rattle.std.specs.Range.{range_inclusive_start, range_inclusive_end, range_inclusive_exhausted};
ghost use Rattle.face.specs.Quantities.{least_of, greatest_of, within, of_rule};

use std::error::Error;
use std::fmt;
use std::ops::RangeInclusive;

// A side of a face.
#[derive(Clone, Copy, Debug, PartialEq, Eq)]
pub enum Side {
    Left,
    Right,
}

#[derive(Clone, Copy, Debug, PartialEq, Eq)]
pub enum Quantity {
    Depth,
    FluxNumber,
    SideDepth { side: Side },
    SideVelocity { side: Side },
    Coefficient,
    Strength,
    Flow,
    Speed,
    NewDepth,
    Rate,
}

// A number that no question may have.
#[derive(Clone, Copy, Debug, PartialEq, Eq)]
pub enum OutOfRange {
    Beyond { quantity: Quantity, value: i64 },
    DryMoving { velocity: Quantity, value: i64 },
}

impl Quantity {
    fn range(self) -> RangeInclusive<i64>
        ensures least { range_inclusive_start result ≡ least_of self }
        ensures greatest { range_inclusive_end result ≡ greatest_of self }
        ensures fresh { range_inclusive_exhausted result ≡ false }
    {
        match self {
            Quantity::Depth => 0..=4_294_967_295,
            Quantity::FluxNumber => 1..=2,
            Quantity::SideDepth { side: _ } => 0..=2_000_000,
            Quantity::SideVelocity { side: _ } => -10_000..=10_000,
            Quantity::Coefficient => 0..=1_000,
            Quantity::Strength => 0..=1_000_000_000,
            Quantity::Flow => -30_000_000_000..=30_000_000_000,
            Quantity::Speed => 0..=10_000,
            Quantity::NewDepth => 1..=2_000_000,
            Quantity::Rate => 1..=1_000,
        }
    }

    // The value, where it is in range.
    pub(crate) fn checked(self, value: i64) -> Result<i64, OutOfRange>
        ensures { MatchResult result (λ same. (same ≡ value) × (within self value ≡ true) × (least_of self ≤ℤ same) × (same ≤ℤ greatest_of self)) (λ out. (out ≡ OutOfRange.Beyond self value) × (within self value ≡ false)) }
    {
        if self.range().contains(&value) {
            Ok(value)
        } else {
            Err(OutOfRange::Beyond {
                quantity: self,
                value,
            })
        }
    }

    // The same of a quantity that 32 bits hold: `as` is proved to lose nothing, where `try_from` would have an error that
    // cannot come.
    pub(crate) fn natural(self, value: i64) -> Result<u32, OutOfRange>
        requires low { pos 0 ≤ℤ least_of self }
        requires high { greatest_of self ≤ℤ pos 4294967295 }
        ensures { MatchResult result (λ n. (pos n ≡ value) × (within self value ≡ true) × (least_of self ≤ℤ pos n) × (pos n ≤ℤ greatest_of self)) (λ out. (out ≡ OutOfRange.Beyond self value) × (within self value ≡ false)) }
    {
        Ok(self.checked(value)? as u32)
    }

    // Whether a number out of this range means that a rule cannot be made.
    pub(crate) fn makes_rule(self) -> bool
        ensures { result ≡ of_rule self }
    {
        matches!(
            self,
            Quantity::FluxNumber | Quantity::Coefficient | Quantity::Strength
        )
    }
}

impl fmt::Display for Side {
    fn fmt<W: fmt::Write>(&self, f: &mut fmt::Formatter<W>) -> fmt::Result {
        f.write_str(match self {
            Side::Left => "left",
            Side::Right => "right",
        })
    }
}

impl fmt::Display for Quantity {
    fn fmt<W: fmt::Write>(&self, f: &mut fmt::Formatter<W>) -> fmt::Result {
        match self {
            Quantity::Depth => f.write_str("depth"),
            Quantity::FluxNumber => f.write_str("flux number"),
            Quantity::SideDepth { side } => write!(f, "{side} depth"),
            Quantity::SideVelocity { side } => write!(f, "{side} velocity"),
            Quantity::Coefficient => f.write_str("coefficient"),
            Quantity::Strength => f.write_str("strength"),
            Quantity::Flow => f.write_str("flow"),
            Quantity::Speed => f.write_str("speed"),
            Quantity::NewDepth => f.write_str("new depth"),
            Quantity::Rate => f.write_str("rate"),
        }
    }
}

impl fmt::Display for OutOfRange {
    fn fmt<W: fmt::Write>(&self, f: &mut fmt::Formatter<W>) -> fmt::Result {
        match self {
            OutOfRange::Beyond { quantity, value } => {
                // 8 is the number of a rule that cannot be made; a flux number is none of a `RuleRefusal`.
                let cause = if quantity.makes_rule() {
                    "refused 8"
                } else {
                    "out of range"
                };
                let (least, greatest) = quantity.range().into_inner();
                write!(
                    f,
                    "{cause}: the {quantity} {value} is not {least} to {greatest}"
                )
            }
            OutOfRange::DryMoving { velocity, value } => {
                write!(
                    f,
                    "out of range: the {velocity} {value} over a depth of 0 is not 0"
                )
            }
        }
    }
}

impl Error for OutOfRange {}
