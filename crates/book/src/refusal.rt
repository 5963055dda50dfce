// Why a call or a record is refused, each case with its number. No `Error`: a reply carries a refusal, and
// its number names it.
ghost use Rattle.std.specs.Prelude.{◌≡◌};
ghost use Rattle.book.specs.Refusals.{refusal_number};

#[derive(Clone, Copy, Debug, PartialEq, Eq)]
pub enum Refusal {
    Size = 1,
    Place,
    Bed,
    Depth,
    Side,
    Rate,
    Amount,
    Rule,
    UnknownKind,
    CutShort,
    OutOfStage,
    Unlaid,
    TooSlow,
    Brim,
    FullAccount,
    NoRate,
}

impl Refusal {
    pub fn number(self) -> u8
        ensures { result ≡ refusal_number self }
    {
        self as u8
    }
}
