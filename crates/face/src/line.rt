// A line of text, and its answer.
ghost use Rattle.std.specs.Prelude.{◌≡◌};
ghost use Rattle.face.specs.declared.line.Unanswered.TheVariants.{Unreadable as Unread, OutOfRange as Out};

use crate::answer::{Answer, reply_to};
use crate::quantity::OutOfRange;
use crate::reading::{Unreadable, read};
use std::error::Error;
use std::fmt;

// Why a line has no answer.
#[derive(Clone, Copy, Debug, PartialEq, Eq)]
pub enum Unanswered<'a> {
    Unreadable { why: Unreadable<'a> },
    OutOfRange { why: OutOfRange },
}

// The answer to a line that has at least one word.
pub(crate) fn answer_line(line: &str) -> Result<Answer, Unanswered<'_>> {
    Ok(reply_to(read(line)?)?)
}

impl<'a> From<Unreadable<'a>> for Unanswered<'a> {
    ghost from_gives = { λ why unanswered. unanswered ≡ Unread why };

    fn from(why: Unreadable<'a>) -> Self {
        Unanswered::Unreadable { why }
    }
}

impl From<OutOfRange> for Unanswered<'_> {
    ghost from_gives = { λ why unanswered. unanswered ≡ Out why };

    fn from(why: OutOfRange) -> Self {
        Unanswered::OutOfRange { why }
    }
}

impl fmt::Display for Unanswered<'_> {
    fn fmt<W: fmt::Write>(&self, f: &mut fmt::Formatter<W>) -> fmt::Result {
        match self {
            Unanswered::Unreadable { why } => write!(f, "{why}"),
            Unanswered::OutOfRange { why } => write!(f, "{why}"),
        }
    }
}

impl Error for Unanswered<'_> {}
