// Reads the words of a line as a question.
use crate::quantity::{Quantity, Side};
use crate::question::{Asked, AskedSide, AskedStream};
use std::error::Error;
use std::fmt;
use std::str::SplitWhitespace;

// Why a line cannot be read.
#[derive(Clone, Copy, Debug, PartialEq, Eq)]
pub enum Unreadable<'a> {
    Unknown { word: &'a str },
    Missing { quantity: Quantity },
    NoNumber { quantity: Quantity, word: &'a str },
    Extra { word: &'a str },
}

impl fmt::Display for Unreadable<'_> {
    fn fmt<W: fmt::Write>(&self, f: &mut fmt::Formatter<W>) -> fmt::Result {
        match self {
            Unreadable::Unknown { word } => {
                write!(
                    f,
                    "cannot read: '{word}' asks nothing; ask root, flux, bare or weed"
                )
            }
            Unreadable::Missing { quantity } => write!(f, "cannot read: the {quantity} is missing"),
            Unreadable::NoNumber { quantity, word } => {
                write!(
                    f,
                    "cannot read: the {quantity} '{word}' is no whole number of 64 bits"
                )
            }
            Unreadable::Extra { word } => write!(f, "cannot read: '{word}' is one word too many"),
        }
    }
}

impl Error for Unreadable<'_> {}

// `line` has at least one word.
pub(crate) fn read(line: &str) -> Result<Asked, Unreadable<'_>> {
    let mut words = line.split_whitespace();
    let asked = asked(&mut words)?;
    match words.next() {
        Some(word) => Err(Unreadable::Extra { word }),
        None => Ok(asked),
    }
}

fn asked<'a>(words: &mut SplitWhitespace<'a>) -> Result<Asked, Unreadable<'a>> {
    match words.next().unwrap_or("") {
        "root" => Ok(Asked::Root {
            depth: read_number(words, Quantity::Depth)?,
        }),
        "flux" => Ok(Asked::Flux {
            number: read_number(words, Quantity::FluxNumber)?,
            left: read_side(words, Side::Left)?,
            right: read_side(words, Side::Right)?,
        }),
        "bare" => Ok(Asked::Bare {
            coefficient: read_number(words, Quantity::Coefficient)?,
            stream: read_stream(words)?,
        }),
        "weed" => Ok(Asked::Weed {
            strength: read_number(words, Quantity::Strength)?,
            coefficient: read_number(words, Quantity::Coefficient)?,
            stream: read_stream(words)?,
        }),
        word => Err(Unreadable::Unknown { word }),
    }
}

fn read_number<'a>(
    words: &mut SplitWhitespace<'a>,
    quantity: Quantity,
) -> Result<i64, Unreadable<'a>> {
    let word = words.next().ok_or(Unreadable::Missing { quantity })?;
    word.parse::<i64>()
        .map_err(|_| Unreadable::NoNumber { quantity, word })
}

fn read_side<'a>(words: &mut SplitWhitespace<'a>, side: Side) -> Result<AskedSide, Unreadable<'a>> {
    Ok(AskedSide {
        depth: read_number(words, Quantity::SideDepth { side })?,
        velocity: read_number(words, Quantity::SideVelocity { side })?,
    })
}

fn read_stream<'a>(words: &mut SplitWhitespace<'a>) -> Result<AskedStream, Unreadable<'a>> {
    Ok(AskedStream {
        flow: read_number(words, Quantity::Flow)?,
        speed: read_number(words, Quantity::Speed)?,
        depth: read_number(words, Quantity::NewDepth)?,
        rate: read_number(words, Quantity::Rate)?,
    })
}
