// From the numbers that are read to a question whose numbers are in range.
ghost use Rattle.std.specs.Prelude.{◌≡◌, pos};
ghost use Rattle.face.specs.Checks.{FirstFault, plain, plain_flux, plain_side, plain_stream, flux_fault, side_fault, stream_fault, bed_fault, weed_fault, fault_of};

use crate::quantity::{OutOfRange, Quantity, Side};
use crate::question::{Asked, AskedSide, AskedStream, FluxName, Question};
use rules::face::Face;
use rules::friction::bare_bed::BareBed;
use rules::friction::stream::Stream;
use rules::friction::weed::Weed;
use rules::side::FaceSide;

// The question that was asked, or the first of its numbers that is out of range.
pub(crate) fn check(asked: Asked) -> Result<Question, OutOfRange>
    ensures { FirstFault (fault_of asked) (λ question. plain question ≡ asked) result }
{
    match asked {
        Asked::Root { depth } => Ok(Question::Root {
            depth: Quantity::Depth.natural(depth)?,
        }),
        Asked::Flux {
            number,
            left,
            right,
        } => Ok(Question::Flux {
            name: FluxName::try_from(number)?,
            face: Face {
                left: face_side(Side::Left, left)?,
                right: face_side(Side::Right, right)?,
            },
        }),
        Asked::Bare {
            coefficient,
            stream: asked,
        } => Ok(Question::Bare {
            bed: bed(coefficient)?,
            stream: stream(asked)?,
        }),
        Asked::Weed {
            strength,
            coefficient,
            stream: asked,
        } => Ok(Question::Weed {
            weed: weed(strength, coefficient)?,
            stream: stream(asked)?,
        }),
    }
}

impl TryFrom<i64> for FluxName {
    type Error = OutOfRange;

    ghost try_from_gives = { λ number result. FirstFault (flux_fault number) (λ name. plain_flux name ≡ number) result };

    fn try_from(number: i64) -> Result<FluxName, OutOfRange> {
        match Quantity::FluxNumber.checked(number)? {
            1 => Ok(FluxName::Rusanov),
            _ => Ok(FluxName::Hll),
        }
    }
}

#[tactic(auto, unfolding(crate::specs::Checks::side_fault))]
fn face_side(side: Side, asked: AskedSide) -> Result<FaceSide, OutOfRange>
    ensures { FirstFault (side_fault side asked) (λ side. plain_side side ≡ asked) result }
{
    let depth = Quantity::SideDepth { side }.natural(asked.depth)?;
    let velocity = Quantity::SideVelocity { side };
    let value = velocity.checked(asked.velocity)?;
    // Both are in range here, so that the only fault left is `DryMoving`.
    FaceSide::new(depth, value as i32).map_err(|_| OutOfRange::DryMoving { velocity, value })
}

#[tactic(auto, unfolding(crate::specs::Checks::stream_fault))]
fn stream(asked: AskedStream) -> Result<Stream, OutOfRange>
    ensures { FirstFault (stream_fault asked) (λ stream. plain_stream stream ≡ asked) result }
{
    Ok(Stream {
        flow: Quantity::Flow.checked(asked.flow)?,
        speed: Quantity::Speed.natural(asked.speed)?,
        depth: Quantity::NewDepth.natural(asked.depth)?,
        rate: Quantity::Rate.natural(asked.rate)?,
    })
}

fn bed(coefficient: i64) -> Result<BareBed, OutOfRange>
    ensures { FirstFault (bed_fault coefficient) (λ bed. pos bed.coefficient ≡ coefficient) result }
{
    Ok(BareBed::new(Quantity::Coefficient.natural(coefficient)?).unwrap())
}

fn weed(strength: i64, coefficient: i64) -> Result<Weed<BareBed>, OutOfRange>
    ensures { FirstFault (weed_fault strength coefficient) (λ weed. (pos weed.strength ≡ strength) × (pos weed.over.coefficient ≡ coefficient)) result }
{
    let strength = Quantity::Strength.natural(strength)?;
    Ok(Weed::new(strength, bed(coefficient)?).unwrap())
}
