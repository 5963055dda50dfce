// The answers, by the rules.
ghost use Rattle.std.specs.Prelude.{◌≡◌};
ghost use Rattle.rules.specs.Face.{of_face};
ghost use Rattle.rules.specs.Stream.{of_stream};
ghost use Rattle.face.specs.Checks.{FirstFault, fault_of};
ghost use Rattle.face.specs.Replies.{RightAnswer, answer_to, passed_by};

use crate::checking::check;
use crate::quantity::OutOfRange;
use crate::question::{Asked, FluxName, Question};
use rules::face::Face;
use rules::flux::hll::Hll;
use rules::flux::rusanov::Rusanov;
use rules::flux::{Flux, FluxRule};
use rules::friction::FrictionRule;
use rules::friction::stream::Stream;
use rules::root::root;
use std::fmt;

#[derive(Clone, Copy)]
pub enum Answer {
    Wave { speed: u32 },
    Passed { flux: Flux },
    Left { flow: i64 },
}

// The answer to what was asked, or the first of its numbers that is out of range.
pub(crate) fn reply_to(asked: Asked) -> Result<Answer, OutOfRange>
    ensures { FirstFault (fault_of asked) (RightAnswer asked) result }
{
    Ok(reply(check(asked)?))
}

pub(crate) fn reply(question: Question) -> Answer
    ensures { result ≡ answer_to question }
{
    match question {
        Question::Root { depth } => Answer::Wave { speed: root(depth) },
        // Which rule answers is known from the line alone, and each arm is one call of a generic function: a `dyn` or a
        // function pointer would be made in the same arms.
        Question::Flux { name, face } => match name {
            FluxName::Rusanov => passed(&Rusanov, face),
            FluxName::Hll => passed(&Hll, face),
        },
        Question::Bare { bed, stream } => slowed(&bed, stream),
        Question::Weed { weed, stream } => slowed(&weed, stream),
    }
}

fn passed<F: FluxRule>(rule: &F, face: Face) -> Answer
    ensures { result ≡ passed_by (F.FluxRule.water rule.now) (F.FluxRule.push rule.now) face }
{
    Answer::Passed {
        flux: rule.flux(face),
    }
}

fn slowed<R: FrictionRule>(rule: &R, stream: Stream) -> Answer
    ensures { result ≡ Answer.Left (of_stream (R.FrictionRule.slowed rule.now) stream) }
{
    Answer::Left {
        flow: rule.slow(stream),
    }
}

impl fmt::Display for Answer {
    fn fmt<W: fmt::Write>(&self, f: &mut fmt::Formatter<W>) -> fmt::Result {
        match self {
            Answer::Wave { speed } => write!(f, "root {speed}"),
            Answer::Passed { flux } => {
                let Flux { water, push } = flux;
                write!(f, "water {water} push {push}")
            }
            Answer::Left { flow } => write!(f, "flow {flow}"),
        }
    }
}
