// What can be asked: a root, a flux, a friction. First as plain numbers, then with numbers in range.
use rules::face::Face;
use rules::friction::bare_bed::BareBed;
use rules::friction::stream::Stream;
use rules::friction::weed::Weed;

// One side of a face as it is read.
#[derive(Clone, Copy)]
pub struct AskedSide {
    pub depth: i64,
    pub velocity: i64,
}

// What a friction rule is to be given, as it is read.
#[derive(Clone, Copy)]
pub struct AskedStream {
    pub flow: i64,
    pub speed: i64,
    pub depth: i64,
    pub rate: i64,
}

// A question as it is read. A type of its own beside `Question`: reading fails with a word borrowed from the line, and a
// `Result` of such an error and a value with ghost fields gets no generated proof.
#[derive(Clone, Copy)]
pub enum Asked {
    Root {
        depth: i64,
    },
    Flux {
        number: i64,
        left: AskedSide,
        right: AskedSide,
    },
    Bare {
        coefficient: i64,
        stream: AskedStream,
    },
    Weed {
        strength: i64,
        coefficient: i64,
        stream: AskedStream,
    },
}

#[derive(Clone, Copy)]
pub enum FluxName {
    Rusanov,
    Hll,
}

// A question whose numbers are in range.
#[derive(Clone, Copy)]
pub enum Question {
    Root { depth: u32 },
    Flux { name: FluxName, face: Face },
    Bare { bed: BareBed, stream: Stream },
    Weed { weed: Weed<BareBed>, stream: Stream },
}
