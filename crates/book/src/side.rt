// The four hands, and what stands beyond a side of the sheet.

// A direction from a cell, and the side of the sheet that lies there.
#[derive(Clone, Copy, PartialEq, Eq)]
pub enum Hand {
    West,
    East,
    South,
    North,
}

// A wall, open water that goes on as it is inside, water held at a level, or a stream that is fed into the sheet.
#[derive(Clone, Copy, PartialEq, Eq)]
pub enum Side {
    Wall,
    Open,
    Held { level: i32 },
    Fed { depth: u32, speed: u32 },
}
