// Columns of cells and of the ghosts beyond a side.
ghost use Rattle.std.specs.Prelude.{◌≡◌, ◌≤◌, false};
ghost use Rattle.book.specs.declared.side.Hand.TheVariants.{West};
ghost use Rattle.book.specs.declared.side.Side.TheVariants.{Wall, Held, Fed};
ghost use Rattle.book.specs.Faces.{column, held_depth, ghost as ghost_column};
ghost use Rattle.sheet.specs.Ghosts.{ghost_amiss};
ghost use Rattle.step.specs.Columns.{column_of};

use crate::column::Column;
use crate::numbers::positive_part;
use book::side::{Hand, Side};
use sheet::water::Water;

// A cell as a face to the given hand sees it.
pub(crate) fn column_to(hand: Hand, water: Water) -> Column
    ensures { column_of result ≡ column hand water.cell }
{
    let (normal, along) = match hand {
        Hand::West | Hand::East => (water.east, water.north),
        Hand::South | Hand::North => (water.north, water.east),
    };
    Column {
        bed: water.cell.bed,
        depth: water.cell.depth,
        normal,
        along,
    }
}

// The water of a cell as a wall throws it back. A literal with ghost fields takes no `..`, so a copy is changed.
fn reversed(inner: Column) -> Column
    ensures { column_of result ≡ ghost_column Wall West (column_of inner) }
{
    let mut back = inner;
    back.normal = -inner.normal;
    back
}

// Still water beyond a side that is held at a level, with the velocities of the inner cell. A copy is changed, as in
// `reversed`.
fn held_at(level: i32, inner: Column) -> Column
    requires { held_depth level inner.bed ≤ 2000000 }
    ensures { column_of result ≡ ghost_column (Held level) West (column_of inner) }
{
    let mut held = inner;
    held.depth = positive_part(i64::from(level) - i64::from(inner.bed));
    held
}

// A stream into the sheet from beyond the given hand.
fn fed_with(depth: u32, speed: u32, hand: Hand, inner: Column) -> Column
    requires shallow { depth ≤ 2000000 }
    requires slow { speed ≤ 10000 }
    ensures { column_of result ≡ ghost_column (Fed depth speed) hand (column_of inner) }
{
    let speed = speed as i32;
    let normal = match hand {
        Hand::West | Hand::South => speed,
        Hand::East | Hand::North => -speed,
    };
    Column {
        bed: inner.bed,
        depth,
        normal,
        along: 0,
    }
}

// The ghost beyond the side to the given hand, for the inner cell.
pub(crate) fn ghost_beyond(side: Side, hand: Hand, inner: Water) -> Column
    requires { ghost_amiss side inner.cell ≡ false }
    ensures { column_of result ≡ ghost_column side hand (column hand inner.cell) }
{
    let own = column_to(hand, inner);
    match side {
        Side::Wall => reversed(own),
        Side::Open => own,
        Side::Held { level } => held_at(level, own),
        Side::Fed { depth, speed } => fed_with(depth, speed, hand, own),
    }
}
