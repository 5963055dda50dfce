// Places of a lake, what is there and what lies beyond.
ghost use Rattle.std.specs.Prelude.{◌≡◌, ◌+◌, ◌*◌, ◌<◌, length, IfSome};
ghost use Rattle.book.specs.Sheets.{cell_at, side_at, neighbour as neighbour_place, beyond as beyond_place, face};
ghost use Rattle.sheet.specs.Tables.{lake_table};
ghost use Rattle.step.specs.Columns.{column_of, face_seen};
ghost use Rattle.step.specs.Places.{Found, placed, at_spot};

use crate::column::Column;
use crate::columns::{column_to, ghost_beyond};
use crate::edge::Edges;
use crate::edges::face_between;
use crate::spot::Spot;
use book::side::{Hand, Side};
use sheet::lake::Lake;
use sheet::water::Water;

// What stands to a hand of the lake.
pub(crate) fn side_to(lake: &Lake, hand: Hand) -> Side
    ensures { result ≡ side_at (lake_table lake.now) hand }
{
    lake.sides[hand as usize]
}

impl<'a> Spot<'a> {
    // The place in that row and column, where the lake has one.
    pub(crate) fn at(lake: &'a Lake, row: usize, column: usize) -> Option<Spot<'a>>
        ensures { Found lake.now row column result }
    {
        if row < lake.rows && column < lake.columns {
            Some(Spot { lake, row, column })
        } else {
            None
        }
    }

    // Its number, row by row.
    pub(crate) fn number(self) -> usize
        ensures value { result ≡ self.entry.row * self.entry.lake.now.columns + self.entry.column }
        ensures bound { result < length self.entry.lake.now.cells.items }
    {
        self.row * self.lake.columns + self.column
    }

    // The water there.
    pub(crate) fn water(self) -> Water
        ensures { result.cell ≡ at_spot cell_at self.entry }
    {
        self.lake.cells[self.number()]
    }

    // The place next to it; absent at the edge.
    pub(crate) fn neighbour(self, hand: Hand) -> Option<Spot<'a>>
        ensures value { placed result ≡ at_spot neighbour_place self.entry hand }
        ensures lake { IfSome result (λ next. next.lake.now ≡ self.entry.lake.now) }
    {
        let (row, column) = match hand {
            Hand::West => (self.row, self.column.checked_sub(1)?),
            Hand::East => (self.row, self.column + 1),
            Hand::South => (self.row.checked_sub(1)?, self.column),
            Hand::North => (self.row + 1, self.column),
        };
        Spot::at(self.lake, row, column)
    }

    // What lies beyond it to the given hand: its neighbour, or the ghost beyond that side.
    #[tactic(auto, using(book::proofs::Neighbours::stands, sheet::proofs::Lakes::lake_sound, sheet::proofs::Lakes::ghost_fine))]
    fn beyond(self, hand: Hand) -> Column
        ensures { column_of result ≡ at_spot beyond_place self.entry hand }
    {
        match self.neighbour(hand) {
            Some(next) => column_to(hand, next.water()),
            None => ghost_beyond(side_to(self.lake, hand), hand, self.water()),
        }
    }

    // The face to the given hand.
    pub(crate) fn face(self, hand: Hand) -> Edges
        ensures { face_seen result ≡ at_spot face self.entry hand }
    {
        face_between(hand, column_to(hand, self.water()), self.beyond(hand))
    }
}
