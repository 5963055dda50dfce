// Where two columns meet.
ghost use Rattle.std.specs.Prelude.{◌≡◌, ◌≤◌, pos, ◌+ℤ◌, ◌-ℤ◌, ◌≤ℤ◌};
ghost use Rattle.book.specs.Numbers.{where_wet};
ghost use Rattle.book.specs.Faces.{above, meet, face_of};
ghost use Rattle.step.specs.Columns.{column_of, edge_seen, face_seen};

use crate::column::Column;
use crate::edge::{Edge, Edges};
use crate::numbers::positive_part;
use book::side::Hand;
use rules::root::root;
use rules::side::FaceSide;

// So much of the water of a column; where there is none, it does not move. The depth is a plain number, as in `Column`; the
// side is written out, since `FaceSide::new` would test its range again.
fn edge_of(depth: u32, column: Column) -> Edge
    requires { depth ≤ 2000000 }
    ensures depth { result.side.depth ≡ depth }
    ensures normal { result.side.normal ≡ where_wet depth column.normal }
    ensures along { result.along ≡ where_wet depth column.along }
{
    let (normal, along) = if depth == 0 {
        (0, 0)
    } else {
        (column.normal, column.along)
    };
    let side = FaceSide {
        depth,
        normal,
        wave: root(depth),
    };
    Edge { side, along }
}

// How far the surface of a column stands above a bed.
fn rise_over(bed: i32, column: Column) -> i64
    ensures { result ≡ (pos column.depth +ℤ column.bed) -ℤ bed }
{
    i64::from(column.depth) + i64::from(column.bed) - i64::from(bed)
}

// The water of a column that stands above a bed no lower than its own.
fn edge_above(bed: i32, column: Column) -> Edge
    requires { column.bed ≤ℤ bed }
    ensures { edge_seen result ≡ above bed (column_of column) }
{
    edge_of(positive_part(rise_over(bed, column)), column)
}

// Two columns meet at the higher bed.
fn meeting(left: Column, right: Column) -> Edges
    ensures { face_seen result ≡ meet (column_of left) (column_of right) }
{
    let bed = left.bed.max(right.bed);
    Edges {
        left: edge_above(bed, left),
        right: edge_above(bed, right),
    }
}

// The face to the given hand between a cell's own column and the one beyond.
pub(crate) fn face_between(hand: Hand, own: Column, far: Column) -> Edges
    ensures { face_seen result ≡ face_of hand (column_of own) (column_of far) }
{
    match hand {
        Hand::West | Hand::South => meeting(far, own),
        Hand::East | Hand::North => meeting(own, far),
    }
}
