// The space that a step works in, made when a sheet is.
ghost use Rattle.std.specs.Prelude.{◌≡◌, length, replicate, IfOk};
ghost use Rattle.book.specs.Sheets.{no_cell};
ghost use Rattle.sheet.specs.Waters.{cells_of};

use crate::crossing::Crossing;
use crate::water::Water;
use std::alloc::{AllocError, Global};

// What crosses the western and the southern face of a cell.
#[derive(Clone, Copy)]
pub struct OwnFaces {
    pub west: Crossing,
    pub south: Crossing,
}

// The cells that a step makes, and what crosses the faces of each cell, the eastern faces of the last column and the
// northern faces of the last row. Cells and faces are two, since a step will exchange the cells for the lake's.
#[derive(Drop)]
pub struct Scratch {
    pub cells: Vec<Water>,
    pub faces: Vec<OwnFaces>,
    pub east: Vec<Crossing>,
    pub north: Vec<Crossing>,
}

impl Scratch {
    // For a sheet of so many rows, columns and cells; its cells are not laid, and nothing has crossed its faces. Three
    // numbers of any size, since a type with a sheet's limits would ask more of callers.
    #[tactic(auto, using(crate::proofs::Lakes::cells_alike))]
    pub fn new(
        heap: Global,
        rows: usize,
        columns: usize,
        cells: usize,
    ) -> Result<Scratch, AllocError>
        ensures cells { IfOk result (λ s. length s.cells.items ≡ cells) }
        ensures unlaid { IfOk result (λ s. cells_of s.cells.items ≡ replicate cells no_cell) }
        ensures faces { IfOk result (λ s. length s.faces.items ≡ cells) }
        ensures east { IfOk result (λ s. length s.east.items ≡ rows) }
        ensures north { IfOk result (λ s. length s.north.items ≡ columns) }
    {
        let idle = Crossing::idle();
        let own = OwnFaces {
            west: idle,
            south: idle,
        };
        Ok(Scratch {
            cells: vec![in heap; Water::unlaid(); cells]?,
            faces: vec![in heap; own; cells]?,
            east: vec![in heap; idle; rows]?,
            north: vec![in heap; idle; columns]?,
        })
    }
}

#[cfg(test)]
mod tests {
    use super::*;
    use std::test::Fail;

    #[test]
    fn room_for_two_rows_of_three(rt: HostRuntime) -> Result<(), Fail> {
        let scratch = Scratch::new(rt.alloc(), 2, 3, 6)?;
        assert_eq!(rt; scratch.cells.len(), 6);
        assert_eq!(rt; scratch.faces.len(), 6);
        assert_eq!(rt; scratch.east.len(), 2);
        assert_eq!(rt; scratch.north.len(), 3);
        assert!(rt; !scratch.cells[5].cell.laid);
        Ok(())
    }
}
