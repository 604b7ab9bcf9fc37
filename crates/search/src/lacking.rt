// The cells that lack something, by number.
ghost use Rattle.std.specs.Prelude.{◌≡◌, ◌<◌, map, Some, IfOk, MatchBool, is_some, false, true, slice_index};
ghost use Rattle.survey.specs.Model.{model};
ghost use Rattle.search.specs.Lacking.{lacking_cells, unknown};
ghost use Rattle.search.specs.Moves.{bit_of};
ghost use Rattle.search.specs.declared.moves.Moves.{Moves};

use crate::moves::Moves;
use sensitivity::table::Table;
use std::alloc::{AllocError, Global};

// A cell that lacks something, and which cells a witness of it changes, where one is known.
#[derive(Clone, Copy)]
pub(crate) struct Lacking {
    pub(crate) cell: usize,
    pub(crate) moves: Option<Moves>,
}

impl Lacking {
    // Whether the witness that is known changes the cell in this row and column. Asked of what is known in place: it is an
    // array, which is not to be copied for one bit.
    pub(crate) fn changes(&self, row: usize, column: usize) -> bool
        requires known { is_some self.now.moves ≡ true }
        requires row_within { row < 40 }
        requires column_within { column < 40 }
        ensures { (m : Moves) × (self.now.moves ≡ Some m) × (result ≡ bit_of (slice_index m.rows row) column) }
    {
        match &self.moves {
            Some(moves) => moves.holds(row, column),
            None => unreachable!(),
        }
    }
}

// The cells that lack something, by number.
fn lacking_numbers(heap: Global, table: &Table) -> Result<Vec<usize>, AllocError>
    ensures { IfOk result (λ v. v.items ≡ lacking_cells (model table.now.survey)) }
{
    (0..table.survey().cells())
        .filter(|cell| table.lack(*cell) > 0)
        .collect(heap)
}

// The same, of each of which nothing is known yet. Their numbers come first, so that this list, whose entries are large, is
// made at once as long as it is to be.
pub(crate) fn lacking_cells(heap: Global, table: &Table) -> Result<Vec<Lacking>, AllocError>
    ensures { IfOk result (λ v. v.items ≡ map unknown (lacking_cells (model table.now.survey))) }
{
    let numbers = lacking_numbers(heap, table)?;
    numbers
        .iter()
        .map(|cell| Lacking {
            cell: *cell,
            moves: None,
        })
        .collect(heap)
}
