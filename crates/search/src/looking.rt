// Whether a cell is protected, and by a witness that changes which cells.
ghost use Rattle.std.specs.Prelude.{◌≡◌, ◌<◌, ◌≤◌, true, length, MatchOption};
ghost use Rattle.survey.specs.Model.{model, size};
ghost use Rattle.survey.specs.Page.{hidden, Witness};
ghost use Rattle.cut.specs.Scratched.{Roomy};
ghost use Rattle.search.specs.Lacking.{Kept};

use crate::moves::{Moves, moves_of};
use cut::finding::Finding;
use cut::scratch::Scratch;
use sensitivity::table::Table;

// The cells that some witness changes, where a blank cell has one with this pattern.
pub(crate) fn look(
    table: &Table,
    pattern: &[bool],
    cell: usize,
    scratch: &mut Scratch,
) -> Option<Moves>
    requires roomy { Roomy (size (model table.now.survey)) scratch.old }
    requires long { size (model table.now.survey) ≤ length pattern.now }
    requires inside { cell < size (model table.now.survey) }
    requires blank { hidden pattern.now cell ≡ true }
    ensures room { Roomy (size (model table.now.survey)) scratch.new }
    ensures found { MatchOption result (Witness (model table.now.survey) pattern.now cell → ⊥) (λ m. Kept (model table.now.survey) pattern.now cell m) }
{
    match scratch.judge(table, pattern, cell) {
        Ok(Finding::Shown) => {
            let survey = table.survey();
            Some(moves_of(
                survey.rows(),
                survey.columns(),
                &scratch.sums,
                &scratch.witness,
            ))
        }
        Ok(Finding::Barred(_)) => None,
        // the cell is blank, and there is memory for all cells
        Ok(Finding::Printed) | Err(_) => unreachable!(),
    }
}
