// Judges one cell.
ghost use Rattle.std.specs.Prelude.{◌≡◌, false, not, length};
ghost use Rattle.survey.specs.Model.{model};
ghost use Rattle.survey.specs.Page.{hidden};
ghost use Rattle.cut.specs.Finding.{Finds};

use crate::finding::{Cut, Finding};
use flow::raising::raise;
use sensitivity::table::Table;
use survey::refusal::Refusal;

// Whether a cell is blank; one past the pattern's end is printed.
pub(crate) fn is_blank(pattern: &[bool], cell: usize) -> bool
    ensures { result ≡ hidden pattern.now cell }
{
    pattern.get(cell).copied().unwrap_or(false)
}

// Other cell sums that give the same page and protect the cell, in the memory lent, or the least cut that shows that there
// are none. A cell that is printed and lacks something has neither. The slices stand apart, as `raise` takes them.
pub fn witness_or_cut(
    table: &Table,
    pattern: &[bool],
    cell: usize,
    sums: &mut [u64],
    falls: &mut [u64],
    rises: &mut [u64],
    witness: &mut [u64],
) -> Result<Finding, Refusal>
    ensures { Finds (model table.now.survey) pattern.now cell sums.old falls.old rises.old witness.old sums.new falls.new rises.new witness.new result }
{
    if !is_blank(pattern, cell) && table.lack(cell) > 0 {
        return Ok(Finding::Printed);
    }
    let flow = raise(table, pattern, cell, sums, falls, rises, witness)?;
    if flow.lacking == 0 {
        return Ok(Finding::Shown);
    }
    // an array of a struct goes into another one by way of a variable: the borrow checker asks for it
    let rows = flow.rows;
    let columns = flow.columns;
    Ok(Finding::Barred(Cut { rows, columns }))
}
