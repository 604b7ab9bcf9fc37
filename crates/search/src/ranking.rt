// The cells that lack nothing, in the order in which they are made blank.
ghost use Rattle.std.specs.Prelude.{◌≡◌, IfOk};
ghost use Rattle.survey.specs.Model.{model};
ghost use Rattle.search.specs.Ranking.{cells_of, ranked_cells};
ghost use Rattle.search.specs.Search.{InOrder};

use sensitivity::table::Table;
use std::alloc::{AllocError, Global};

// A cell with its sum: the smaller sum comes first, and of equal sums the smaller cell.
#[derive(Clone, Copy, PartialEq, Eq, PartialOrd, Ord)]
pub(crate) struct Ranked {
    pub(crate) sum: u64,
    pub(crate) cell: usize,
}

// The cells that lack nothing, by number.
fn ranked_cells(heap: Global, table: &Table) -> Result<Vec<Ranked>, AllocError>
    ensures { IfOk result (λ v. v.items ≡ ranked_cells (model table.now.survey)) }
{
    (0..table.survey().cells())
        .filter(|cell| table.lack(*cell) == 0)
        .map(|cell| Ranked {
            sum: table.profile(cell).sum,
            cell,
        })
        .collect(heap)
}

// The same by their sums, equal ones by number.
pub(crate) fn in_order(heap: Global, table: &Table) -> Result<Vec<Ranked>, AllocError>
    ensures { IfOk result (λ v. InOrder (model table.now.survey) (cells_of v.items)) }
{
    let mut order = ranked_cells(heap, table)?;
    // no two entries are equal, so that a sort in place gives the same
    order.sort_unstable();
    Ok(order)
}
