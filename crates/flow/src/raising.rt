// Raises one cell by what it lacks, as far as the ways go.
ghost use Rattle.std.specs.Prelude.{◌≡◌, ℕ, ◌-◌, ◌<◌, ◌≤◌, length, replicate, slice_index};
ghost use Rattle.survey.specs.Model.{model, size};
ghost use Rattle.survey.specs.Page.{true_sum, need};
ghost use Rattle.flow.specs.Afoot.{Afoot};
ghost use Rattle.flow.specs.Raising.{Marked, Raising};
ghost use Rattle.flow.specs.Standing.{survey_of};
ghost use Rattle.flow.specs.Ways.{Run, standing, raised_sums};

use crate::lent::{fill_sums, write_witness};
use crate::search::marks;
use crate::standing::{Raised, Standing};
use sensitivity::table::Table;
use survey::refusal::{Lent, Refusal};

// How a run ended: what is lacking still, and where something is, which rows and columns are reached. The marks are arrays
// for the largest table, since the flow takes no memory and so can't fail for want of it.
#[derive(Clone, Copy, Debug, PartialEq, Eq)]
pub struct Flow {
    pub lacking: u64,
    pub rows: [bool; 40],
    pub columns: [bool; 40],
}

// Takes one way after another until nothing is lacking or no way is left.
fn take_ways(raised: &Raised, sums: &[u64], falls: &mut [u64], rises: &mut [u64]) -> Flow
    requires afoot { Afoot (survey_of raised.now) raised.now.pattern.now sums.now falls.old rises.old }
    requires no_falls { falls.old ≡ replicate (size (survey_of raised.now)) 0 }
    requires no_rises { rises.old ≡ replicate (size (survey_of raised.now)) 0 }
    ensures run { Run (survey_of raised.now) raised.now.pattern.now raised.now.cell (need (survey_of raised.now) raised.now.cell) falls.old rises.old result.lacking falls.new rises.new }
    ensures afoot { Afoot (survey_of raised.now) raised.now.pattern.now sums.now falls.new rises.new }
    ensures less { result.lacking ≤ need (survey_of raised.now) raised.now.cell }
    ensures marked { Marked (survey_of raised.now) raised.now.pattern.now raised.now.cell (standing (survey_of raised.now) falls.new rises.new) result }
{
    let mut lacking = raised.table.lack(raised.cell);
    while lacking > 0 {
        let standing = Standing {
            raised: *raised,
            sums,
            falls,
            rises,
        };
        let search = standing.find_way();
        let Some(level) = search.level else {
            return Flow {
                lacking,
                rows: marks(&search.rows),
                columns: marks(&search.columns),
            };
        };
        lacking -= raised.carry(sums, falls, rises, &search, level, lacking);
    }
    Flow {
        lacking: 0,
        rows: [false; 40],
        columns: [false; 40],
    }
}

// The whole run, in memory that has just one entry for each cell; each slice by itself, as it is lent.
fn run(
    raised: &Raised,
    sums: &mut [u64],
    falls: &mut [u64],
    rises: &mut [u64],
    witness: &mut [u64],
) -> Flow
    requires sums { length sums.old ≡ size (survey_of raised.now) }
    requires falls { length falls.old ≡ size (survey_of raised.now) }
    requires rises { length rises.old ≡ size (survey_of raised.now) }
    requires witness { length witness.old ≡ size (survey_of raised.now) }
    ensures run { Run (survey_of raised.now) raised.now.pattern.now raised.now.cell (need (survey_of raised.now) raised.now.cell) (replicate (size (survey_of raised.now)) 0) (replicate (size (survey_of raised.now)) 0) result.lacking falls.new rises.new }
    ensures marked { Marked (survey_of raised.now) raised.now.pattern.now raised.now.cell (standing (survey_of raised.now) falls.new rises.new) result }
    ensures sums { (d : ℕ) → d < size (survey_of raised.now) → slice_index sums.new d ≡ true_sum (survey_of raised.now) d }
    ensures witness { (d : ℕ) → d < size (survey_of raised.now) → slice_index witness.new d ≡ raised_sums (survey_of raised.now) raised.now.cell (need (survey_of raised.now) raised.now.cell - result.lacking) falls.new rises.new d }
{
    fill_sums(raised.table, sums);
    falls.fill(0);
    rises.fill(0);
    let flow = take_ways(raised, sums, falls, rises);
    let by = raised.table.lack(raised.cell) - flow.lacking;
    let standing = Standing {
        raised: *raised,
        sums,
        falls,
        rises,
    };
    write_witness(&standing, by, witness);
    flow
}

// Raises a cell by what it lacks, as far as the ways go: its sum goes up, other hidden cells fall and rise for it, and the
// page stays the same. What is lent is used for the survey's sums, for what each cell fell and rose, and for the sums as
// they stand at the end; what lies past the table's size stays. Each is a slice of its own, since a caller may lend them from
// different places and reads each by itself afterwards.
pub fn raise(
    table: &Table,
    pattern: &[bool],
    cell: usize,
    sums: &mut [u64],
    falls: &mut [u64],
    rises: &mut [u64],
    witness: &mut [u64],
) -> Result<Flow, Refusal>
    ensures { Raising (model table.now.survey) pattern.now cell sums.old falls.old rises.old witness.old sums.new falls.new rises.new witness.new result }
{
    let cells = table.survey().cells();
    if sums.len() < cells {
        return Err(Refusal::Short(Lent::Sums));
    }
    if falls.len() < cells || rises.len() < cells || witness.len() < cells {
        return Err(Refusal::Short(Lent::Flow));
    }
    if pattern.len() < cells {
        return Err(Refusal::Short(Lent::Pattern));
    }
    let raised = Raised {
        table,
        pattern,
        cell,
    };
    Ok(run(
        &raised,
        &mut sums[0..cells],
        &mut falls[0..cells],
        &mut rises[0..cells],
        &mut witness[0..cells],
    ))
}
