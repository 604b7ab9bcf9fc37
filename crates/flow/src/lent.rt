// Memory that is lent, cut to one entry for each cell.
ghost use Rattle.std.specs.Prelude.{◌≡◌, ℕ, ◌^◌, ◌<◌, length, slice_index};
ghost use Rattle.survey.specs.Model.{model, size};
ghost use Rattle.survey.specs.Page.{true_sum};
ghost use Rattle.flow.specs.Standing.{survey_of};
ghost use Rattle.flow.specs.Ways.{raised_sums};

use crate::standing::Standing;
use sensitivity::table::Table;

// The survey's sum of each cell.
pub(crate) fn fill_sums(table: &Table, sums: &mut [u64])
    ensures long { length sums.new ≡ length sums.old }
    ensures known { (d : ℕ) → d < length sums.old → slice_index sums.new d ≡ true_sum (model table.now.survey) d }
{
    for (d, sum) in sums.iter_mut().enumerate() {
        *sum = table.profile(d).sum;
    }
}

// The sums as they stand, with the raised cell higher by so much.
pub(crate) fn write_witness(standing: &Standing, by: u64, witness: &mut [u64])
    requires long { length witness.old ≡ size (survey_of standing.now.raised) }
    requires small { by < 2 ^ 62 }
    ensures long { length witness.new ≡ length witness.old }
    ensures known { (d : ℕ) → d < size (survey_of standing.now.raised) → slice_index witness.new d ≡ raised_sums (survey_of standing.now.raised) standing.now.raised.cell by standing.now.falls.now standing.now.rises.now d }
{
    for (d, sum) in witness.iter_mut().enumerate() {
        let own = if d == standing.raised.cell { by } else { 0 };
        *sum = standing.sum(d) + own;
    }
}
