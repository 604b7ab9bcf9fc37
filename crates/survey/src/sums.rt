// The sums of a survey: of each cell, of a row, of a column, and of all.
ghost use Rattle.std.specs.Prelude.{◌≡◌, ℕ, ◌^◌, ◌<◌, ◌≤◌, Bool, length, sum_by, slice_index};
ghost use Rattle.survey.specs.Lending.{Written, Fills};
ghost use Rattle.survey.specs.Model.{model, size};
ghost use Rattle.survey.specs.Page.{true_sum};
ghost use Rattle.survey.specs.Survey.{pick, sum_of_all, row_sum, column_sum};
ghost use Rattle.survey.specs.declared.refusal.Lent.TheVariants.{Sums};
ghost use Rattle.survey.specs.declared.refusal.Refusal.TheVariants.{Short};

use crate::checked::Survey;
use crate::refusal::{Lent, Refusal};
use crate::workshop::Workshop;

// What a workshop adds to a sum.
fn amount(workshop: &Workshop) -> u64
    ensures value { result ≡ workshop.now.turnover }
    ensures fits { result < 2 ^ 32 }
{
    workshop.turnover as u64
}

impl Survey {
    pub fn rows(&self) -> usize
        ensures { result ≡ (model self.now).rows }
    {
        self.rows
    }

    pub fn columns(&self) -> usize
        ensures { result ≡ (model self.now).columns }
    {
        self.columns
    }

    pub fn percent(&self) -> u8
        ensures { result ≡ (model self.now).percent }
    {
        self.percent
    }

    // How many cells the table has.
    pub fn cells(&self) -> usize
        ensures value { result ≡ size (model self.now) }
        ensures bound { result ≤ 1600 }
    {
        self.rows * self.columns
    }

    // The workshops in the order in which they were read.
    pub fn workshops(&self) -> &[Workshop]
        ensures { result.now ≡ self.now.workshops.items }
    {
        self.workshops.as_slice()
    }

    // Adds each turnover to its cell's sum, in memory that is clear.
    fn sum_cells(&self, sums: &mut [u64])
        requires enough { size (model self.now) ≤ length sums.old }
        requires clear { (d : ℕ) → d < size (model self.now) → slice_index sums.old d ≡ 0 }
        ensures { Written 0 (true_sum (model self.now)) (size (model self.now)) sums.old sums.new }
    {
        for workshop in &self.workshops {
            sums[workshop.cell as usize] += workshop.turnover as u64;
        }
    }

    // The sum of each cell, into the first entries of the memory lent; what lies past them stays.
    pub fn cell_sums(&self, sums: &mut [u64]) -> Result<(), Refusal>
        ensures { Fills 0 (true_sum (model self.now)) (size (model self.now)) (Short Sums) sums.old sums.new result }
    {
        if sums.len() < self.cells() {
            return Err(Refusal::Short(Lent::Sums));
        }
        sums[..self.cells()].fill(0);
        self.sum_cells(sums);
        Ok(())
    }

    // The sum of the workshops in the cells of which the test holds.
    fn sum_where<F: Fn(usize) -> bool>(&self, test: F) -> u64
        requires { F.IsAlwaysCallable test }
        ensures { (holds : ℕ → Bool) → ((c : ℕ) (b : Bool) → F.post test c b → b ≡ holds c) → result ≡ sum_by (λ w. pick (holds w.cell) w.turnover 0) self.now.workshops.items }
    {
        // one pass: with a filter before it the compiler makes two loops of it, one in the other
        self.workshops
            .iter()
            .map(|workshop| {
                if test(workshop.cell as usize) {
                    amount(workshop)
                } else {
                    0
                }
            })
            .sum()
    }

    // The sum of a row, 0 for one past the table.
    pub fn row_sum(&self, row: usize) -> u64
        ensures { result ≡ row_sum (model self.now).columns (model self.now).cells (model self.now).values row }
    {
        let columns = self.columns;
        self.sum_where(|cell| cell / columns == row)
    }

    // The sum of a column, 0 for one past the table.
    pub fn column_sum(&self, column: usize) -> u64
        ensures { result ≡ column_sum (model self.now).columns (model self.now).cells (model self.now).values column }
    {
        let columns = self.columns;
        self.sum_where(|cell| cell % columns == column)
    }

    // The sum of all turnovers.
    pub fn total(&self) -> u64
        ensures { result ≡ sum_of_all (model self.now).values }
    {
        self.sum_where(|_| true)
    }
}
