// The search for a way, round by round: from the raised cell's row to the columns in which a cell can fall, from these to
// the rows in which a cell can rise, and so on until the raised cell's column is reached.
ghost use Rattle.std.specs.Prelude.{◌≡◌, ℕ, ◌+◌, ◌*◌, ◌<◌, None, false, length, nat_eq, is_some, slice_index, slice_index_or};
ghost use Rattle.survey.specs.Model.{size};
ghost use Rattle.flow.specs.Searching.{round_of, rounds, parents, Spread, Searched};
ghost use Rattle.flow.specs.Standing.{survey_of, stands};
ghost use Rattle.flow.specs.Ways.{any_below, takes_part};

use crate::standing::{Raised, Standing};
use crate::step::Step;

// What a search leaves.
#[derive(Clone, Copy)]
pub(crate) struct Search {
    // after how many rises the raised cell's column is reached, None where no way is left
    pub(crate) level: Option<usize>,
    // how each row and each column was reached, None where it was not; arrays for the largest table, as the flow takes no memory
    pub(crate) rows: [Option<Step>; 40],
    pub(crate) columns: [Option<Step>; 40],
}

// Whether this is a step of the round.
fn in_round(step: Option<Step>, round: usize) -> bool
    requires { round < 64 }
    ensures { result ≡ nat_eq (round_of step) round }
{
    step.is_some_and(|step| step.round == round)
}

impl Raised<'_> {
    // Reaches the rows in which a cell can rise, from the columns of this round; whether there is a new one. The loops go over
    // the numbers of columns and rows, which make the cell's number and are what a step keeps.
    fn reach_rows(
        &self,
        round: usize,
        columns: &[Option<Step>; 40],
        rows: &mut [Option<Step>; 40],
    ) -> bool
        requires soon { round < 40 }
        requires fresh { any_below (λ i. nat_eq (slice_index (rounds rows.old) i) (round + 1)) (survey_of self.now).rows ≡ false }
        ensures spread { Spread (λ k r. takes_part (survey_of self.now) self.now.pattern.now self.now.cell (r * (survey_of self.now).columns + k)) (λ k. nat_eq (slice_index (rounds columns.now) k) round) (survey_of self.now).columns (survey_of self.now).rows (round + 1) (rounds rows.old) (parents rows.old) (rounds rows.new) (parents rows.new) }
        ensures more { result ≡ any_below (λ i. nat_eq (slice_index (rounds rows.new) i) (round + 1)) (survey_of self.now).rows }
    {
        let mut more = false;
        for k in 0..self.table.survey().columns() {
            if in_round(columns[k], round) {
                for r in 0..self.table.survey().rows() {
                    if rows[r].is_none() && self.takes_part(self.place(r, k)) {
                        rows[r] = Some(Step {
                            round: round + 1,
                            from: k,
                        });
                        more = true;
                    }
                }
            }
        }
        more
    }
}

impl Standing<'_> {
    // Searches for a way with as few rises as can be, rows and columns by number, so that each is reached from the first one
    // that will do. It stops as soon as the raised cell's column is reached, or where a round reaches no new row: the loops over
    // the numbers of rows and columns are left from inside then, by their label.
    pub(crate) fn find_way(&self) -> Search
        requires { self.now.raised.cell < size (survey_of self.now.raised) }
        ensures { Searched (survey_of self.now.raised) self.now.raised.pattern.now self.now.raised.cell (stands self.now) result }
    {
        let survey = self.raised.table.survey();
        let cell = self.raised.cell;
        let mut search = Search {
            level: None,
            rows: [None; 40],
            columns: [None; 40],
        };
        search.rows[cell / survey.columns()] = Some(Step { round: 0, from: 0 });
        let mut round = 0;
        search.level = 'search: loop {
            for r in 0..survey.rows() {
                if in_round(search.rows[r], round) {
                    for k in 0..survey.columns() {
                        if search.columns[k].is_none() && self.can_fall(self.raised.place(r, k)) {
                            search.columns[k] = Some(Step { round, from: r });
                            if k == cell % survey.columns() {
                                break 'search Some(round);
                            }
                        }
                    }
                }
            }
            if !self
                .raised
                .reach_rows(round, &search.columns, &mut search.rows)
            {
                break None;
            }
            round += 1;
        };
        search
    }
}

// What is reached.
pub(crate) fn marks(steps: &[Option<Step>; 40]) -> [bool; 40]
    ensures long { length result ≡ 40 }
    ensures each { (i : ℕ) → i < 40 → slice_index_or result i false ≡ is_some (slice_index_or steps.now i None) }
{
    let mut marks = [false; 40];
    // by number: how far two zipped iterators have come has no name in a proof of the loop
    for (i, mark) in marks.iter_mut().enumerate() {
        *mark = steps[i].is_some();
    }
    marks
}
