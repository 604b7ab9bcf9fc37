// What a way that was found can carry, and the walk back along it that carries so much.
ghost use Rattle.std.specs.Prelude.{◌≡◌, ◌^◌, ◌<◌, Some, slice_index};
ghost use Rattle.flow.specs.Afoot.{Afoot};
ghost use Rattle.flow.specs.Searching.{parents, Searched};
ghost use Rattle.flow.specs.Standing.{survey_of, stands};
ghost use Rattle.flow.specs.Ways.{standing, carried, next_falls, next_rises};

use crate::search::Search;
use crate::standing::{Raised, Standing};
use crate::step::Step;

// Where a row or column was reached from. What is not reached has no such place: nobody asks for it.
fn parent(steps: &[Option<Step>; 40], i: usize) -> usize
    requires { i < 40 }
    ensures { result ≡ slice_index (parents steps.now) i }
{
    steps[i].map_or(0, |step| step.from)
}

impl Standing<'_> {
    // The least that a falling cell of the way has to spare, up to what is lacking.
    fn room(&self, search: &Search, level: usize, lacking: u64) -> u64
        requires searched { Searched (survey_of self.now.raised) self.now.raised.pattern.now self.now.raised.cell (stands self.now) search.now }
        requires found { search.now.level ≡ Some level }
        ensures { result ≡ carried (survey_of self.now.raised) self.now.raised.pattern.now self.now.raised.cell (stands self.now) lacking }
    {
        let mut most = lacking;
        let mut k = self.raised.cell % self.raised.table.survey().columns();
        for _ in 0..level {
            let r = parent(&search.columns, k);
            most = most.min(self.spare(self.raised.place(r, k)));
            k = parent(&search.rows, r);
        }
        most.min(self.spare(self.raised.place(parent(&search.columns, k), k)))
    }
}

impl Raised<'_> {
    // Carries as much as the way can, up to what is lacking: from the raised cell's column back to its row, a cell falls in
    // each row on the way, and its neighbour in the column before rises by the same. Says how much that was. What is lent comes
    // apart from the cell, since it is written here.
    pub(crate) fn carry(
        &self,
        sums: &[u64],
        falls: &mut [u64],
        rises: &mut [u64],
        search: &Search,
        level: usize,
        lacking: u64,
    ) -> u64
        requires afoot { Afoot (survey_of self.now) self.now.pattern.now sums.now falls.old rises.old }
        requires searched { Searched (survey_of self.now) self.now.pattern.now self.now.cell (standing (survey_of self.now) falls.old rises.old) search.now }
        requires found { search.now.level ≡ Some level }
        requires small { lacking < 2 ^ 62 }
        ensures amount { result ≡ carried (survey_of self.now) self.now.pattern.now self.now.cell (standing (survey_of self.now) falls.old rises.old) lacking }
        ensures falls { falls.new ≡ next_falls (survey_of self.now) self.now.pattern.now self.now.cell (standing (survey_of self.now) falls.old rises.old) lacking falls.old }
        ensures rises { rises.new ≡ next_rises (survey_of self.now) self.now.pattern.now self.now.cell (standing (survey_of self.now) falls.old rises.old) lacking rises.old }
    {
        let standing = Standing {
            raised: *self,
            sums,
            falls,
            rises,
        };
        let amount = standing.room(search, level, lacking);
        let mut k = self.cell % self.table.survey().columns();
        for _ in 0..level {
            let r = parent(&search.columns, k);
            falls[self.place(r, k)] += amount;
            k = parent(&search.rows, r);
            rises[self.place(r, k)] += amount;
        }
        falls[self.place(parent(&search.columns, k), k)] += amount;
        amount
    }
}
