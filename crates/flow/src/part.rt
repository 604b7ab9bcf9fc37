// Which cells take part where a cell is raised, and which of them can fall.
ghost use Rattle.std.specs.Prelude.{◌≡◌, ◌+◌, ◌*◌, ◌<◌};
ghost use Rattle.survey.specs.Model.{size};
ghost use Rattle.flow.specs.Standing.{survey_of, stands};
ghost use Rattle.flow.specs.Ways.{takes_part, spare, can_fall};

use crate::standing::{Raised, Standing};

impl Raised<'_> {
    // The number of the cell in a row and a column.
    pub(crate) fn place(&self, row: usize, column: usize) -> usize
        requires row { row < (survey_of self.now).rows }
        requires column { column < (survey_of self.now).columns }
        ensures value { result ≡ row * (survey_of self.now).columns + column }
        ensures inside { result < size (survey_of self.now) }
    {
        row * self.table.survey().columns() + column
    }

    // Whether a cell takes part: a hidden one of two workshops or more, other than the raised one. Most cells are printed,
    // so the pattern is asked first.
    pub(crate) fn takes_part(&self, d: usize) -> bool
        requires { d < size (survey_of self.now) }
        ensures { result ≡ takes_part (survey_of self.now) self.now.pattern.now self.now.cell d }
    {
        if !self.pattern[d] || d == self.cell {
            return false;
        }
        self.table.profile(d).workshops > 1
    }
}

impl Standing<'_> {
    // The sum of a cell as it stands.
    pub(crate) fn sum(&self, d: usize) -> u64
        requires { d < size (survey_of self.now.raised) }
        ensures { result ≡ stands self.now d }
    {
        self.sums[d] + self.rises[d] - self.falls[d]
    }

    // How far a cell stands above its largest workshop; 0 for one that stands below it.
    pub(crate) fn spare(&self, d: usize) -> u64
        requires { d < size (survey_of self.now.raised) }
        ensures { result ≡ spare (survey_of self.now.raised) (stands self.now) d }
    {
        self.sum(d)
            .saturating_sub(self.raised.table.profile(d).largest as u64)
    }

    // Whether a cell can fall: it takes part and has something to spare.
    pub(crate) fn can_fall(&self, d: usize) -> bool
        requires { d < size (survey_of self.now.raised) }
        ensures { result ≡ can_fall (survey_of self.now.raised) self.now.raised.pattern.now self.now.raised.cell (stands self.now) d }
    {
        self.raised.takes_part(d) && self.spare(d) > 0
    }
}
