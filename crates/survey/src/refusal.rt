// Why a survey or a pattern is turned away. Each case has a number and a place, which specs/Refused.antt gives.
ghost use Rattle.std.specs.Prelude.{◌≡◌, Some};
ghost use Rattle.survey.specs.declared.refusal.Refusal.TheVariants.{Memory};
ghost use Rattle.survey.specs.Refused.{number_of, place_of, told};

use std::alloc::{AllocError, AllocFailed};
use std::fmt;

// The side of the table that has too few or too many lines.
#[derive(Clone, Copy, Debug, PartialEq, Eq)]
pub enum Side {
    Rows,
    Columns,
}

// Which lent memory is too short.
#[derive(Clone, Copy, Debug, PartialEq, Eq)]
pub enum Lent {
    Sums,
    Flow,
    Pattern,
}

#[derive(Clone, Copy, Debug, PartialEq, Eq)]
pub enum Refusal {
    // the table has no line on this side, or more than forty
    Dimension(Side),
    // the percentage is 0 or above 100
    Percentage,
    // there are more than 20,000 workshops
    TooMany,
    // the survey's bytes are not as many as its head says, or fewer than the head has; here is how many there are
    Length(usize),
    // this workshop's cell is not in the table
    Cell(usize),
    // this workshop's turnover is above 1,000,000,000
    Turnover(usize),
    // the pattern is not one byte for each cell, or this byte of it is neither 0 nor 1
    Pattern(usize),
    // lent memory is too short
    Short(Lent),
    // this cell is not protected though all cells are blank
    Unprotected(usize),
    // no memory was to be had
    Memory,
}

impl Refusal {
    pub fn number(&self) -> usize
        ensures { result ≡ number_of self.now }
    {
        match self {
            Refusal::Dimension(_) => 1,
            Refusal::Percentage => 2,
            Refusal::TooMany => 3,
            Refusal::Length(_) => 4,
            Refusal::Cell(_) => 5,
            Refusal::Turnover(_) => 6,
            Refusal::Pattern(_) => 7,
            Refusal::Short(_) => 8,
            Refusal::Unprotected(_) => 9,
            Refusal::Memory => 10,
        }
    }

    pub fn place(&self) -> usize
        ensures { result ≡ place_of self.now }
    {
        match self {
            Refusal::Dimension(Side::Rows) => 0,
            Refusal::Dimension(Side::Columns) => 1,
            Refusal::Percentage => 2,
            Refusal::TooMany => 3,
            Refusal::Length(bytes) => *bytes,
            Refusal::Cell(workshop) => *workshop,
            Refusal::Turnover(workshop) => *workshop,
            Refusal::Pattern(place) => *place,
            Refusal::Short(Lent::Sums) => 0,
            Refusal::Short(Lent::Flow) => 1,
            Refusal::Short(Lent::Pattern) => 2,
            Refusal::Unprotected(cell) => *cell,
            Refusal::Memory => 0,
        }
    }
}

impl fmt::Display for Refusal {
    ghost output = { λ e. Some (told e) };

    fn fmt<W: fmt::Write>(&self, f: &mut fmt::Formatter<W>) -> fmt::Result {
        let number = self.number();
        let place = self.place();
        write!(f, "refused {number} at {place}")
    }
}

impl From<AllocError> for Refusal {
    ghost from_gives = { λ _ r. r ≡ Memory };

    fn from(_e: AllocError) -> Refusal {
        Refusal::Memory
    }
}

impl<T: Drop> From<AllocFailed<T>> for Refusal {
    ghost from_gives = { λ _ r. r ≡ Memory };

    fn from(_e: AllocFailed<T>) -> Refusal {
        Refusal::Memory
    }
}
