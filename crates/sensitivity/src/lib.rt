// Sensitivity: the two largest workshops of each cell, how many there are, and what a cell lacks.
#![tactic(auto)]

ghost use Rattle.survey.specs.Promise.{TwoLargest};

pub mod profile;
pub mod table;
pub mod tally;

// No two workshops of a cell have more together than its two largest, and these two are there.
pub fn two_largest_stand()
    ensures { TwoLargest }
{}
