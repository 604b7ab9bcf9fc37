// The survey: bytes to a checked survey, and its sums.
#![tactic(auto)]

ghost use Rattle.survey.specs.Promise.{AddsUp};

pub mod checked;
mod format;
pub mod reading;
pub mod refusal;
pub mod sums;
pub mod workshop;

// All rows together are all columns together, and both are the sum of all turnovers.
pub fn sums_add_up()
    ensures { AddsUp }
{}
