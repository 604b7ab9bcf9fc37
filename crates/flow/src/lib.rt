// Raising a cell: the ways on which it can rise while the page stays the same, taken one after another.
#![tactic(auto)]

ghost use Rattle.flow.specs.Ways.{OneRun};

mod lent;
mod part;
pub mod raising;
mod search;
mod standing;
mod step;
mod way;

// A run of ways has one result at most, so that what `raise` leaves is pinned.
pub fn a_run_has_one_result()
    ensures { OneRun }
{}
