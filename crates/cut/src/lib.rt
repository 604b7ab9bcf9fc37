// Cuts: what shows that a cell is not protected, and the witness that shows that it is.
#![tactic(auto)]

ghost use Rattle.survey.specs.Promise.{BarLaw, OneOrOther};
ghost use Rattle.cut.specs.Least.{OneCut};

pub mod barring;
pub mod finding;
pub mod judging;
pub mod scratch;

// A bar shows that there is no witness
pub fn bar_shows_no_witness()
    ensures { BarLaw }
{}

// For a blank cell that lacks something there is a witness or a bar
pub fn witness_or_bar()
    ensures { OneOrOther }
{}

// Within the table there is one least cut at most, so that the cut that is answered is pinned.
pub fn least_cut_is_one()
    ensures { OneCut }
{}
