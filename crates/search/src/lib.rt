// The search for a pattern of blanks, and what its outcome is worth.
#![tactic(auto)]

ghost use Rattle.search.specs.Search.{OneOutcome, SomeOutcome, SearchedRight, SearchedSafe};
ghost use Rattle.search.specs.Examples.{WorkedExamples};

mod lacking;
mod looking;
mod moves;
mod ranking;
pub mod searching;
mod trials;

// A search has one outcome at most.
pub fn search_has_one_outcome()
    ensures { OneOutcome }
{}

// Every survey in order has an outcome: the rule leaves none without.
pub fn search_has_an_outcome()
    ensures { SomeOutcome }
{}

// The search's outcome is right: a pattern that protects with no blank in vain, or a cell that no pattern protects.
pub fn searched_is_right()
    ensures { SearchedRight }
{}

// Where the search finds a pattern, no workshop can tell of another that its turnover lies below p per cent above its own.
pub fn searched_page_is_safe()
    ensures { SearchedSafe }
{}

// Five small surveys worked by hand have these outcomes.
pub fn worked_examples_stand()
    ensures { WorkedExamples }
{}
