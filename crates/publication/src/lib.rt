// The published page as text, and what its reader can tell.
#![tactic(auto)]

ghost use Rattle.publication.specs.Example.{Example};
ghost use Rattle.publication.specs.Worlds.{SameText};

pub mod audit;
pub mod audited;
mod page;
pub mod publishing;
pub mod text;

// Turnovers that keep the sums and the printed cells give the same text, and so a safe page's text is safe.
pub fn same_text()
    ensures { SameText }
{}

// One page and two lines of an audit, to the letter.
pub fn example_stands()
    ensures { Example }
{}
