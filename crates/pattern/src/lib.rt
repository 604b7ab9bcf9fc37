// Patterns of blanks, and the promise that a pattern which protects makes a page safe.
#![tactic(auto)]

ghost use Rattle.survey.specs.Promise.{Guard, ByItself, MoreHidden};
ghost use Rattle.pattern.specs.Converse.{SafeUnprotected};

pub mod blanks;

// A protected page is safe: no workshop can tell of another that its turnover lies below p per cent above its own.
pub fn protected_is_safe()
    ensures { Guard }
{}

// A workshop of a cell that lacks nothing is open to every other one, though every cell is printed.
pub fn lacking_nothing_is_safe()
    ensures { ByItself }
{}

// Hiding more never harms.
pub fn hiding_more_never_harms()
    ensures { MoreHidden }
{}

// A page may be safe though it is not protected: protection asks more.
pub fn safe_may_be_unprotected()
    ensures { SafeUnprotected }
{}
