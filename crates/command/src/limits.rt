// Which surveys a program serves.
ghost use Rattle.std.specs.Prelude.{◌≡◌, true, MatchResult};
ghost use Rattle.survey.specs.Model.{model};
ghost use Rattle.survey.specs.Reading.{Reads};
ghost use Rattle.command.specs.Limits.{is_small, serves, serving, TurnedAway};

use std::alloc::Global;
use survey::checked::Survey;
use survey::reading::read;
use survey::refusal::{Lent, Refusal};

// Whether the survey is small enough to be served always.
fn small(checked: &Survey) -> bool
    ensures { result ≡ is_small (model checked.now) }
{
    checked.cells() <= 64 && checked.workshops().len() <= 2000
}

// Nothing where the survey is served: a large one only where the call asks for it, since it takes long.
pub fn served(checked: &Survey, full: bool) -> Result<(), Refusal>
    ensures { result ≡ serving (serves full (model checked.now)) }
{
    if full || small(checked) {
        Ok(())
    } else {
        Err(Refusal::Short(Lent::Sums))
    }
}

// The survey that the bytes say, where it is taken and served; every other refusal comes before the limit's.
pub fn admitted(heap: Global, bytes: &[u8], full: bool) -> Result<Survey, Refusal>
    ensures { MatchResult result (λ s. Reads bytes.now s × (serves full (model s) ≡ true)) (λ e. TurnedAway bytes.now full e) }
{
    let checked = read(heap, bytes)?;
    served(&checked, full)?;
    Ok(checked)
}
