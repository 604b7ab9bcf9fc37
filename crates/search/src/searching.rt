// The search for a pattern: the cells that lack something blank, and with them as few others as the rule gives.
ghost use Rattle.std.specs.Prelude.{MatchResult};
ghost use Rattle.survey.specs.Model.{model};
ghost use Rattle.search.specs.Outcomes.{Stops, Searching};
ghost use Rattle.search.specs.Search.{Finds};

use crate::ranking::in_order;
use crate::trials::Trial;
use sensitivity::table::Table;
use std::alloc::Global;
use survey::refusal::{Lent, Refusal};

// The blanks of the table in memory of its own, or the refusal.
fn find(heap: Global, table: &Table) -> Result<Vec<bool>, Refusal>
    ensures { MatchResult result (λ v. Finds (model table.now.survey) v.items) (λ e. Stops (model table.now.survey) e) }
{
    let order = in_order(heap, table)?;
    let mut trial = Trial::new(heap, table)?;
    let k = trial.blank_enough(&order);
    trial.print_back(&order, k);
    Ok(trial.into_pattern())
}

// The search: writes the pattern that the rule gives into the memory lent, or refuses and changes nothing.
pub fn search(heap: Global, table: &Table, pattern: &mut [bool]) -> Result<(), Refusal>
    ensures { Searching (model table.now.survey) pattern.old pattern.new result }
{
    if pattern.len() < table.survey().cells() {
        return Err(Refusal::Short(Lent::Pattern));
    }
    let found = find(heap, table)?;
    pattern[..found.len()].copy_from_slice(&found);
    Ok(())
}
