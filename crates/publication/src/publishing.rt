// From a survey to its page: the search for the blanks, and the text.
ghost use Rattle.survey.specs.Model.{model};
ghost use Rattle.publication.specs.Publishing.{Publishes};

use crate::text::page_text;
use search::searching::search;
use sensitivity::table::Table;
use std::alloc::Global;
use survey::refusal::Refusal;

// The text of the survey's page with the blanks that the rule gives, or why there is none.
pub fn publish(heap: Global, table: &Table) -> Result<String, Refusal>
    ensures { Publishes (model table.now.survey) result }
{
    let mut pattern = vec![in heap; false; table.survey().cells()]?;
    search(heap, table, &mut pattern)?;
    page_text(heap, table, &pattern)
}
