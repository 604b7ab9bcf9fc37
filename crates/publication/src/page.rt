// A table with the pattern of its page.
ghost use Rattle.std.specs.Prelude.{◌≡◌, ◌<◌, ◌≤◌, length, IfOk, IfErr};
ghost use Rattle.survey.specs.Model.{model, size};

use sensitivity::table::Table;
use survey::refusal::{Lent, Refusal};

// The pattern has an entry for each cell at least, so that nobody asks it again.
#[derive(Clone, Copy)]
pub(crate) struct Page<'a> {
    pub(crate) table: &'a Table,
    pub(crate) pattern: &'a [bool],
    ghost enough: { size (model table.now.survey) ≤ length pattern.now },
}

impl<'a> Page<'a> {
    // A pattern with fewer entries than the table has cells is refused.
    pub(crate) fn new(table: &'a Table, pattern: &'a [bool]) -> Result<Page<'a>, Refusal>
        ensures page { IfOk result (λ page. (page.table.now ≡ table.now) × (page.pattern.now ≡ pattern.now)) }
        ensures short { IfErr result (λ e. (length pattern.now < size (model table.now.survey)) × (e ≡ Refusal.Short Lent.Pattern)) }
    {
        if pattern.len() < table.survey().cells() {
            return Err(Refusal::Short(Lent::Pattern));
        }
        Ok(Page { table, pattern })
    }
}
