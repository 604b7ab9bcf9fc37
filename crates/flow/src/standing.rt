// One cell that is to be raised, and how the cells stand while it is.
ghost use Rattle.std.specs.Prelude.{◌≤◌, length};
ghost use Rattle.survey.specs.Model.{model, size};
ghost use Rattle.flow.specs.Afoot.{Afoot};

use sensitivity::table::Table;

// The cell that is to be raised, in a table with a pattern of blanks.
#[derive(Clone, Copy)]
pub(crate) struct Raised<'a> {
    pub(crate) table: &'a Table,
    pub(crate) pattern: &'a [bool],
    pub(crate) cell: usize,
    ghost long: { size (model table.now.survey) ≤ length pattern.now },
}

// How the cells stand: the survey's sums, and what each cell fell and rose so far.
#[derive(Clone, Copy)]
pub(crate) struct Standing<'a> {
    pub(crate) raised: Raised<'a>,
    pub(crate) sums: &'a [u64],
    pub(crate) falls: &'a [u64],
    pub(crate) rises: &'a [u64],
    ghost afoot: { Afoot (model raised.table.now.survey) raised.pattern.now sums.now falls.now rises.now },
}
