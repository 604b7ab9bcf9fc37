// The page as text: one line a row, with a dash for each blank and the row's sum last; the sums of the columns on the
// last line, with the sum of all turnovers last.
ghost use Rattle.std.specs.Prelude.{◌≡◌, ℕ, ◌+◌, ◌*◌, ◌<◌, ◌≤◌, Bool, List, [], ◌∷◌, ◌++◌, length, Some, sum_by, string_bytes, decimal};
ghost use Rattle.std.specs.Iterator.{Drains, HoldsAlong, IsFinite};
ghost use Rattle.survey.specs.Model.{model, size};
ghost use Rattle.survey.specs.Page.{true_sum};
ghost use Rattle.survey.specs.Survey.{row_sum, column_sum, sum_of_all};
ghost use Rattle.publication.specs.Text.{entry, row_line, sums_line, page_text};
ghost use Rattle.publication.specs.Written.{Published};

use crate::page::Page;
use sensitivity::table::Table;
use std::alloc::Global;
use std::fmt;
use survey::refusal::Refusal;

// Adds up these cells, forty at most: a line of the table has no more.
fn sum_of<I: Iterator<Item = usize> + Drop>(table: &Table, cells: I) -> u64
    requires can { I.can_next cells }
    requires ends { IsFinite (I.remaining cells) }
    requires few { HoldsAlong I.next_gives cells (λ ds. length ds ≤ 40) }
    ensures { (ds : List ℕ) × Drains I.next_gives cells ds × (result ≡ sum_by (true_sum (model table.now.survey)) ds) }
{
    cells.map(|cell| table.profile(cell).sum).sum()
}

// Adds up the cells of a row: the survey's own sum of it goes through all workshops.
fn row_sum(table: &Table, row: usize) -> u64
    requires { row < (model table.now.survey).rows }
    ensures { result ≡ row_sum (model table.now.survey).columns (model table.now.survey).cells (model table.now.survey).values row }
{
    let columns = table.survey().columns();
    sum_of(table, (0..columns).map(|k| row * columns + k))
}

// Adds up the cells of a column.
fn column_sum(table: &Table, column: usize) -> u64
    requires { column < (model table.now.survey).columns }
    ensures { result ≡ column_sum (model table.now.survey).columns (model table.now.survey).cells (model table.now.survey).values column }
{
    let columns = table.survey().columns();
    let rows = table.survey().rows();
    sum_of(table, (0..rows).map(|r| r * columns + column))
}

// What stands for a cell: a dash where it is blank, else its sum.
#[derive(Clone, Copy)]
struct Entry<'a> {
    page: Page<'a>,
    cell: usize,
    ghost inside: { cell < size (model page.table.now.survey) },
}

// The line of a row: its cells, and its sum last.
#[derive(Clone, Copy)]
struct Row<'a> {
    page: Page<'a>,
    row: usize,
    ghost inside: { row < (model page.table.now.survey).rows },
}

// The last line: the sums of the columns, and the sum of all turnovers last.
#[derive(Clone, Copy)]
struct Sums<'a>(&'a Table);

#[tactic(auto, unfolding(crate::specs::Text::entry))]
impl fmt::Display for Entry<'_> {
    ghost output = { λ e. Some (entry (model e.page.table.now.survey) e.page.pattern.now e.cell) };

    fn fmt<W: fmt::Write>(&self, f: &mut fmt::Formatter<W>) -> fmt::Result {
        if self.page.pattern[self.cell] {
            write!(f, "-")
        } else {
            write!(f, "{}", self.page.table.profile(self.cell).sum)
        }
    }
}

#[tactic(auto, unfolding(crate::specs::Text::row_text, crate::specs::Text::row_line))]
impl fmt::Display for Row<'_> {
    ghost output = { λ r. Some (row_line (model r.page.table.now.survey) r.page.pattern.now r.row) };

    fn fmt<W: fmt::Write>(&self, f: &mut fmt::Formatter<W>) -> fmt::Result {
        // the numbers of row and column make the cell's number
        let page = self.page;
        let columns = page.table.survey().columns();
        for k in 0..columns {
            let cell = self.row * columns + k;
            write!(f, "{} ", Entry { page, cell })?;
        }
        writeln!(f, "{}", row_sum(page.table, self.row))
    }
}

#[tactic(auto, unfolding(crate::specs::Text::column_text, crate::specs::Text::sums_line))]
impl fmt::Display for Sums<'_> {
    ghost output = { λ s. Some (sums_line (model s.0.now.survey)) };

    fn fmt<W: fmt::Write>(&self, f: &mut fmt::Formatter<W>) -> fmt::Result {
        let survey = self.0.survey();
        for column in 0..survey.columns() {
            write!(f, "{} ", column_sum(self.0, column))?;
        }
        writeln!(f, "{}", survey.total())
    }
}

#[tactic(auto, unfolding(crate::specs::Text::row_lines, crate::specs::Text::page_text))]
impl fmt::Display for Page<'_> {
    ghost output = { λ p. Some (page_text (model p.table.now.survey) p.pattern.now) };

    fn fmt<W: fmt::Write>(&self, f: &mut fmt::Formatter<W>) -> fmt::Result {
        for row in 0..self.table.survey().rows() {
            write!(f, "{}", Row { page: *self, row })?;
        }
        write!(f, "{}", Sums(self.table))
    }
}

// The text of the page with these blanks. A pattern with fewer entries than the table has cells is refused.
pub fn page_text(heap: Global, table: &Table, pattern: &[bool]) -> Result<String, Refusal>
    ensures { Published (model table.now.survey) pattern.now result }
{
    let page = Page::new(table, pattern)?;
    Ok(page.to_string(heap)?)
}
