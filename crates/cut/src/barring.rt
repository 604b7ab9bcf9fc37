// Whether a cut bars a cell: checked with no search, row by row.
ghost use Rattle.std.specs.Prelude.{◌≡◌, ℕ, ◌<◌, true, false, MatchBool};
ghost use Rattle.survey.specs.Model.{model, size};
ghost use Rattle.survey.specs.Promise.{Bar, may_give, leaves};
ghost use Rattle.flow.specs.Closed.{Shut};
ghost use Rattle.cut.specs.Barring.{keeps, way_out, row_leaves};

use crate::finding::Cut;
use crate::judging::is_blank;
use sensitivity::table::Table;

// What a cell may give where another is raised: a blank cell of two workshops or more gives all but its largest.
fn may_give(table: &Table, pattern: &[bool], cell: usize, d: usize) -> u64
    ensures { result ≡ may_give (model table.now.survey) pattern.now cell d }
{
    if !is_blank(pattern, d) || d == cell {
        return 0;
    }
    let profile = table.profile(d);
    if profile.workshops < 2 {
        return 0;
    }
    profile.sum - profile.largest as u64
}

// Whether the cell in a row and a column keeps the marked columns shut: it lies in a marked row or in no marked column, is
// printed, or has one workshop or none.
fn keeps(table: &Table, pattern: &[bool], cut: &Cut, row: usize, column: usize) -> bool
    requires row { row < (model table.now.survey).rows }
    requires column { column < (model table.now.survey).columns }
    ensures { result ≡ keeps (model table.now.survey) pattern.now cut.now.rows cut.now.columns row column }
{
    let d = row * table.survey().columns() + column;
    cut.rows[row]
        || !cut.columns[column]
        || !is_blank(pattern, d)
        || table.profile(d).workshops <= 1
}

// Whether all cells of a row keep the marked columns shut. Those of a marked row do, so that they are not looked at.
fn row_keeps(table: &Table, pattern: &[bool], cut: &Cut, row: usize) -> bool
    requires { row < (model table.now.survey).rows }
    ensures { MatchBool result ((k : ℕ) → k < (model table.now.survey).columns → keeps (model table.now.survey) pattern.now cut.now.rows cut.now.columns row k ≡ true) ((k : ℕ) × (k < (model table.now.survey).columns) × (keeps (model table.now.survey) pattern.now cut.now.rows cut.now.columns row k ≡ false)) }
{
    cut.rows[row]
        || (0..table.survey().columns()).all(|column| keeps(table, pattern, cut, row, column))
}

// Whether no blank cell of two workshops or more lies in a marked column outside the marked rows.
fn is_shut(table: &Table, pattern: &[bool], cut: &Cut) -> bool
    ensures sound { result ≡ true → Shut (model table.now.survey) pattern.now cut.now.rows cut.now.columns }
    ensures whole { Shut (model table.now.survey) pattern.now cut.now.rows cut.now.columns → result ≡ true }
{
    (0..table.survey().rows()).all(|row| row_keeps(table, pattern, cut, row))
}

// What may leave by the cell in a row and a column: what it may give, where the row is marked and the column is not. Nothing
// ties what is asked for to one another, so that no struct would say more.
fn way_out(
    table: &Table,
    pattern: &[bool],
    cell: usize,
    cut: &Cut,
    row: usize,
    column: usize,
) -> u64
    requires row { row < (model table.now.survey).rows }
    requires column { column < (model table.now.survey).columns }
    ensures { result ≡ way_out (model table.now.survey) pattern.now cell cut.now.rows cut.now.columns row column }
{
    if cut.rows[row] && !cut.columns[column] {
        let d = row * table.survey().columns() + column;
        may_give(table, pattern, cell, d)
    } else {
        0
    }
}

// What may leave by the cells of a row.
fn row_leaving(table: &Table, pattern: &[bool], cell: usize, cut: &Cut, row: usize) -> u64
    requires { row < (model table.now.survey).rows }
    ensures { result ≡ row_leaves (model table.now.survey) pattern.now cell cut.now.rows cut.now.columns row }
{
    (0..table.survey().columns())
        .map(|column| way_out(table, pattern, cell, cut, row, column))
        .sum()
}

// What may leave the marked rows through cells outside the marked columns.
fn leaving(table: &Table, pattern: &[bool], cell: usize, cut: &Cut) -> u64
    ensures { result ≡ leaves (model table.now.survey) pattern.now cell cut.now.rows cut.now.columns }
{
    (0..table.survey().rows())
        .map(|row| row_leaving(table, pattern, cell, cut, row))
        .sum()
}

// Whether a cut bars a cell. One that lacks nothing, as each past the table, nothing bars.
pub fn is_bar(table: &Table, pattern: &[bool], cell: usize, cut: &Cut) -> bool
    ensures sound { result ≡ true → Bar (model table.now.survey) pattern.now cell cut.now.rows cut.now.columns }
    ensures whole { Bar (model table.now.survey) pattern.now cell cut.now.rows cut.now.columns → result ≡ true }
{
    let lacking = table.lack(cell);
    if lacking == 0 {
        return false;
    }
    let columns = table.survey().columns();
    if !cut.rows[cell / columns] || cut.columns[cell % columns] {
        return false;
    }
    if !is_shut(table, pattern, cut) {
        return false;
    }
    leaving(table, pattern, cell, cut) < lacking
}
