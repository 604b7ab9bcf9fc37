// Patterns of blanks: a lent slice with one entry for each cell of the table, true where the cell is blank. What is lent
// past the table's cells stays as it is.
ghost use Rattle.std.specs.List.{position};
ghost use Rattle.std.specs.Prelude.{◌≡◌, ℕ, ◌<◌, Bool, true, false, nat_lt};
ghost use Rattle.survey.specs.Lending.{Fills};
ghost use Rattle.survey.specs.Model.{model, size};
ghost use Rattle.survey.specs.Page.{need};
ghost use Rattle.survey.specs.declared.refusal.Lent.TheVariants as lent;
ghost use Rattle.survey.specs.declared.refusal.Refusal.TheVariants.{Short};
ghost use Rattle.pattern.specs.Blanks.{FromBytes, Marks};

use sensitivity::table::Table;
use survey::checked::Survey;
use survey::refusal::{Lent, Refusal};

// The place of the first byte that is neither 0 nor 1.
fn first_odd_byte(bytes: &[u8]) -> Option<usize>
    ensures { result ≡ position (λ b. nat_lt 1 b) bytes.now }
{
    bytes.iter().position(|byte| *byte > 1)
}

// Each cell of the table is blank where the rule says so, and else printed.
fn fill_cells<F: Fn(usize) -> bool>(
    survey: &Survey,
    pattern: &mut [bool],
    blank: F,
) -> Result<(), Refusal>
    requires { (d : ℕ) → d < size (model survey.now) → F.pre blank d }
    ensures { (rule : ℕ → Bool) → ((d : ℕ) (b : Bool) → d < size (model survey.now) → F.post blank d b → b ≡ rule d) → Fills false rule (size (model survey.now)) (Short lent.Pattern) pattern.old pattern.new result }
{
    let cells = survey.cells();
    if pattern.len() < cells {
        return Err(Refusal::Short(Lent::Pattern));
    }
    for (d, cell) in pattern[..cells].iter_mut().enumerate() {
        *cell = blank(d);
    }
    Ok(())
}

// The pattern that the bytes say, one for each cell: 1 for a blank and 0 for a printed cell.
pub fn from_bytes(survey: &Survey, bytes: &[u8], pattern: &mut [bool]) -> Result<(), Refusal>
    ensures { FromBytes (size (model survey.now)) bytes.now pattern.old pattern.new result }
{
    if bytes.len() != survey.cells() {
        return Err(Refusal::Pattern(bytes.len()));
    }
    if let Some(place) = first_odd_byte(bytes) {
        return Err(Refusal::Pattern(place));
    }
    fill_cells(survey, pattern, |d| bytes[d] == 1)
}

// The cells that lack something are blank, and no other.
pub fn blank_lacking(table: &Table, pattern: &mut [bool]) -> Result<(), Refusal>
    ensures { Fills false (λ d. nat_lt 0 (need (model table.now.survey) d)) (size (model table.now.survey)) (Short lent.Pattern) pattern.old pattern.new result }
{
    fill_cells(table.survey(), pattern, |d| table.lack(d) > 0)
}

// All cells are blank.
pub fn blank_all(survey: &Survey, pattern: &mut [bool]) -> Result<(), Refusal>
    ensures { Fills false (λ _. true) (size (model survey.now)) (Short lent.Pattern) pattern.old pattern.new result }
{
    fill_cells(survey, pattern, |_| true)
}

// One cell is blank or printed now; a cell past the table is in no pattern.
fn mark(survey: &Survey, cell: usize, blank: bool, pattern: &mut [bool]) -> Result<(), Refusal>
    ensures { Marks (size (model survey.now)) cell blank pattern.old pattern.new result }
{
    let cells = survey.cells();
    if pattern.len() < cells {
        return Err(Refusal::Short(Lent::Pattern));
    }
    if cell < cells {
        pattern[cell] = blank;
    }
    Ok(())
}

// One cell is made blank.
pub fn blank_cell(survey: &Survey, cell: usize, pattern: &mut [bool]) -> Result<(), Refusal>
    ensures { Marks (size (model survey.now)) cell true pattern.old pattern.new result }
{
    mark(survey, cell, true, pattern)
}

// One cell is printed.
pub fn print_cell(survey: &Survey, cell: usize, pattern: &mut [bool]) -> Result<(), Refusal>
    ensures { Marks (size (model survey.now)) cell false pattern.old pattern.new result }
{
    mark(survey, cell, false, pattern)
}
