// The auditor: whether a pattern protects, and where it does not, the first cell that shows it; that there is one answer at
// most; and the line that is printed of it.
ghost use Rattle.std.specs.Prelude.{ℕ, ◌<◌, Bool};
ghost use Rattle.survey.specs.Model.{model, size};
ghost use Rattle.cut.specs.Scratched.{Roomy};
ghost use Rattle.publication.specs.Audit.{protected, printed, barred, answer, Audited, OneAnswer, PrintedOpen, BarredByBar};
ghost use Rattle.publication.specs.Auditing.{Judged, Auditing};
ghost use Rattle.publication.specs.Written.{Told};

use crate::audited::{Audit, Bar};
use crate::page::Page;
use cut::finding::Finding;
use cut::scratch::Scratch;
use sensitivity::table::Table;
use std::alloc::Global;
use survey::refusal::Refusal;

// An audit has one answer at most.
pub fn audit_has_one_answer()
    ensures { OneAnswer }
{}

// A printed cell that lacks something has no witness.
pub fn printed_is_open()
    ensures { PrintedOpen }
{}

// The rows and columns of the answer are a bar.
pub fn barred_has_a_bar()
    ensures { BarredByBar }
{}

// The line that is printed where the pattern protects.
pub fn protected_line(heap: Global) -> Result<String, Refusal>
    ensures { Told protected result }
{
    Ok(Audit::Protected.to_string(heap)?)
}

// The line that is printed of an open cell that is printed.
pub fn printed_line(heap: Global, cell: usize) -> Result<String, Refusal>
    ensures { Told (printed cell) result }
{
    Ok(Audit::Printed(cell).to_string(heap)?)
}

// The line that is printed of an open cell that is blank, with the rows and columns that bar it.
pub fn barred_line(
    heap: Global,
    cell: usize,
    rows: &[bool],
    columns: &[bool],
) -> Result<String, Refusal>
    ensures { Told (barred cell rows.now columns.now) result }
{
    let bar = Bar {
        cell,
        rows,
        columns,
    };
    Ok(bar.to_string(heap)?)
}

// The line that is printed of the answer.
pub fn audit_line(heap: Global, audit: &Audit) -> Result<String, Refusal>
    ensures { Told (answer audit.now) result }
{
    Ok(audit.to_string(heap)?)
}

impl Page<'_> {
    // Judges one cell. One that lacks nothing needs no witness, so none is looked for.
    fn judge(&self, cell: usize, scratch: &mut Scratch) -> Finding
        requires roomy { Roomy (size (model self.now.table.now.survey)) scratch.old }
        requires inside { cell < size (model self.now.table.now.survey) }
        ensures room { Roomy (size (model self.now.table.now.survey)) scratch.new }
        ensures judged { Judged (model self.now.table.now.survey) self.now.pattern.now cell result }
    {
        if self.table.lack(cell) == 0 {
            return Finding::Shown;
        }
        // there is memory for all cells
        let Ok(finding) = scratch.judge(self.table, self.pattern, cell) else {
            unreachable()
        };
        finding
    }

    // Judges cell after cell, up to the first that is open: a loop, since a closure would have
    // to change the memory that each is judged in.
    #[tactic(auto, using(crate::proofs::Auditing::audited))]
    fn first_open(&self, scratch: &mut Scratch) -> Audit
        requires { Roomy (size (model self.now.table.now.survey)) scratch.old }
        ensures { Audited (model self.now.table.now.survey) self.now.pattern.now (answer result) }
    {
        for cell in 0..self.table.survey().cells() {
            match self.judge(cell, scratch) {
                Finding::Shown => {}
                Finding::Barred(cut) => return Audit::Barred(cell, cut),
                Finding::Printed => return Audit::Printed(cell),
            }
        }
        Audit::Protected
    }
}

// The audit of a pattern: whether it protects, or the first cell that is open. A pattern with fewer entries than the table
// has cells is refused.
pub fn audit(heap: Global, table: &Table, pattern: &[bool]) -> Result<Audit, Refusal>
    ensures { Auditing (model table.now.survey) pattern.now result }
{
    let page = Page::new(table, pattern)?;
    let mut scratch = Scratch::new(heap, table.survey().cells())?;
    Ok(page.first_open(&mut scratch))
}
