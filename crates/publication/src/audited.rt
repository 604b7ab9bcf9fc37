// The auditor's answer, and how it is printed.
ghost use Rattle.std.specs.Prelude.{Bool, length, Some};
ghost use Rattle.publication.specs.Audit.{barred, numbered, answer, audit_line};

use cut::finding::Cut;
use std::fmt;

// Stands for specs/Audit.antt's Answer.
#[derive(Clone, Copy, Debug)]
pub enum Audit {
    // each cell that lacks something has a witness
    Protected,
    // this cell is the first that has none, and it is printed
    Printed(usize),
    // this cell is the first that has none; it is blank, and the cut shows that there is none
    Barred(usize, Cut),
}

// An open cell that is blank, with the marks of the rows and columns that bar it.
#[derive(Clone, Copy)]
pub(crate) struct Bar<'a> {
    pub(crate) cell: usize,
    pub(crate) rows: &'a [bool],
    pub(crate) columns: &'a [bool],
}

// The numbers of those that are marked, each after a space.
#[derive(Clone, Copy)]
struct Numbers<'a>(&'a [bool]);

#[tactic(auto, unfolding(crate::specs::Audit::numbered))]
impl fmt::Display for Numbers<'_> {
    ghost output = { λ marks. Some (numbered marks.0.now (length marks.0.now)) };

    fn fmt<W: fmt::Write>(&self, f: &mut fmt::Formatter<W>) -> fmt::Result {
        for (number, mark) in self.0.iter().enumerate() {
            if *mark {
                write!(f, " {number}")?;
            }
        }
        Ok(())
    }
}

impl fmt::Display for Bar<'_> {
    ghost output = { λ bar. Some (audit_line (barred bar.cell bar.rows.now bar.columns.now)) };

    fn fmt<W: fmt::Write>(&self, f: &mut fmt::Formatter<W>) -> fmt::Result {
        let cell = self.cell;
        let rows = Numbers(self.rows);
        let columns = Numbers(self.columns);
        write!(f, "open {cell} rows{rows} columns{columns}")
    }
}

impl fmt::Display for Audit {
    ghost output = { λ audit. Some (audit_line (answer audit)) };

    fn fmt<W: fmt::Write>(&self, f: &mut fmt::Formatter<W>) -> fmt::Result {
        match self {
            Audit::Protected => write!(f, "protected"),
            Audit::Printed(cell) => write!(f, "open {cell} printed"),
            Audit::Barred(cell, cut) => {
                let bar = Bar {
                    cell: *cell,
                    rows: &cut.rows,
                    columns: &cut.columns,
                };
                write!(f, "{bar}")
            }
        }
    }
}
