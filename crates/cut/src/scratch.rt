// Memory of its own for who judges one cell after another and lends none.
ghost use Rattle.std.specs.Prelude.{ℕ, IfOk};
ghost use Rattle.survey.specs.Model.{model};
ghost use Rattle.cut.specs.Finding.{Finds};
ghost use Rattle.cut.specs.Scratched.{Cleared, Roomy};

use crate::finding::Finding;
use crate::judging::witness_or_cut;
use sensitivity::table::Table;
use std::alloc::{AllocError, Global};
use survey::refusal::Refusal;

// The survey's sums, what each cell fell and rose, and the witness's sums: one entry for each cell, and a list for each, since
// they are lent to the flow as slices of their own.
#[derive(Drop)]
pub struct Scratch {
    pub sums: Vec<u64>,
    pub falls: Vec<u64>,
    pub rises: Vec<u64>,
    pub witness: Vec<u64>,
}

impl Scratch {
    // Memory for so many cells, all of it clear.
    pub fn new(heap: Global, cells: usize) -> Result<Scratch, AllocError>
        ensures { IfOk result (λ x. Cleared cells x) }
    {
        Ok(Scratch {
            sums: vec![in heap; 0; cells]?,
            falls: vec![in heap; 0; cells]?,
            rises: vec![in heap; 0; cells]?,
            witness: vec![in heap; 0; cells]?,
        })
    }

    // Judges a cell in this memory. It is refused as lent memory is where it is too short.
    pub fn judge(
        &mut self,
        table: &Table,
        pattern: &[bool],
        cell: usize,
    ) -> Result<Finding, Refusal>
        ensures found { Finds (model table.now.survey) pattern.now cell self.old.sums.items self.old.falls.items self.old.rises.items self.old.witness.items self.new.sums.items self.new.falls.items self.new.rises.items self.new.witness.items result }
        ensures room { (n : ℕ) → Roomy n self.old → Roomy n self.new }
    {
        witness_or_cut(
            table,
            pattern,
            cell,
            &mut self.sums,
            &mut self.falls,
            &mut self.rises,
            &mut self.witness,
        )
    }
}
