// What the search tries, step by step: all cells blank, as many blank as it takes, and what can be printed again.
ghost use Rattle.std.specs.Prelude.{◌≡◌, ℕ, ◌<◌, ◌≤◌, true, false, [], length, take, MatchBool, MatchResult, slice_set};
ghost use Rattle.survey.specs.Model.{model, size};
ghost use Rattle.survey.specs.Page.{need, Protected};
ghost use Rattle.survey.specs.Promise.{all_hidden};
ghost use Rattle.cut.specs.Scratched.{Roomy};
ghost use Rattle.search.specs.Lacking.{AllKnown, cells_lacking, lacking_cells};
ghost use Rattle.search.specs.Outcomes.{Stops};
ghost use Rattle.search.specs.Ranking.{cells_of};
ghost use Rattle.search.specs.Search.{InOrder, LeastEnough, PrintedBack, Refuses, blanked};
ghost use Rattle.search.specs.Trials.{Begins};

use crate::lacking::{Lacking, lacking_cells};
use crate::looking::look;
use crate::ranking::Ranked;
use cut::scratch::Scratch;
use pattern::blanks::blank_lacking;
use sensitivity::table::Table;
use std::alloc::Global;
use std::marker::Model;
use survey::refusal::Refusal;

// Refuses the first cell that lacks something and is not protected with all cells blank.
fn first_open(
    table: &Table,
    lacking: &[Lacking],
    pattern: &[bool],
    scratch: &mut Scratch,
) -> Result<(), Refusal>
    requires roomy { Roomy (size (model table.now.survey)) scratch.old }
    requires listed { cells_lacking lacking.now ≡ lacking_cells (model table.now.survey) }
    requires blank { pattern.now ≡ all_hidden (size (model table.now.survey)) }
    ensures room { Roomy (size (model table.now.survey)) scratch.new }
    ensures found { MatchResult result (λ _. Protected (model table.now.survey) (all_hidden (size (model table.now.survey)))) (λ e. (c : ℕ) × (e ≡ Refusal.Unprotected c) × Refuses (model table.now.survey) c) }
{
    for lack in lacking {
        if look(table, pattern, lack.cell, scratch).is_none() {
            return Err(Refusal::Unprotected(lack.cell));
        }
    }
    Ok(())
}

// A pattern that is tried on a table, and what is known of the cells that lack something.
#[derive(Drop)]
pub(crate) struct Trial<'a> {
    table: &'a Table,
    pattern: Vec<bool>,
    lacking: Vec<Lacking>,
    scratch: Scratch,
}

impl<'a> Model for Trial<'a> {
    ghost use Rattle.survey.specs.Model.{model};
    ghost use Rattle.search.specs.Trials.{Tried, Tries};

    ghost Value = { Tried };

    ghost view = { λ t. record { survey = model t.table.now.survey; pattern = t.pattern.items; lacking = t.lacking.items } };

    ghost invariant = { λ t. Tries (model t.table.now.survey) t.pattern.items t.lacking.items t.scratch };
}

impl<'a> Trial<'a> {
    // The cells that lack something blank, and no other; or the refusal, where all cells blank do not protect.
    pub(crate) fn new(heap: Global, table: &'a Table) -> Result<Trial<'a>, Refusal>
        ensures { MatchResult result (λ t. Begins (model table.now.survey) t) (λ e. Stops (model table.now.survey) e) }
    {
        let cells = table.survey().cells();
        let lacking = lacking_cells(heap, table)?;
        let mut scratch = Scratch::new(heap, cells)?;
        let mut pattern = vec![in heap; true; cells]?;
        first_open(table, &lacking, &pattern, &mut scratch)?;
        // the pattern has an entry for each cell
        blank_lacking(table, &mut pattern).unwrap();
        Ok(Trial {
            table,
            pattern,
            lacking,
            scratch,
        })
    }

    // Makes cells blank in their order until the pattern protects, and says how many. Blanks only help, so a cell that is
    // protected stays so: the search goes on from the first cell that is not.
    pub(crate) fn blank_enough(&mut self, order: &[Ranked]) -> usize
        requires ordered { InOrder self.old.survey (cells_of order.now) }
        requires begins { Begins self.old.survey self.old }
        ensures same { self.new.survey ≡ self.old.survey }
        ensures enough { LeastEnough self.old.survey (cells_of order.now) result }
        ensures blanks { self.new.pattern ≡ blanked self.old.survey (take result (cells_of order.now)) }
        ensures known { AllKnown self.new.lacking }
    {
        let Trial {
            table,
            pattern,
            lacking,
            scratch,
        } = self;
        let mut k = 0;
        for lack in lacking.iter_mut() {
            lack.moves = 'blanks: loop {
                let moves = look(table, pattern, lack.cell, scratch);
                if moves.is_some() {
                    break moves;
                }
                pattern[order[k].cell] = true;
                k += 1;
            };
        }
        k
    }

    // Prints one cell that lacks nothing if the pattern still protects. Only a witness that changes the cell is in question.
    fn print_again(&mut self, cell: usize) -> bool
        requires inside { cell < size self.old.survey }
        requires enough { need self.old.survey cell ≡ 0 }
        requires known { AllKnown self.old.lacking }
        ensures same { self.new.survey ≡ self.old.survey }
        ensures keeps { AllKnown self.new.lacking }
        ensures tried { MatchBool result ((self.new.pattern ≡ slice_set self.old.pattern cell false) × Protected self.old.survey (slice_set self.old.pattern cell false)) ((self.new.pattern ≡ self.old.pattern) × (Protected self.old.survey (slice_set self.old.pattern cell false) → ⊥)) }
    {
        let Trial {
            table,
            pattern,
            lacking,
            scratch,
        } = self;
        let columns = table.survey().columns();
        let (row, column) = (cell / columns, cell % columns);
        let before = pattern[cell];
        pattern[cell] = false;
        for lack in lacking.iter_mut() {
            if lack.changes(row, column) {
                let Some(moves) = look(table, pattern, lack.cell, scratch) else {
                    pattern[cell] = before;
                    return false;
                };
                lack.moves = Some(moves);
            }
        }
        true
    }

    // Prints again what can be, from the last of the first k cells back.
    pub(crate) fn print_back(&mut self, order: &[Ranked], k: usize)
        requires ordered { InOrder self.old.survey (cells_of order.now) }
        requires within { k ≤ length order.now }
        requires known { AllKnown self.old.lacking }
        ensures { PrintedBack self.old.survey (cells_of order.now) k self.old.pattern self.new.pattern }
    {
        for ranked in order[..k].iter().rev() {
            self.print_again(ranked.cell);
        }
    }

    pub(crate) fn into_pattern(self) -> Vec<bool>
        ensures { result.items ≡ self.entry.pattern }
    {
        self.pattern
    }
}
