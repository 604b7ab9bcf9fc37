// Prints, of each cell of each survey on standard input, how many workshops it has, its sum, the largest and the second
// largest turnover, and what it lacks. Surveys stand one after another. It is here to be compared with other programs.
#![tactic(auto)]

ghost use Rattle.std.specs.Prelude.{◌≡◌, ◌⊎◌, IfOk, string_bytes, MatchResult};
ghost use Rattle.survey.specs.Model.{model};
ghost use Rattle.survey.specs.Reading.{Reads, Refuses};
ghost use Rattle.survey.specs.declared.refusal.Refusal.TheVariants.{Memory};
ghost use Rattle.cells.specs.Lines.{cell_line};

use command::parts::survey_part;
use sensitivity::profile::Profile;
use sensitivity::table::Table;
use std::alloc::{AllocError, Global};
use std::io::Read;
use survey::reading::read;
use survey::refusal::Refusal;

// The table that the bytes say, or why they are refused.
fn table_of(heap: Global, bytes: &[u8]) -> Result<Table, Refusal>
    ensures { MatchResult result (λ t. Reads bytes.now t.survey) (λ e. Refuses bytes.now e ⊎ (e ≡ Memory)) }
{
    Table::new(heap, read(heap, bytes)?)
}

// The line of a cell.
fn cell_line(heap: Global, table: &Table, cell: usize) -> Result<String, AllocError>
    ensures { IfOk result (λ text. string_bytes text ≡ cell_line (model table.now.survey) cell) }
{
    let Profile {
        workshops,
        sum,
        largest,
        second,
    } = table.profile(cell);
    let lack = table.lack(cell);
    format!(in heap; "{workshops} {sum} {largest} {second} {lack}")
}

fn main(rt: HostRuntime) -> anyhow::Result<()> {
    let mut bytes = Vec::new(rt.alloc());
    rt.stdin().read_to_end(&mut bytes)?;
    let mut rest = bytes.as_slice();
    while !rest.is_empty() {
        let (one, after) = rest.split_at(survey_part(rest).max(1));
        match table_of(rt.alloc(), one) {
            Ok(table) => {
                for cell in 0..table.survey().cells() {
                    let line = cell_line(rt.alloc(), &table, cell)?;
                    println!(rt; "{line}")?;
                }
            }
            Err(refusal) => println!(rt; "{refusal}")?,
        }
        rest = after;
    }
    Ok(())
}
