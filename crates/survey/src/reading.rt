// From the survey's bytes to a checked survey.
ghost use Rattle.std.specs.List.{range_with_len};
ghost use Rattle.std.specs.Prelude.{◌≡◌, ◌+◌, ◌*◌, length, map, IfOk, MatchResult};
ghost use Rattle.survey.specs.Reading.{workshop_in, Reads, Refuses};

use crate::checked::Survey;
use crate::format::{check_workshops, read_head, workshop_at};
use crate::refusal::Refusal;
use crate::workshop::Workshop;
use std::alloc::{AllocError, Global};

// The workshops in the order of the bytes.
fn collect(heap: Global, bytes: &[u8], workshops: usize) -> Result<Vec<Workshop>, AllocError>
    requires { length bytes.now ≡ 5 + 6 * workshops }
    ensures { IfOk result (λ v. v.items ≡ map (workshop_in bytes.now) (range_with_len 0 workshops)) }
{
    (0..workshops).map(|i| workshop_at(bytes, i)).collect(heap)
}

// The survey that the bytes say, or the first refusal that applies; want of memory comes last.
pub fn read(heap: Global, bytes: &[u8]) -> Result<Survey, Refusal>
    ensures { MatchResult result (λ s. Reads bytes.now s) (λ e. Refuses bytes.now e) }
{
    let head = read_head(bytes)?;
    check_workshops(bytes, head.rows * head.columns, head.workshops)?;
    let workshops = collect(heap, bytes, head.workshops)?;
    Ok(Survey {
        rows: head.rows,
        columns: head.columns,
        percent: head.percent,
        workshops,
    })
}
