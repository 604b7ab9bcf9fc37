// The survey's bytes: a head of five, and six for each workshop.
ghost use Rattle.std.specs.Prelude.{◌≡◌, ℕ, suc, ◌+◌, ◌*◌, ◌<◌, ◌≤◌, true, false, length, None, Some, MatchOption, MatchResult, ◌≢◌};
ghost use Rattle.std.specs.Range.{range_inclusive_contains};
ghost use Rattle.survey.specs.Format.{two_bytes, four_bytes, first_bad, verdict};
ghost use Rattle.survey.specs.Reading.{workshop_in, Headed, Taken};

use crate::refusal::{Refusal, Side};
use crate::workshop::Workshop;
use std::ops::RangeInclusive;

// What the head says, once it is checked.
#[derive(Clone, Copy)]
pub(crate) struct Head {
    pub(crate) rows: usize,
    pub(crate) columns: usize,
    pub(crate) percent: u8,
    pub(crate) workshops: usize,
}

// The number, where it is in the range.
fn in_range<T: PartialOrd + Copy>(range: RangeInclusive<T>, n: T) -> Option<T>
    ensures { let inside = range_inclusive_contains T.partial_cmp range n in MatchOption result (inside ≡ false) (λ v. (inside ≡ true) × (v ≡ n)) }
{
    range.contains(&n).then_some(n)
}

// The workshop that its six bytes say.
fn workshop_of(part: &[u8]) -> Workshop
    requires { length part.now ≡ 6 }
    ensures cell { result.cell ≡ two_bytes part.now 0 }
    ensures turnover { result.turnover ≡ four_bytes part.now 2 }
{
    Workshop {
        cell: u16::from_le_bytes([part[0], part[1]]),
        turnover: u32::from_le_bytes([part[2], part[3], part[4], part[5]]),
    }
}

// Workshop i: its part of the bytes, which starts in their middle, is handed on.
pub(crate) fn workshop_at(bytes: &[u8], i: usize) -> Workshop
    requires { 11 + 6 * i ≤ length bytes.now }
    ensures { result ≡ workshop_in bytes.now i }
{
    workshop_of(&bytes[5 + 6 * i..11 + 6 * i])
}

// The number of workshops, where the bytes are as many as the head and so many workshops have.
fn whole(bytes: &[u8], workshops: usize) -> Option<usize>
    requires { workshops ≤ 20000 }
    ensures { MatchOption result (length bytes.now ≢ 5 + 6 * workshops) (λ v. (length bytes.now ≡ 5 + 6 * workshops) × (v ≡ workshops)) }
{
    (bytes.len() == 5 + 6 * workshops).then_some(workshops)
}

// The head, or the first refusal up to the length's.
pub(crate) fn read_head(bytes: &[u8]) -> Result<Head, Refusal>
    ensures { MatchResult result (λ h. Headed bytes.now h) (λ e. verdict bytes.now ≡ Some e) }
{
    let [rows, columns, percent, low, high, ..] = *bytes else {
        return Err(Refusal::Length(bytes.len()));
    };
    let Some(rows) = in_range(1..=40, rows) else {
        return Err(Refusal::Dimension(Side::Rows));
    };
    let Some(columns) = in_range(1..=40, columns) else {
        return Err(Refusal::Dimension(Side::Columns));
    };
    let Some(percent) = in_range(1..=100, percent) else {
        return Err(Refusal::Percentage);
    };
    let Some(announced) = in_range(0..=20_000, u16::from_le_bytes([low, high])) else {
        return Err(Refusal::TooMany);
    };
    let Some(workshops) = whole(bytes, announced as usize) else {
        return Err(Refusal::Length(bytes.len()));
    };
    Ok(Head {
        rows: rows as usize,
        columns: columns as usize,
        percent,
        workshops,
    })
}

// The cell, where it is in the table.
fn inside(cell: u16, cells: usize) -> Option<u16>
    ensures { MatchOption result (cells ≤ cell) (λ v. (cell < cells) × (v ≡ cell)) }
{
    ((cell as usize) < cells).then_some(cell)
}

// Workshop i, or why it is refused: its cell is looked at before its turnover.
fn checked_workshop(bytes: &[u8], i: usize, cells: usize) -> Result<Workshop, Refusal>
    requires { 11 + 6 * i ≤ length bytes.now }
    ensures { MatchResult result (λ w. Taken bytes.now cells i w) (λ e. (more : ℕ) → first_bad bytes.now cells i (suc more) ≡ Some e) }
{
    let workshop = workshop_at(bytes, i);
    let Some(cell) = inside(workshop.cell, cells) else {
        return Err(Refusal::Cell(i));
    };
    let Some(turnover) = in_range(0..=1_000_000_000, workshop.turnover) else {
        return Err(Refusal::Turnover(i));
    };
    Ok(Workshop { cell, turnover })
}

// Looks at all workshops, by number since a refusal tells it; the first that is refused decides.
pub(crate) fn check_workshops(bytes: &[u8], cells: usize, workshops: usize) -> Result<(), Refusal>
    requires { length bytes.now ≡ 5 + 6 * workshops }
    ensures { MatchResult result (λ _. first_bad bytes.now cells 0 workshops ≡ None) (λ e. first_bad bytes.now cells 0 workshops ≡ Some e) }
{
    for i in 0..workshops {
        checked_workshop(bytes, i, cells)?;
    }
    Ok(())
}
