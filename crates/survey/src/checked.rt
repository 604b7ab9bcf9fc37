// The survey once it is checked. What the rules ask of it is in its type, so that nobody asks it again.
ghost use Rattle.std.specs.Prelude.{ℕ, ◌*◌, ◌<◌, ◌≤◌, vec_len, slice_index_or};
ghost use Rattle.survey.specs.declared.workshop.Workshop.{Workshop};

use crate::workshop::Workshop;

#[derive(Drop)]
pub struct Survey {
    pub(crate) rows: usize,
    pub(crate) columns: usize,
    pub(crate) percent: u8,
    pub(crate) workshops: Vec<Workshop>,
    ghost some_rows: { 0 < rows },
    ghost few_rows: { rows ≤ 40 },
    ghost some_columns: { 0 < columns },
    ghost few_columns: { columns ≤ 40 },
    ghost some_percent: { 0 < percent },
    ghost few_percent: { percent ≤ 100 },
    ghost few: { vec_len workshops ≤ 20000 },
    ghost inside: { (k : ℕ) (d : Workshop) → k < vec_len workshops → (slice_index_or workshops.items k d).cell < rows * columns },
    ghost in_range: { (k : ℕ) (d : Workshop) → k < vec_len workshops → (slice_index_or workshops.items k d).turnover ≤ 1000000000 },
}
