// How a search comes to a row or a column.
ghost use Rattle.std.specs.Prelude.{◌<◌};

// The round in which a row or a column is reached, and the column or row that it is reached from. A table has forty rows at
// most, so that each round comes before 64, which stands for never in the definitions.
#[derive(Clone, Copy)]
pub(crate) struct Step {
    pub(crate) round: usize,
    pub(crate) from: usize,
    ghost early: { round < 64 },
}
