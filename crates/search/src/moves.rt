// Which cells a witness changes, as bits: one number for each row, with a bit for each column.
ghost use Rattle.std.specs.Prelude.{◌≡◌, ℕ, ◌+◌, ◌*◌, ◌<◌, ◌≤◌, length, slice_index};
ghost use Rattle.search.specs.Moves.{bit_of, differs, MovesOf};

// A bit for each cell, in an array for the largest table: one is kept for each cell that lacks something, and none is allocated.
#[derive(Clone, Copy)]
pub(crate) struct Moves {
    pub(crate) rows: [u64; 40],
}

impl Moves {
    // Whether the cell in this row and column is changed.
    pub(crate) fn holds(&self, row: usize, column: usize) -> bool
        requires row_within { row < 40 }
        requires column_within { column < 40 }
        ensures { result ≡ bit_of (slice_index self.now.rows row) column }
    {
        (self.rows[row] >> column) % 2 == 1
    }
}

// Whether a cell differs, as a bit.
fn changed_bit(sums: &[u64], other: &[u64], cell: usize) -> u64
    requires sums_within { cell < length sums.now }
    requires other_within { cell < length other.now }
    ensures bit { result < 2 }
    ensures value { bit_of result 0 ≡ differs sums.now other.now cell }
{
    u64::from(other[cell] != sums[cell])
}

// The bits of one row, which starts at this cell: a loop from its last column down, since each bit moves the ones before it up.
fn row_bits(sums: &[u64], other: &[u64], start: usize, columns: usize) -> u64
    requires few { columns ≤ 40 }
    requires sums_within { start + columns ≤ length sums.now }
    requires other_within { start + columns ≤ length other.now }
    ensures { (k : ℕ) → k < columns → bit_of result k ≡ differs sums.now other.now (start + k) }
{
    let mut bits: u64 = 0;
    for k in (0..columns).rev() {
        bits = bits * 2 + changed_bit(sums, other, start + k);
    }
    bits
}

// The cells in which the other sums differ from the first.
pub(crate) fn moves_of(rows: usize, columns: usize, sums: &[u64], other: &[u64]) -> Moves
    requires few_rows { rows ≤ 40 }
    requires few_columns { columns ≤ 40 }
    requires sums_within { rows * columns ≤ length sums.now }
    requires other_within { rows * columns ≤ length other.now }
    ensures { MovesOf rows columns sums.now other.now result.rows }
{
    let mut bits = [0; 40];
    for (row, bits) in bits[..rows].iter_mut().enumerate() {
        *bits = row_bits(sums, other, row * columns, columns);
    }
    Moves { rows: bits }
}
