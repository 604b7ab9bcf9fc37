// One workshop: the cell of the table that it lies in, and its turnover.
#[derive(Clone, Copy, Debug, PartialEq, Eq)]
pub struct Workshop {
    pub cell: u16,
    pub turnover: u32,
}
