// What is found of one cell: a witness that it is protected, or the least cut that bars it.

// Marked rows and columns, of a table of forty by forty at most, kept by value: a cut outlives the memory it was found in.
#[derive(Clone, Copy, Debug, PartialEq, Eq)]
pub struct Cut {
    pub rows: [bool; 40],
    pub columns: [bool; 40],
}

#[derive(Clone, Copy, Debug)]
pub enum Finding {
    // other cell sums give the same page: they stand in the memory lent
    Shown,
    // no other cell sums do, as the cut shows
    Barred(Cut),
    // the cell is printed, though it lacks something
    Printed,
}
