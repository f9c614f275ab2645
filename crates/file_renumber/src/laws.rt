//! Laws of kept rows and their numbers, for the proofs of crates above.
ghost use Rattle.file_renumber.specs.inner.Numbers.{KeptRowsAreRanks, KeptProtosAreRanks, KeptRowsAreHeld, TotalsAreLengths};

/// A kept row's number is the rank of its name among the names whose rows are kept.
pub fn kept_rows_are_ranks()
    ensures names { KeptRowsAreRanks }
    ensures protos { KeptProtosAreRanks }
{}

/// Just the rows of these names are kept.
pub fn kept_rows_are_held()
    ensures { KeptRowsAreHeld }
{}

/// There are as many as names.
pub fn totals_are_lengths()
    ensures { TotalsAreLengths }
{}
