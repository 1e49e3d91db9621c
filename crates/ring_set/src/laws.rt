//! Laws of rows. Their function does nothing: a law is a contract.

ghost use Rattle.ring_set.specs.RowLaws.{RowAnd, RowCut, RowFirst, RowNone, RowPop, RowPush, RowSet};

/// A set may stand for a test of the entries of a ring: it has the places of those that pass. Then its oldest place is that of
/// the first that passes, and it goes on to stand for the test while entries join, leave, are cut off and change.
pub fn rows_follow_the_entries()
    ensures none { RowNone }
    ensures first { RowFirst }
    ensures cut { RowCut }
    ensures push { RowPush }
    ensures pop { RowPop }
    ensures set { RowSet }
    ensures both { RowAnd }
{}
