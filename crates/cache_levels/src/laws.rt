//! Laws of the two levels. Their functions do nothing of their own: a law is a contract.

ghost use Rattle.cache_levels.specs.Laws.{FillCopies, ChangeCopies, LoseCopies, RoomCopies, OthersStay, WriteReadsBack};

use cache_sets::laws;

/// What each call does to the copy of each line. The copy of a line changes only where the line is filled, shared,
/// written or lost, or leaves for another.
pub fn copies_follow()
    ensures fill { FillCopies }
    ensures change { ChangeCopies }
    ensures lose { LoseCopies }
    ensures room { RoomCopies }
    ensures others { OthersStay }
{
    laws::lines_are_apart();
    laws::look_ups_follow();
}

/// A byte that is written into a line reads back, and no other byte changes.
pub fn written_bytes_read_back()
    ensures { WriteReadsBack }
{}
