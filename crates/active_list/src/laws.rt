//! What follows where numbers rise along the list. The functions do nothing: a law is a contract.

ghost use Rattle.active_list.specs.Laws.{ChangeKeepsNumbers, ChangeKeepsRising, NoneIsAfter, NumberedAreRising, PopsKeepNumbers, PopsKeepRising, PushKeepsNumbers, PushKeepsRising, RetireKeepsNumbers, RetireKeepsRising};

/// Where the numbers of the entries rise from the oldest to the youngest, they rise after each call, if an entry that is
/// changed keeps its number, and `pop_after` answers `None` exactly where no entry has a greater number.
pub fn youngest_are_behind()
    ensures none { NoneIsAfter }
    ensures push { PushKeepsRising }
    ensures retire { RetireKeepsRising }
    ensures pops { PopsKeepRising }
    ensures change { ChangeKeepsRising }
{}

/// Where the numbers have no gaps, they have none after each call: an entry's number tells its place.
pub fn numbers_have_no_gaps()
    ensures rising { NumberedAreRising }
    ensures push { PushKeepsNumbers }
    ensures retire { RetireKeepsNumbers }
    ensures pops { PopsKeepNumbers }
    ensures change { ChangeKeepsNumbers }
{}
