//! Laws of caches. Their functions do nothing: a law is a contract.

ghost use Rattle.cache_sets.specs.Apart.{SoundIsApart};
ghost use Rattle.cache_sets.specs.Lookups.{TouchLooksUp, ReserveLooksUp, HoldLooksUp, FillLooksUp, DropLooksUp};

/// No two lines have one slot, and every slot of a line is below the number of slots.
pub fn lines_are_apart()
    ensures { SoundIsApart }
{}

/// What each change of a cache does to look-ups, of the way that holds a line and of the one that is reserved for it.
pub fn look_ups_follow()
    ensures touch { TouchLooksUp }
    ensures reserve { ReserveLooksUp }
    ensures hold { HoldLooksUp }
    ensures fill { FillLooksUp }
    ensures drop { DropLooksUp }
{}
