//! What the calls of a node mean to the protocol. Functions of laws do nothing: a law is a contract.

ghost use Rattle.cache_levels.specs.Laws.{ChangeCopies, FillCopies, LoseCopies};
ghost use Rattle.cache_sets.specs.Apart.{SoundIsApart};
ghost use Rattle.cache_sets.specs.Lookups.{DropLooksUp, FillLooksUp, HoldLooksUp, ReserveLooksUp, TouchLooksUp};
ghost use Rattle.node_memory.specs.Laws.{BeginFollows, HeldFollows, MessageFollows, ReadFollows, WishFollows, WishesLeave, WriteFollows};

use cache_levels::laws as level_laws;
use cache_sets::laws as set_laws;

/// What each call does to the copies, the registers and the messages of a node, line by line: what the protocol's table
/// says, and nothing else.
pub fn tables_follow()
    ensures message { MessageFollows }
    ensures begin { BeginFollows }
    ensures wishes { WishesLeave }
    ensures read { ReadFollows }
    ensures wish { WishFollows }
    ensures write { WriteFollows }
    ensures held { HeldFollows }
{
    caches_follow();
}

/// The laws of the caches, for the proofs of the calls that look into these or change them.
pub(crate) fn caches_follow()
    ensures apart { SoundIsApart }
    ensures touch { TouchLooksUp }
    ensures reserve { ReserveLooksUp }
    ensures hold { HoldLooksUp }
    ensures fill { FillLooksUp }
    ensures drop { DropLooksUp }
    ensures filled { FillCopies }
    ensures changed { ChangeCopies }
    ensures lost { LoseCopies }
{
    set_laws::lines_are_apart();
    set_laws::look_ups_follow();
    level_laws::copies_follow();
}
