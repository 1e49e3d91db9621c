//! Laws of the consistency models. Their functions do nothing: a law is a contract.

ghost use Rattle.rsim_base.specs.declared.memory.Model.{Model};
ghost use Rattle.order_axioms.specs.Laws.{IsWeaker, NeedsAssumed, OverlappingInOrder};

/// Release consistency needs no more than processor consistency, and this no more than sequential consistency.
pub fn models_are_nested()
    ensures release { IsWeaker Model.Rc Model.Pc }
    ensures processor { IsWeaker Model.Pc Model.Sc }
{}

/// An access is needed before a later one that it overlaps, unless it is a plain store and that a plain load. And what is
/// needed at its own address is needed at the later one's too.
pub fn overlapping_accesses_keep_their_order()
    ensures overlapping { OverlappingInOrder }
    ensures assumed { NeedsAssumed }
{}
