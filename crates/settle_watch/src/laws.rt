//! Laws of the watch. Their function does nothing: a law is a contract.

ghost use Rattle.settle_watch.specs.Laws.{PlacedBetween, PlacedInOrder};

/// The loads that are watched stand in the order of the program, whatever the order is in which they were bound.
pub fn loads_stand_in_order()
    ensures between { PlacedBetween }
    ensures order { PlacedInOrder }
{}
