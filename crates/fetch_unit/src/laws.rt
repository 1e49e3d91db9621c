//! Laws of the path. Their functions do nothing: a law is a contract.

ghost use Rattle.fetch_unit.specs.Laws.{LeadOn, StraightOnes};
ghost use Rattle.fetch_unit.specs.SpotLaws.{BegunStays, BootSpot, FetchedIsNext, FollowIsAfter, RedirectsAreSpots, StatesHaveSpots};

use sparc_meaning::laws::{instructions_tell_ahead, steps_are_computed, steps_lead_on};

/// A guess that is right leads to the pair of the next instruction; and of an instruction that is no branch, JMPL or RETURN it
/// always is.
pub fn guesses_that_are_right_lead_on()
    ensures leads { LeadOn }
    ensures straight { StraightOnes }
{}

/// The path is that of the steps: what is fetched where a processor stands is what it runs next, and a guess that is right
/// leads to where it stands then. It begins where a processor does, and a redirect leads to a place on it.
pub fn the_path_is_that_of_the_steps()
    ensures next { FetchedIsNext }
    ensures follow { FollowIsAfter }
    ensures boot { BootSpot }
    ensures begun { BegunStays }
    ensures states { StatesHaveSpots }
    ensures redirects { RedirectsAreSpots }
{
    // whose clauses are cited
    instructions_tell_ahead();
    steps_are_computed();
    steps_lead_on();
}
