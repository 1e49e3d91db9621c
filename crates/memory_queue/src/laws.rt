//! Laws of what loads are given. Their functions do nothing of their own: a law is a contract.

ghost use Rattle.memory_queue.specs.Laws.{ForwardIsSeen, GivesWhereItCovers, UngivenMeetsNone, UnmetIsUnwritten};

use rsim_base::laws as base_laws;

/// A store gives a load its value exactly where it is plain, covers it and has its value. Each byte of what is forwarded is
/// then the byte that the youngest earlier store or atomic at that address stores there; and where a load overlaps none that
/// is not performed, none stores at any of its bytes.
pub fn forwarded_bytes_are_the_youngest()
    ensures covered { GivesWhereItCovers }
    ensures seen { ForwardIsSeen }
    ensures unwritten { UnmetIsUnwritten }
{
    base_laws::parts_have_the_bytes();
}

/// A load that may bind and to which nothing is forwarded overlaps no earlier store or atomic that is not performed.
pub fn loads_bind_to_what_they_meet()
    ensures { UngivenMeetsNone }
{}
