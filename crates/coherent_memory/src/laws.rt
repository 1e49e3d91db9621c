//! Laws of the steps of a tick. Their functions do nothing of their own: a law is a contract.

ghost use Rattle.coherent_memory.specs.Determined.{MovesOnce, TicksOnce};
ghost use Rattle.coherent_memory.specs.Lost.{TurnTells, TurnsTell};
ghost use Rattle.coherent_memory.specs.Rooms.{RoomStays, ServingGrows, ServingShortens, StartGrows, TakingGrows};
ghost use Rattle.coherent_memory.specs.Laws.{BeginKeeps, CarryingKeeps, GrantsAwaited, HomeTakesKeeps, MailKeeps, NearAfterRead, NearAfterWrite, NodeTakesKeeps, NothingKeeps, PostKeeps, ServingKeeps, TurnKeeps, WritingKeeps};

use cache_sets::laws as set_laws;
use memory_contracts::{Carrier, laws as protocol_laws};
use node_memory::laws as node_laws;

/// Every step keeps each line coherent; only a write changes the content of a line, its own.
pub fn steps_keep_lines()
    ensures home { HomeTakesKeeps }
    ensures serving { ServingKeeps }
    ensures post { PostKeeps }
    ensures mail { MailKeeps }
    ensures carrying { CarryingKeeps }
    ensures nothing { NothingKeeps }
    ensures awaited { GrantsAwaited }
{
    protocol_laws::lines_stay_coherent();
}

/// So do those of a node.
pub fn nodes_keep_lines()
    ensures node { NodeTakesKeeps }
    ensures begin { BeginKeeps }
    ensures write { WritingKeeps }
{
    protocol_laws::lines_stay_coherent();
    node_laws::tables_follow();
}

/// A home that has room for a message has room for what it sends, and for what it sends to those that waited.
pub fn rooms_suffice()
    ensures start { StartGrows }
    ensures taking { TakingGrows }
    ensures serving { ServingGrows }
    ensures room { RoomStays }
    ensures shorter { ServingShortens }
{
    protocol_laws::lines_stay_coherent();
}

/// A turn keeps every line coherent, and tells the lines that leave its node, each once.
pub fn turns_tell()
    ensures keeps { TurnKeeps }
    ensures turn { TurnTells }
    ensures turns { TurnsTell }
{
    steps_keep_lines();
    nodes_keep_lines();
    node_laws::tables_follow();
}

/// Reading and writing leave what is near.
pub fn nearness_stays()
    ensures read { NearAfterRead }
    ensures write { NearAfterWrite }
{
    set_laws::lines_are_apart();
    set_laws::look_ups_follow();
}

/// Where a tick of the carrier has one result, a tick of the whole memory has: every home, every cache with its ways by
/// recency, every message under way, and the lines that are told to have left.
pub fn ticks_have_one_result<C: Carrier>()
    ensures { MovesOnce C.Moves → TicksOnce C.Moves }
{}
