// The turns of all processors.
ghost use Rattle.std.specs.Prelude.{◌≡◌, ◌+◌, ◌<◌, ◌≤◌, ℕ, OnOk, length};
ghost use Rattle.cycle_loop.specs.Ranges.{AreSound, HaveNumbers};
ghost use Rattle.cycle_loop.specs.Machine.{Turned, turns};
ghost use Rattle.cycle_loop.specs.Ready.{AreCounted, HaveRoom, MayUseAll, views_of};

use crate::decoded::Decoded;
use crate::processor::Processor;
use elf64_load::Image;
use memory_contracts::CoherentStore;
use order_log::OrderLog;
use rsim_base::{NoMemory, Node};

/// Makes room in each output for what one step puts. Refused, some have it and others do not.
pub(crate) fn reserve_outputs(processors: &mut Vec<Processor>) -> Result<(), NoMemory>
    ensures views { views_of processors.new.items ≡ views_of processors.old.items }
    ensures room { OnOk result (HaveRoom processors.new.items) }
{
    for p in 0..processors.len() {
        processors[p].reserve()?;
    }
    Ok(())
}

/// The turn of each processor, in rising order.
pub(crate) fn take_turns<M: CoherentStore>(
    processors: &mut Vec<Processor>,
    image: &Image,
    decoded: &mut Decoded,
    line_bytes: u64,
    store: &mut M,
    log: &mut OrderLog,
)
    requires may { MayUseAll image.now (M.meaning store.old) line_bytes (length processors.old.items) }
    requires sound { AreSound (views_of processors.old.items) }
    requires counted { AreCounted 7999999 (views_of processors.old.items) }
    requires room { HaveRoom processors.old.items }
    requires places { length processors.old.items ≤ log.old.spare }
    ensures rule { ◌≡◌ {A = Turned} (record { cores = views_of processors.new.items; log = log.new.places; bytes = (M.meaning store.new).bytes }) (turns image.now (M.meaning store.old) 0 (views_of processors.old.items) log.old.places (M.meaning store.old).bytes) }
    ensures store { M.meaning store.new ≡ record (M.meaning store.old) { bytes = (M.meaning store.new).bytes; wishes = (M.meaning store.new).wishes } }
    ensures length { length processors.new.items ≡ length processors.old.items }
    ensures sound { AreSound (views_of processors.new.items) }
    ensures counted { (n : ℕ) → AreCounted n (views_of processors.old.items) → AreCounted (n + 1) (views_of processors.new.items) }
    ensures numbers { HaveNumbers log.old.places → HaveNumbers log.new.places }
{
    for p in 0..processors.len() {
        let processor = &mut processors[p];
        processor.turn(Node(p as u8), image, decoded, line_bytes, store, log);
    }
}
