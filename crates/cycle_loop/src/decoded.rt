// Instructions that were decoded before.
ghost use Rattle.std.specs.Prelude.{◌≡◌, ◌<◌, IfOk};
ghost use Rattle.sparc_decode.specs.Instr.{instr};
ghost use Rattle.sparc_decode.specs.Ranges.{IsInRange};
ghost use Rattle.sparc_meaning.specs.Step.{instr_at as spec_instr_at};
ghost use Rattle.cycle_loop.specs.Decoded.{IsDecoded};

use elf64_load::Image;
use rsim_base::NoMemory;
use sparc_decode::{Instr, decode};
use sparc_meaning::instr_at;
use std::alloc::Global;
use std::marker::Model;

// How many instructions are kept.
const SLOTS: usize = 1024;

// A word, and the instruction that it stands for.
#[derive(Clone, Copy, Drop)]
pub(crate) struct Slot {
    word: u32,
    instr: Instr,
}

/// The instructions of words that were decoded before: each has its slot by its address, and keeps it until another word
/// takes it. It says nothing that decoding would not say again, and only saves time.
#[derive(Drop)]
pub(crate) struct Decoded {
    slots: Vec<Slot>,
}

impl Model for Decoded {
    ghost use Rattle.cycle_loop.specs.Decoded.{AreDecoded};

    ghost Value = { Unit {0} };

    ghost view = { λ d. tt };

    ghost invariant = { λ d. AreDecoded d.slots.items };
}

impl Decoded {
    /// No instruction but that of the word 0 is kept.
    ///
    /// # Errors
    /// Where memory is short.
    pub(crate) fn make(alloc: Global) -> Result<Decoded, NoMemory> {
        let first = slot_of(0);
        let Ok(slots) = vec![in alloc; first; SLOTS] else {
            return Err(NoMemory);
        };
        Ok(Decoded { slots })
    }

    /// The instruction at an address; where none can be fetched, the trap of that.
    pub(crate) fn instr_at(&mut self, image: &Image, pc: u64) -> Instr
        ensures value { result ≡ spec_instr_at image.now pc }
        ensures in_range { IsInRange result }
    {
        match image.fetch(pc) {
            Some(word) => self.decode(word, pc),
            None => instr_at(image, pc),
        }
    }

    // The instruction of a word that stands at an address.
    fn decode(&mut self, word: u32, pc: u64) -> Instr
        ensures value { result ≡ instr word }
        ensures in_range { IsInRange result }
    {
        let place = (pc / 4 % SLOTS as u64) as usize;
        if self.slots[place].word != word {
            self.slots[place] = slot_of(word);
        }
        self.slots[place].instr
    }
}

fn slot_of(word: u32) -> Slot
    ensures is { IsDecoded result }
    ensures word { result.word ≡ word }
{
    Slot {
        word,
        instr: decode(word),
    }
}
