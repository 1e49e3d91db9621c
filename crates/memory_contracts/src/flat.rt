// A store without caches.
ghost use Rattle.std.specs.Prelude.{◌≡◌, ◌<◌, IfOk};
ghost use Rattle.machine_config.specs.Allowed.{IsAllowed};
ghost use Rattle.memory_contracts.specs.Flat.{exchanged, store_of, ticked};
ghost use Rattle.memory_contracts.specs.FlatLayout.{AreKept};
ghost use Rattle.memory_contracts.specs.Start.{IsStart};

use crate::exchange::{is_at, take_turns};
use crate::memory::Memory;
use crate::owners::Owners;
use crate::places::make_places;
use crate::store::{CoherentStore, LostList};
use crate::wishes::{MOST_WISHES, Wanted, Wishes};
use elf64_load::{Image, Span};
use machine_config::Config;
use rsim_base::{Addr, Line, NoMemory, Node, Size, line_of};
use std::alloc::Global;

/// A store without caches: each line is with one node at a time, which may read it and write it, and lines go from node
/// to node at ticks.
#[derive(Drop)]
pub struct FlatStore {
    memory: Memory,
    owners: Owners,
    wishes: Wishes,
    // Which addresses have memory beside the stacks.
    spans: Vec<Span>,
    line_bytes: u64,
    ticks: u32,
    ghost kept: { AreKept memory owners wishes spans.items line_bytes },
}

impl FlatStore {
    ghost use Rattle.memory_contracts.specs.FlatStores.{flat_of};

    /// The store that an image and a configuration give.
    ///
    /// # Errors
    /// Where memory is short.
    pub fn make(alloc: Global, image: &Image, config: &Config) -> Result<FlatStore, NoMemory>
        requires { IsAllowed config.now }
        ensures { IfOk result (λ made. IsStart image.now config.now (store_of (flat_of made))) }
    {
        let line_bytes = u64::from(config.line);
        let (memory, owners) = make_places(alloc, image, line_bytes / 8)?;
        let wishes = Wishes::make(alloc, config.processors)?;
        let Ok(spans) = Vec::from_slice(alloc, image.spans()) else {
            return Err(NoMemory);
        };
        Ok(FlatStore {
            memory,
            owners,
            wishes,
            spans,
            line_bytes,
            ticks: 0,
        })
    }

    /// Grants wishes: in rising order, each node gets the line that its oldest wish asks for, and the wish is taken off. A
    /// line moves once at most; a wish for one that has moved already waits. Afterwards `lost` has the lines that left a
    /// node, whatever it had before.
    pub fn exchange(&mut self, lost: &mut LostList)
        requires few { (flat_of self.old).ticks < 4294967295 }
        ensures moves { flat_of self.new ≡ ticked (flat_of self.old) }
        ensures lost { lost.new.items ≡ (exchanged (flat_of self.old)).lost }
    {
        take_turns(&mut self.owners, &mut self.wishes, lost);
        self.ticks += 1;
    }
}

impl CoherentStore for FlatStore {
    ghost use Rattle.memory_contracts.specs.FlatStores.{flat_of};
    ghost use Rattle.memory_contracts.specs.Sound.{IsSound-kept};
    ghost use Rattle.memory_contracts.specs.Store.{StoreView, Ticks, plain_effects};
    ghost use Rattle.std.specs.Prelude.{refl};

    ghost meaning = { λ s. store_of (flat_of s) };

    ghost Inside = { StoreView };

    ghost inside = { λ s. store_of (flat_of s) };

    ghost view = { λ v. v };

    ghost effects = { plain_effects };

    ghost Ticked = { Ticks };

    fn read(&mut self, p: Node, a: Addr, n: Size) -> Option<u64> {
        if !self.is_near(p, line_of(a, self.line_bytes)) {
            return None;
        }
        Some(self.memory.read(a.0, n))
    }

    fn write(&mut self, p: Node, a: Addr, n: Size, v: u64) -> bool {
        if !self.is_owned(p, line_of(a, self.line_bytes)) {
            return false;
        }
        self.memory.write(a.0, n, v);
        true
    }

    fn wish(&mut self, p: Node, line: Line, own: bool) -> bool {
        if self.wishes.cover(p, line, own) {
            return true;
        }
        if self.wishes.count(p) >= MOST_WISHES {
            return false;
        }
        self.wishes.push(p, Wanted { line, own });
        true
    }

    fn is_near(&self, p: Node, line: Line) -> bool {
        is_at(self.owners.owner(line), p)
    }

    fn is_owned(&self, p: Node, line: Line) -> bool {
        self.is_near(p, line)
    }

    fn tick(&mut self, lost: &mut LostList) {
        self.exchange(lost);
    }

    ghost sound = { λ s. IsSound-kept s.memory s.owners s.wishes s.spans.items s.line_bytes s.ticks s.kept };

    ghost seen = { λ s. refl };
}
