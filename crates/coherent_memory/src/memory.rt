// The memory that nodes share.
ghost use Rattle.std.specs.Prelude.{◌≡◌, ℕ, ◌+◌, ◌/◌, ◌%◌, ◌<◌, IfOk};
ghost use Rattle.rsim_base.specs.Bytes.{count_of};
ghost use Rattle.machine_config.specs.Allowed.{IsAllowed};
ghost use Rattle.memory_contracts.specs.Bags.{no_flights};
ghost use Rattle.memory_contracts.specs.Start.{IsStart};
ghost use Rattle.memory_contracts.specs.Store.{IsSound};
ghost use Rattle.coherent_memory.specs.Stores.{store_of};
ghost use Rattle.coherent_memory.specs.Fabrics.{system_with};
ghost use Rattle.coherent_memory.specs.MemoryInvariants.{IsWhole, shape_of};

use crate::fabric::Fabric;
use crate::laws;
use cache_levels::laws as level_laws;
use elf64_load::{Image, Span};
use machine_config::Config;
use memory_contracts::{Carrier, CoherentStore, LostList, laws as protocol_laws};
use node_memory::laws as node_laws;
use rsim_base::{Addr, Line, NoMemory, Node, Size};
use std::alloc::Global;

/// Memory that nodes share: each node has two levels of caches and the home of a share of the lines, and messages between
/// them go over a carrier. Each line is coherent: whoever may read it reads its content, and whoever may write it is alone
/// with it.
#[derive(Drop)]
pub struct CoherentMemory<C: Carrier> {
    fabric: Fabric<C>,
    // Which addresses have memory beside the stacks.
    spans: Vec<Span>,
    line_bytes: u64,
    ticks: u32,
    ghost whole: { IsWhole (shape_of fabric.count spans.items line_bytes) ticks (system_with fabric.homes fabric.nodes (C.meaning fabric.carrier)) },
    ghost sound: { IsSound (store_of (shape_of fabric.count spans.items line_bytes) ticks (system_with fabric.homes fabric.nodes (C.meaning fabric.carrier))) },
}

impl<C: Carrier + Drop> CoherentMemory<C> {
    ghost use Rattle.coherent_memory.specs.Memories.{store_in};

    /// The memory that an image and a configuration give, over a carrier of the same configuration that is empty and has not
    /// ticked.
    ///
    /// # Errors
    /// Where memory is short. No later call takes memory.
    pub fn make(
        alloc: Global,
        image: &Image,
        config: &Config,
        carrier: C,
    ) -> Result<CoherentMemory<C>, NoMemory>
        requires allowed { IsAllowed config.now }
        requires carrier { C.meaning carrier ≡ no_flights config.now }
        ensures { IfOk result (λ made. IsStart image.now config.now (store_in C.meaning made)) }
    {
        protocol_laws::lines_stay_coherent();
        node_laws::tables_follow();
        let fabric = Fabric::make(alloc, image, config, carrier)?;
        let Ok(spans) = Vec::from_slice(alloc, image.spans()) else {
            return Err(NoMemory);
        };
        Ok(CoherentMemory {
            fabric,
            spans,
            line_bytes: u64::from(config.line),
            ticks: 0,
        })
    }
}

impl<C: Carrier> CoherentStore for CoherentMemory<C> {
    ghost use Rattle.std.specs.Prelude.{refl};
    ghost use Rattle.coherent_memory.specs.Memories.{memory_in, store_in};
    ghost use Rattle.coherent_memory.specs.Stores.{Memory, MemoryTicks, memory_effects, view_of};

    ghost meaning = { λ s. store_in C.meaning s };

    ghost Inside = { Memory };

    ghost inside = { λ s. memory_in C.meaning s };

    ghost view = { view_of };

    ghost effects = { memory_effects };

    ghost Ticked = { MemoryTicks C.Moves };

    fn read(&mut self, p: Node, a: Addr, n: Size) -> Option<u64> {
        protocol_laws::lines_stay_coherent();
        laws::nearness_stays();
        node_laws::tables_follow();
        self.fabric.read(p, a, n)
    }

    fn write(&mut self, p: Node, a: Addr, n: Size, v: u64) -> bool {
        protocol_laws::lines_stay_coherent();
        laws::nearness_stays();
        laws::nodes_keep_lines();
        node_laws::tables_follow();
        level_laws::written_bytes_read_back();
        self.fabric.write(p, a, n, v)
    }

    fn wish(&mut self, p: Node, line: Line, own: bool) -> bool {
        protocol_laws::lines_stay_coherent();
        node_laws::tables_follow();
        self.fabric.wish(p, line, own)
    }

    fn is_near(&self, p: Node, line: Line) -> bool {
        self.fabric.is_near(p, line)
    }

    fn is_owned(&self, p: Node, line: Line) -> bool {
        self.fabric.is_owned(p, line)
    }

    // A turn of each node, in rising order, and then a tick of the carrier.
    fn tick(&mut self, lost: &mut LostList) {
        protocol_laws::lines_stay_coherent();
        node_laws::tables_follow();
        self.fabric.tick(u64::from(self.ticks), lost);
        self.ticks += 1;
    }

    ghost sound = { λ s. s.sound };

    ghost seen = { λ s. refl };
}
