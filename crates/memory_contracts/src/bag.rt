// A carrier that keeps a list of messages.
ghost use Rattle.std.specs.Prelude.{◌≡◌, ◌+◌, ◌<◌, IfOk};
ghost use Rattle.std.specs.Vec.{vec_capacity};
ghost use Rattle.machine_config.specs.Allowed.{IsAllowed};
ghost use Rattle.memory_contracts.specs.Bags.{no_flights, ticked};
ghost use Rattle.memory_contracts.specs.Packets.{AreInRooms, flights_of};

use crate::carrier::Carrier;
use crate::mesh::Mesh;
use crate::message::Message;
use crate::packet::{Packet, next_for};
use crate::rooms::{ROOM, Rooms};
use machine_config::Config;
use rsim_base::{NoMemory, Node};
use std::alloc::Global;

/// The messages that a node may have under way, of all four classes.
const MOST_OF_NODE: usize = 4 * ROOM as usize;

/// A carrier that keeps the messages in a list, and in which each arrives as early as it may have crossed the mesh.
#[derive(Drop)]
pub struct BagCarrier {
    // In the order of their sending, with memory for all that the rooms allow.
    packets: Vec<Packet>,
    rooms: Rooms,
    mesh: Mesh,
    ticks: u32,
    ghost kept: { AreInRooms (flights_of mesh.width ticks packets.items) mesh.nodes rooms (vec_capacity packets) },
}

impl BagCarrier {
    ghost use Rattle.memory_contracts.specs.BagCarriers.{bag_of};

    /// The carrier of a configuration, in which no message is under way.
    ///
    /// # Errors
    /// Where memory is short.
    pub fn make(alloc: Global, config: &Config) -> Result<BagCarrier, NoMemory>
        requires { IsAllowed config.now }
        ensures { IfOk result (λ made. bag_of made ≡ no_flights config.now) }
    {
        let mesh = Mesh::make(config);
        let Ok(packets) = Vec::with_capacity(alloc, mesh.nodes as usize * MOST_OF_NODE) else {
            return Err(NoMemory);
        };
        Ok(BagCarrier {
            packets,
            rooms: Rooms::empty(),
            mesh,
            ticks: 0,
        })
    }
}

impl Carrier for BagCarrier {
    ghost use Rattle.memory_contracts.specs.BagCarriers.{bag_of};
    ghost use Rattle.memory_contracts.specs.Carrier.{CarrierTicks};
    ghost use Rattle.memory_contracts.specs.Carrying.{IsCarrying-kept};

    ghost meaning = { bag_of };

    ghost Moves = { λ u v. v ≡ ticked u };

    fn send(&mut self, p: Node, to: Node, m: Message) -> bool {
        let class = m.kind.class();
        if self.rooms.is_full(p, class) {
            return false;
        }
        self.rooms.enter(p, class);
        self.packets.push_reserved(Packet {
            source: p,
            to,
            length: self.mesh.flits(m.kind),
            start: self.ticks,
            message: m,
        });
        true
    }

    fn take(&mut self, p: Node) -> Option<Message> {
        let place = next_for(self.packets.as_slice(), &self.mesh, p, self.ticks)?;
        let packet = self.packets.remove(place);
        self.rooms.leave(packet.source, packet.class());
        Some(packet.message)
    }

    // No mark is kept: whether a message has arrived follows from the tick.
    fn tick(&mut self) {
        self.ticks += 1;
    }

    ghost sound = { λ s. IsCarrying-kept s.mesh s.ticks s.packets.items s.rooms (vec_capacity s.packets) s.kept };
}
