// Messages under way, and which of them a node takes next.
ghost use Rattle.std.specs.Prelude.{◌≡◌, ◌<◌, length, IfSome};
ghost use Rattle.memory_contracts.specs.Bags.{marked};
ghost use Rattle.memory_contracts.specs.Carrier.{class_of, earliest, next_for};
ghost use Rattle.memory_contracts.specs.Packets.{arrived_at, better, flight_of, flights_of};

use crate::mesh::Mesh;
use crate::message::{Class, Message};
use rsim_base::Node;

/// A message under way.
#[derive(Clone, Copy)]
pub struct Packet {
    pub source: Node,
    pub to: Node,
    /// In flits.
    pub length: u32,
    /// The tick in which it was sent.
    pub start: u32,
    pub message: Message,
}

impl Packet {
    // The tick in which the last flit arrives.
    fn earliest(&self, mesh: &Mesh) -> u64
        ensures { result ≡ earliest mesh.now.width (flight_of self.now) }
    {
        u64::from(self.start)
            + u64::from(mesh.distance(self.source, self.to))
            + u64::from(self.length)
    }

    /// The class of its message.
    pub fn class(&self) -> Class
        ensures { result ≡ class_of self.now.message.kind }
    {
        self.message.kind.class()
    }
}

/// A message that has arrived, by its place in a list.
#[derive(Clone, Copy)]
pub struct Arrived {
    place: usize,
    class: Class,
}

// A message as one that has arrived at node `p`, if the whole of it has.
fn arrived_at(p: Node, place: usize, packet: &Packet, mesh: &Mesh, now: u32) -> Option<Arrived>
    ensures { result ≡ arrived_at p.0 place (marked mesh.now.width now (flight_of packet.now)) }
{
    if packet.to.0 == p.0 && packet.earliest(mesh) <= u64::from(now) {
        let class = packet.class();
        Some(Arrived { place, class })
    } else {
        None
    }
}

// Which is to be taken, of the one so far and the next in the list.
fn better(best: Option<Arrived>, next: Option<Arrived>) -> Option<Arrived>
    ensures { result ≡ better best next }
{
    match (best, next) {
        (Some(first), Some(second)) if first.class >= second.class => best,
        (_, None) => best,
        _ => next,
    }
}

/// The place of the message that node `p` takes next: of those of the highest class that have arrived there, the first.
pub fn next_for(packets: &[Packet], mesh: &Mesh, p: Node, now: u32) -> Option<usize>
    ensures next { result ≡ next_for p.0 (flights_of mesh.now.width now packets.now) }
    ensures within { IfSome result (λ place. place < length packets.now) }
{
    let mut best = None;
    for (place, packet) in packets.iter().enumerate() {
        best = better(best, arrived_at(p, place, packet, mesh, now));
    }
    best.map(|arrived| arrived.place)
}
