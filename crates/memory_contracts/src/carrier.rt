// What carries messages between nodes, as the nodes know it.
ghost use Rattle.std.specs.Prelude.{◌≡◌, ◌<◌, ◌≤◌, not};
ghost use Rattle.memory_contracts.specs.Carrier.{CarrierView, IsCarrying, CarrierTicks, Takes, after_send, class_of, is_full};

use crate::message::Message;
use rsim_base::Node;

/// Carries messages between nodes, which stand in a mesh. No message is lost, repeated or made up, and none comes before it
/// may have crossed the mesh. No call takes memory.
pub trait Carrier {
    ghost meaning: { Self → CarrierView };

    // What a tick makes of the messages under way, and of what carries them.
    ghost Moves: { CarrierView → CarrierView → Type 0 };

    /// Sends a message from node `p` to another, and answers whether it did: not where eight messages of its class that
    /// `p` has sent are under way still. Then nothing changes.
    fn send(&mut self, p: Node, to: Node, m: Message) -> bool
        requires source { p.0 < (meaning self.old).nodes }
        requires destination { to.0 < (meaning self.old).nodes }
        ensures value { result ≡ not (is_full (meaning self.old) p.0 (class_of m.kind)) }
        ensures after { meaning self.new ≡ after_send (meaning self.old) p.0 to.0 m };

    /// Takes a message that has arrived at node `p`: of those of the highest class there, the one that was sent first.
    /// `None` exactly where none has arrived.
    fn take(&mut self, p: Node) -> Option<Message>
        requires node { p.0 < (meaning self.old).nodes }
        ensures taken { Takes p.0 (meaning self.old) (meaning self.new) result };

    /// Lets a tick pass, in which messages may arrive.
    fn tick(&mut self)
        requires few { (meaning self.old).ticks < 4294967295 }
        ensures ticks { CarrierTicks (meaning self.old) (meaning self.new) }
        ensures moves { Moves (meaning self.old) (meaning self.new) };

    ghost sound: { (s : Self) → IsCarrying (meaning s) };
}
