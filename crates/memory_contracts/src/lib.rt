//! What the parts of a processor may know of the memory that they share, and the simplest memory that keeps it.
#![tactic(auto)]

mod bag;
mod carrier;
mod exchange;
mod flat;
pub mod laws;
mod memory;
mod mesh;
mod message;
mod owners;
mod packet;
mod places;
mod rooms;
mod store;
mod wishes;

pub use bag::BagCarrier;
pub use carrier::Carrier;
pub use flat::FlatStore;
pub use message::{Class, Message, MsgKind};
pub use store::{CoherentStore, LostList};
pub use wishes::Wanted;
