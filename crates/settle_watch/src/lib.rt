//! The loads of a core that have their values and may still lose them.
#![tactic(auto)]

mod laws;
mod watch;

pub use laws::loads_stand_in_order;
pub use watch::SettleWatch;
