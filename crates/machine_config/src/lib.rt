//! The settings of a machine: from the text of a configuration to its values.
#![tactic(auto)]

mod config;
mod fault;
mod keys;
mod reader;
mod text;
mod values;

pub use config::{Config, PredictorKind, Protocol, fits};
pub use fault::ConfigFault;
pub use reader::read;
