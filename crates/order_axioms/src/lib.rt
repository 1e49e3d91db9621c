//! Which accesses of one program must keep their order under each consistency model, and the counts of fences that
//! decide it.
#![tactic(auto)]

mod axioms;
mod counting;
pub mod laws;
mod mask;

pub use axioms::needs;
pub use counting::Fences;
