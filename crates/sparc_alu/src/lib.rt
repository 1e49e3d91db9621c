//! What SPARC V9 instructions compute: results, condition codes, conditions and extended values.
#![tactic(auto)]

mod access;
mod arithmetic;
mod codes;
mod condition;
pub mod laws;
mod numbers;
mod products;
mod shifts;

pub use access::{cas_result, effective, load_extend};
pub use arithmetic::{AluOut, DivisionByZero, alu};
pub use condition::branch_taken;
pub use numbers::bits_of;
