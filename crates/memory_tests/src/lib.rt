//! Tests of caches, misses, memory, the protocol's homes and nodes, and all of them together, through what they export.
#![tactic(auto)]

#[cfg(test)]
mod carriers;
#[cfg(test)]
mod coherent_stores;
#[cfg(test)]
mod flat_stores;
#[cfg(test)]
mod homes;
#[cfg(test)]
mod misses;
#[cfg(test)]
mod nodes;
#[cfg(test)]
mod shared;
#[cfg(test)]
mod stores;
#[cfg(test)]
mod two_levels;
#[cfg(test)]
mod ways;
