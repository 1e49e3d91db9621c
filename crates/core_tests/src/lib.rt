//! Tests of the core's parts, through what they export.
#![tactic(auto)]

#[cfg(test)]
mod buffers;
#[cfg(test)]
mod flights;
#[cfg(test)]
mod guesses;
#[cfg(test)]
mod issues;
#[cfg(test)]
mod queues;
#[cfg(test)]
mod rings;
#[cfg(test)]
mod watches;
