//! Tests of instructions: what their words say, what they compute, what a step does, where they are fetched and how their
//! registers are renamed; through what the crates export.
#![tactic(auto)]

#[cfg(test)]
mod access_values;
#[cfg(test)]
mod accesses;
#[cfg(test)]
mod codes;
#[cfg(test)]
mod conditions;
#[cfg(test)]
mod control;
#[cfg(test)]
mod paths;
#[cfg(test)]
mod registers;
#[cfg(test)]
mod renaming;
#[cfg(test)]
mod results;
#[cfg(test)]
mod steps;
#[cfg(test)]
mod windows;
#[cfg(test)]
mod words;
