//! Tests of what comes in and goes out: values, files and streams, settings, executables and command lines.
#![tactic(auto)]

#[cfg(test)]
mod accesses;
#[cfg(test)]
mod executables;
#[cfg(test)]
mod settings;
#[cfg(test)]
mod shelves;
#[cfg(test)]
mod sinks;
#[cfg(test)]
mod transfers;
#[cfg(test)]
mod words;
