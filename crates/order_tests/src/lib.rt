//! Tests of the axioms, the order's text, the log, the checker and the machine, through what they export.
#![tactic(auto)]

#[cfg(test)]
mod axioms;
#[cfg(test)]
mod logs;
#[cfg(test)]
mod machines;
#[cfg(test)]
mod order_texts;
#[cfg(test)]
mod verdicts;
