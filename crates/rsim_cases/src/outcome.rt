// The texts that a case says and that came out of it.
use anyhow::Result;
use std::alloc::Global;

#[derive(Drop)]
pub struct Outcome {
    pub wanted: String,
    pub found: String,
}

impl Outcome {
    /// What came out, if it is not what was wanted.
    pub fn difference(self) -> Option<String> {
        if self.found == self.wanted {
            None
        } else {
            Some(self.found)
        }
    }
}

/// The outcome of a case that says one text, and of which the other came out.
pub fn outcome_of(alloc: Global, wanted: &str, found: &str) -> Result<Outcome> {
    let wanted = String::from_str(alloc, wanted)?;
    let found = String::from_str(alloc, found)?;
    Ok(Outcome { wanted, found })
}
