// How a run is set up.
use crate::fields::halves;
use anyhow::Result;
use std::alloc::Global;

/// `MODEL BOUND`, and behind it the lines of the configuration beside the model, parted by commas.
#[derive(Clone, Copy)]
pub struct Setting<'a> {
    pub model: &'a str,
    /// The most cycles that the run may take.
    pub bound: &'a str,
    lines: &'a str,
}

impl<'a> Setting<'a> {
    pub fn read(text: &'a str) -> Setting<'a> {
        let (model, rest) = halves(text);
        let (bound, lines) = halves(rest);
        Setting {
            model,
            bound,
            lines,
        }
    }

    /// The text of the configuration.
    pub fn config(self, alloc: Global) -> Result<String> {
        let lines = self.lines.replace(alloc, ",", "\n")?;
        Ok(format!(in alloc; "model {}\n{lines}\n", self.model)?)
    }
}
