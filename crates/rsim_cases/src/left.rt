// What a command leaves.
use anyhow::Result;
use std::alloc::Global;
use std::str;

/// What a command leaves, as texts.
#[derive(Drop)]
pub struct Left {
    /// `done`, the cycles and the retired steps, or the exit status and the refusal.
    pub answer: String,
    /// What stands on standard output.
    pub report: String,
    /// The file of the order, or `none`.
    pub order: String,
    /// What `rsimcheck` says of the order, or `none`.
    pub verdict: String,
}

impl Left {
    /// All of it as one text.
    pub fn text(&self, alloc: Global) -> Result<String> {
        Ok(format!(in alloc;
            "{}\n{}order:\n{}\ncheck: {}\n",
            self.answer, self.report, self.order, self.verdict
        )?)
    }

    /// How many accesses the order has.
    pub fn accesses(&self) -> usize {
        // beside them it has three lines before them and one behind them
        self.order.lines().count().saturating_sub(4)
    }
}

/// Bytes that should be a text.
pub fn text_of(bytes: &[u8]) -> &str {
    str::from_utf8(bytes).unwrap_or("not a text")
}
