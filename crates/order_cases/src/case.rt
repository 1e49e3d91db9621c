// A case: an executable, and an order to be checked for it.
use crate::executable::executable;
use crate::outside::Outside;
use std::alloc::{AllocError, Global};

/// What the lines so far have told of a case.
#[derive(Drop)]
pub struct Case {
    pub name: String,
    executable: Vec<u8>,
    outside: Outside,
}

impl Case {
    /// Before the first line.
    pub fn new(alloc: Global) -> anyhow::Result<Case> {
        Ok(Case {
            name: String::new(alloc),
            executable: Vec::new(alloc),
            outside: Outside::new(alloc)?,
        })
    }

    /// Reads a line more. What the program tells comes with the last line of a case.
    pub fn read(&mut self, alloc: Global, line: &str) -> anyhow::Result<Option<String>> {
        if line.is_empty() || line.starts_with('#') {
            return Ok(None);
        }
        if line == "check" {
            return Ok(Some(self.outside.check(alloc, &self.executable)?));
        }
        if let Some(name) = line.strip_prefix("case ") {
            self.begin(alloc, name)?;
        } else if let Some(words) = line.strip_prefix("code ") {
            self.executable = executable(alloc, words)?;
        } else if let Some(words) = line.strip_prefix("words ") {
            self.outside.words = String::from_str(alloc, words)?;
        } else if let Some(call) = line.strip_prefix("shelf ") {
            self.outside.failing_shelf.push(call.parse::<u32>()?)?;
        } else if let Some(call) = line.strip_prefix("sink ") {
            self.outside.failing_sink.push(call.parse::<u32>()?)?;
        } else {
            self.add(line)?;
        }
        Ok(None)
    }

    fn begin(&mut self, alloc: Global, name: &str) -> Result<(), AllocError> {
        self.name = String::from_str(alloc, name)?;
        self.outside = Outside::new(alloc)?;
        Ok(())
    }

    // A line of the order.
    fn add(&mut self, line: &str) -> Result<(), AllocError> {
        self.outside.order.push_str(line)?;
        self.outside.order.push('\n')?;
        Ok(())
    }
}
