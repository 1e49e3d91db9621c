// The texts that a run should leave, put together here from the descriptions of their forms.
use crate::fields::{field, halves};
use crate::left::Left;
use crate::setting::Setting;
use anyhow::Result;
use std::alloc::Global;
use std::fmt::Write;

// What a report says behind the outputs: nothing waits to be performed, and nothing is counted.
const COUNTS: &str =
    "unperformed 0\ncount fetched 0\ncount dispatched 0\ncount issued 0\ncount bound 0\ncount forwarded 0\ncount settled 0\ncount performed 0\ncount squashed 0\ncount mispredicts 0\ncount rollbacks 0\ncount wishes 0\ncount lost 0\nend\n";

/// A run as a case tells it, up to its accesses.
#[derive(Clone, Copy)]
pub struct Told<'a> {
    setting: Setting<'a>,
    cycles: &'a str,
    // `STEPS ENDING; STEPS ENDING; ..`, one for each processor.
    endings: &'a str,
    // `OUTPUT; OUTPUT; ..`, with `\n` for a line feed. The processors behind the last one put nothing.
    outputs: &'a str,
}

impl<'a> Told<'a> {
    /// A run of this setting that `CYCLES: STEPS ENDING; .. | OUTPUT; ..` tells, and what stands behind that.
    pub fn read(setting: Setting<'a>, text: &'a str) -> (Told<'a>, &'a str) {
        let (end, rest) = field(text);
        let (outputs, rest) = field(rest);
        let (cycles, endings) = end.split_once(':').unwrap_or((end, ""));
        let told = Told {
            setting,
            cycles,
            endings,
            outputs,
        };
        (told, rest)
    }

    /// What the run leaves, with this order of so many accesses.
    pub fn left(self, alloc: Global, order: String, accesses: usize) -> Result<Left> {
        let steps = self.steps()?;
        Ok(Left {
            answer: format!(in alloc; "done {} {steps}", self.cycles)?,
            report: self.report(alloc)?,
            order,
            verdict: format!(in alloc; "accepted {steps} {accesses}")?,
        })
    }

    fn report(self, alloc: Global) -> Result<String> {
        let mut text = format!(in alloc; "rsim report 1\ncycles {}\n", self.cycles)?;
        self.push_processors(&mut text)?;
        self.push_outputs(alloc, &mut text)?;
        text.push_str(COUNTS)?;
        Ok(text)
    }

    /// The order of these accesses, parted by `|`.
    pub fn order(self, alloc: Global, accesses: &str) -> Result<String> {
        let model = self.setting.model;
        let processors = self.endings.split(';').count();
        let mut text = format!(in alloc; "rsim order 1\nmodel {model}\nprocessors {processors}\n")?;
        push_lines(&mut text, accesses)?;
        self.push_end(&mut text)?;
        Ok(text)
    }

    // The steps that all processors retire.
    fn steps(self) -> Result<u64> {
        let mut sum = 0u64;
        for ending in self.endings.split(';') {
            let (steps, _) = halves(ending.trim());
            sum = sum.saturating_add(steps.parse::<u64>()?);
        }
        Ok(sum)
    }

    fn push_processors(self, text: &mut String) -> Result<()> {
        for (p, ending) in self.endings.split(';').enumerate() {
            writeln!(text, "processor {p} retired {}", ending.trim())?;
        }
        Ok(())
    }

    fn push_outputs(self, alloc: Global, text: &mut String) -> Result<()> {
        let mut outputs = self.outputs.split(';');
        for p in 0..self.endings.split(';').count() {
            let output = outputs.next().unwrap_or("");
            let output = output.trim().replace(alloc, "\\n", "\n")?;
            writeln!(text, "output {p} {}\n{output}", output.len())?;
        }
        Ok(())
    }

    // The last line of an order.
    fn push_end(self, text: &mut String) -> Result<()> {
        text.push_str("end")?;
        for ending in self.endings.split(';') {
            let (steps, _) = halves(ending.trim());
            write!(text, " {steps}")?;
        }
        text.push('\n')?;
        Ok(())
    }
}

/// How many accesses these are, parted by `|`.
pub fn count(accesses: &str) -> usize {
    accesses
        .split('|')
        .filter(|access| !access.trim().is_empty())
        .count()
}

/// Puts each of these accesses, parted by `|`, on a line.
pub fn push_lines(text: &mut String, accesses: &str) -> Result<()> {
    for access in accesses.split('|') {
        if !access.trim().is_empty() {
            text.push_str(access.trim())?;
            text.push('\n')?;
        }
    }
    Ok(())
}
