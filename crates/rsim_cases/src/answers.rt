// Cases of what a command answers, and of what is left then.
use crate::executables::executable;
use crate::fields::field;
use crate::left::Left;
use crate::outcome::{Outcome, outcome_of};
use crate::outside::Command;
use anyhow::Result;
use std::alloc::Global;

// A program that exits at once.
const EXIT: &str = "91D02010";

/// `ANSWER | WORD .. | ORDER`, over a program that exits at once and an empty configuration: the order has this name,
/// or `order` where none is given.
pub fn words(alloc: Global, case: &str) -> Result<Outcome> {
    let (answer, case) = field(case);
    let (words, order) = field(case);
    let order = order.trim();
    let exe = executable(alloc, EXIT)?;
    let command = Command {
        words,
        config: b"",
        exe: &exe,
        order: if order.is_empty() { "order" } else { order },
    };
    answered(alloc, answer, &command.left_both_ways(alloc)?)
}

/// `ANSWER | CYCLES | CONFIG | EXE`.
pub fn files(alloc: Global, case: &str) -> Result<Outcome> {
    let (answer, case) = field(case);
    let (cycles, case) = field(case);
    let (config, exe) = field(case);
    let config = config_of(alloc, config)?;
    let exe = exe_of(alloc, exe.trim())?;
    let words = format!(in alloc; "exe config {cycles} order")?;
    let command = Command {
        words: words.as_str(),
        config: &config,
        exe: &exe,
        order: "order",
    };
    answered(alloc, answer, &command.left_both_ways(alloc)?)
}

// What a command answered. What is refused is to leave no report and no order; of a run only the answer and the verdict
// on its order are looked at: `done CYCLES STEPS, accepted STEPS ACCESSES`.
fn answered(alloc: Global, answer: &str, found: &Left) -> Result<Outcome> {
    if answer.starts_with("done") && found.answer.starts_with("done") {
        let found = format!(in alloc; "{}, {}", found.answer, found.verdict)?;
        return outcome_of(alloc, answer, &found);
    }
    against(alloc, answer, "none", "none", found)
}

/// `CALL | ANSWER | ORDER | VERDICT`: the call of the shelf with this number fails, and so much of the order is left.
pub fn shelf(alloc: Global, case: &str) -> Result<Outcome> {
    let (call, wanted) = field(case);
    let calls = vec![in alloc; call.parse::<u32>()?]?;
    let exe = executable(alloc, EXIT)?;
    let found = run_of(&exe).left_by_failing(alloc, calls, Vec::new(alloc))?;
    leaving(alloc, wanted, &found)
}

/// `CALL | ANSWER | ORDER | VERDICT`: the call of the sink with this number fails, and so much of the order is left.
pub fn sink(alloc: Global, case: &str) -> Result<Outcome> {
    let (call, wanted) = field(case);
    let calls = vec![in alloc; call.parse::<u32>()?]?;
    let exe = executable(alloc, EXIT)?;
    let found = run_of(&exe).left_by_failing(alloc, Vec::new(alloc), calls)?;
    leaving(alloc, wanted, &found)
}

/// `ANSWER | ORDER | VERDICT`: the order is written over the executable. The report is not looked at.
pub fn over(alloc: Global, case: &str) -> Result<Outcome> {
    let exe = executable(alloc, EXIT)?;
    let over = Command {
        words: "exe config 5 exe",
        config: b"",
        exe: &exe,
        order: "exe",
    };
    let mut found = over.left(alloc)?;
    found.report.clear();
    leaving(alloc, case, &found)
}

// A run of this executable.
fn run_of(exe: &[u8]) -> Command<'_> {
    Command {
        words: "exe config 5 order",
        config: b"",
        exe,
        order: "order",
    }
}

// `ANSWER | ORDER | VERDICT`, with `\n` for a line feed, and what was left.
fn leaving(alloc: Global, wanted: &str, found: &Left) -> Result<Outcome> {
    let (answer, wanted) = field(wanted);
    let (order, verdict) = field(wanted);
    let order = order.replace(alloc, "\\n", "\n")?;
    against(alloc, answer, &order, verdict.trim(), found)
}

// What should be left, without a report, and what was.
fn against(
    alloc: Global,
    answer: &str,
    order: &str,
    verdict: &str,
    found: &Left,
) -> Result<Outcome> {
    let wanted = Left {
        answer: String::from_str(alloc, answer)?,
        report: String::new(alloc),
        order: String::from_str(alloc, order)?,
        verdict: String::from_str(alloc, verdict)?,
    };
    Ok(Outcome {
        wanted: wanted.text(alloc)?,
        found: found.text(alloc)?,
    })
}

// A configuration: a text with `\n` for a line feed and `\1` for the byte 1, or `COUNT signs`, so many `#`.
fn config_of(alloc: Global, text: &str) -> Result<Vec<u8>> {
    if let Some(count) = text.strip_suffix(" signs") {
        return Ok(vec![in alloc; b'#'; count.parse::<usize>()?]?);
    }
    let lines = text.replace(alloc, "\\n", "\n")?;
    Ok(lines.replace(alloc, "\\1", "\x01")?.into_bytes())
}

// An executable: its code, or `COUNT zeros`, a file of so many zeros.
fn exe_of(alloc: Global, text: &str) -> Result<Vec<u8>> {
    match text.strip_suffix(" zeros") {
        Some(count) => Ok(vec![in alloc; 0u8; count.parse::<usize>()?]?),
        None => executable(alloc, text),
    }
}
