// Cases of an order that is written in several pieces, and of refusals that no other case makes.
use crate::executables::executable;
use crate::fields::field;
use crate::left::Left;
use crate::outcome::{Outcome, outcome_of};
use crate::outside::{Command, refused};
use anyhow::{Result, bail};
use elf64_load::ElfFault;
use rsim_top::{File, Refusal};
use std::alloc::Global;

/// `CALL | LEAST | CYCLES | CODE`: the call of the shelf with this number fails, and what is left of the order is
/// a part from its start, of so many bytes at least, and not the whole.
pub fn cut(alloc: Global, case: &str) -> Result<Outcome> {
    let (call, case) = field(case);
    let (least, case) = field(case);
    let (cycles, code) = field(case);
    let exe = executable(alloc, code)?;
    let words = format!(in alloc; "exe config {cycles} order")?;
    let command = Command {
        words: words.as_str(),
        config: b"",
        exe: &exe,
        order: "order",
    };
    let calls = vec![in alloc; call.parse::<u32>()?]?;
    let whole = command.left(alloc)?;
    let cut = command.left_by_failing(alloc, calls, Vec::new(alloc))?;
    outcome_of(
        alloc,
        "a part",
        found_in(&whole, &cut, least.parse::<usize>()?),
    )
}

// What a run left whose order could not be written whole, beside what it leaves where it can.
fn found_in(whole: &Left, cut: &Left, least: usize) -> &'static str {
    if cut.answer.as_str() != "6 cannot write order" || !cut.report.is_empty() {
        "another answer"
    } else if !whole.order.starts_with(cut.order.as_str()) {
        "no part"
    } else if cut.order.len() < least || whole.order.len() <= cut.order.len() {
        "another length"
    } else if !whole.verdict.starts_with("accepted ")
        || cut.verdict.as_str() != "rejected Truncated"
    {
        "another verdict"
    } else {
        "a part"
    }
}

/// `STATUS TEXT | NAME` of a refusal.
pub fn refusal(alloc: Global, case: &str) -> Result<Outcome> {
    let (wanted, name) = field(case);
    let refusal = match name.trim() {
        "long order" => Refusal::Big(File::Order),
        "shared block" => Refusal::Elf(ElfFault::SharedBlock(0, 1)),
        "memory" => Refusal::Memory,
        _ => bail!("no such refusal: {name}"),
    };
    outcome_of(alloc, wanted, &refused(alloc, refusal)?)
}
