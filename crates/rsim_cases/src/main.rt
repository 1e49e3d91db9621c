//! `rsim_cases` reads cases, one a line, does each as `rsim` would over files in memory, and prints those
//! of which something else came out than they say. The file `stdin` beside `src/` has the cases, and says
//! how they are written.
#![tactic(auto)]

mod answers;
mod counting;
mod executables;
mod failures;
mod fields;
mod left;
mod outcome;
mod outside;
mod runs;
mod setting;
mod shapes;
mod told;
mod verdict;

use anyhow::{Result, bail};
use outcome::Outcome;
use std::alloc::Global;
use std::io;

fn main(rt: HostRuntime) -> Result<()> {
    let text = io::read_to_string(rt.alloc(), rt.reader())?;
    let mut cases = 0u64;
    let mut differing = 0u64;
    for line in text.lines() {
        if line.is_empty() || line.starts_with('#') {
            continue;
        }
        cases = cases.saturating_add(1);
        if let Some(found) = difference(rt.alloc(), line)? {
            differing = differing.saturating_add(1);
            println!(rt; "{line}\nfound: {found}")?;
        }
    }
    println!(rt; "{cases} cases, {differing} differ")?;
    Ok(())
}

// What came out of a case, if it is not what the case says.
fn difference(alloc: Global, line: &str) -> Result<Option<String>> {
    let (kind, case) = fields::halves(line);
    let outcome = outcome_of(alloc, kind, case)?;
    Ok(outcome.difference())
}

fn outcome_of(alloc: Global, kind: &str, case: &str) -> Result<Outcome> {
    match kind {
        "run" => runs::run(alloc, case),
        "link" => runs::link(alloc, case),
        "part" => runs::part(alloc, case),
        "shapes" => shapes::shapes(alloc, case),
        "count" => counting::count(alloc, case),
        "words" => answers::words(alloc, case),
        "files" => answers::files(alloc, case),
        "shelf" => answers::shelf(alloc, case),
        "sink" => answers::sink(alloc, case),
        "over" => answers::over(alloc, case),
        "cut" => failures::cut(alloc, case),
        "refusal" => failures::refusal(alloc, case),
        _ => bail!("no such case: {kind} {case}"),
    }
}
