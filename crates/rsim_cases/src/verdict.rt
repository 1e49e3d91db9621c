// What the checker says of an order.
use crate::left::text_of;
use crate::outside::refused;
use anyhow::Result;
use rsim_io::{MemShelf, MemSink};
use rsim_top::check_command;
use std::alloc::Global;

/// What `rsimcheck` prints for an executable and an order, or the exit status and the refusal.
pub fn verdict_on(alloc: Global, exe: &[u8], order: &[u8]) -> Result<String> {
    let mut shelf = MemShelf::make(alloc, Vec::new(alloc))?;
    shelf.set("exe", exe)?;
    shelf.set("order", order)?;
    let mut out = MemSink::make(alloc, Vec::new(alloc))?;
    let words = vec![in alloc;
        String::from_str(alloc, "exe")?,
        String::from_str(alloc, "order")?,
    ]?;
    let answer = check_command(alloc, &words, &mut shelf, &mut out);
    let told = match answer {
        Ok(verdict) => told(alloc, text_of(out.bytes()), verdict.code())?,
        Err(refusal) => refused(alloc, refusal)?,
    };
    if shelf.file("exe") == Some(exe) && shelf.file("order") == Some(order) {
        return Ok(told);
    }
    Ok(format!(in alloc; "{told}, and a file was changed")?)
}

// What was printed, and the exit status where it is not the one that goes with it.
fn told(alloc: Global, printed: &str, code: u8) -> Result<String> {
    let fits = if printed.starts_with("accepted ") {
        code == 0
    } else {
        code == 1
    };
    match printed.strip_suffix('\n') {
        Some(line) if fits => Ok(String::from_str(alloc, line)?),
        _ => Ok(format!(in alloc; "{printed} with the status {code}")?),
    }
}
