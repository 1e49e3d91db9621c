//! Checks the orders that are written out on standard input, and prints a line with the verdict for each.
//!
//! A case begins with a line `case NAME`. A line `code` has the instruction words of its executable, whose text is at
//! 0x100000, with 4,096 zero bytes of data at 0x200000; a case without one has the code of the case before. A line `words`
//! has the words of the command line where they are not `exe order`, the names of the two files; lines `shelf N` and `sink N`
//! say that this call of the shelf or of the sink fails, from 0. All other lines up to the line `check` are those of its
//! order. Lines that begin with `#`, and empty ones, say nothing. What is printed is the verdict with the exit status in
//! brackets, or the status and the refusal.
#![tactic(auto)]

mod case;
mod executable;
mod outside;

use crate::case::Case;

fn main(rt: HostRuntime) -> anyhow::Result<()> {
    let alloc = rt.alloc();
    let mut case = Case::new(alloc)?;
    for line in rt.lines(alloc) {
        let line = line?;
        if let Some(verdict) = case.read(alloc, line.as_str())? {
            println!(rt; "{}: {verdict}", case.name)?;
        }
    }
    Ok(())
}
