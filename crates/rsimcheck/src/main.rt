//! `rsimcheck EXE ORDER` tells whether an order of memory accesses is one that a machine may write for a SPARC V9
//! executable.
#![tactic(auto)]

use rsim_io::{FileShelf, StdSink};
use rsim_top::{Refusal, Verdict, check_command, program_words};
use std::process::ExitCode;

fn main(rt: HostRuntime) -> ExitCode {
    match check(&rt) {
        Ok(verdict) => ExitCode::from(verdict.code()),
        Err(refusal) => {
            let _ = eprintln!(rt; "rsimcheck: {refusal}");
            ExitCode::from(refusal.code())
        }
    }
}

fn check(rt: &HostRuntime) -> Result<Verdict, Refusal> {
    let words = program_words(rt)?;
    let mut shelf = FileShelf::new(rt);
    let mut told = StdSink::new(rt);
    check_command(rt.alloc(), &words, &mut shelf, &mut told)
}
