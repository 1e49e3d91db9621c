//! `rsim EXE CONFIG CYCLES ORDER` runs a SPARC V9 executable on one in-order processor.
#![tactic(auto)]

use rsim_io::{FileShelf, StdSink};
use rsim_top::{Refusal, program_words, run_command};
use std::process::ExitCode;

fn main(rt: HostRuntime) -> ExitCode {
    match run(&rt) {
        Ok(()) => ExitCode::SUCCESS,
        Err(refusal) => {
            let _ = eprintln!(rt; "rsim: {refusal}");
            ExitCode::from(refusal.code())
        }
    }
}

fn run(rt: &HostRuntime) -> Result<(), Refusal> {
    let words = program_words(rt)?;
    let mut shelf = FileShelf::new(rt);
    let mut report = StdSink::new(rt);
    run_command(rt.alloc(), &words, &mut shelf, &mut report)?;
    Ok(())
}
