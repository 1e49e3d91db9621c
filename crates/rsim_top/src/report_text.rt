// The text of a report.
ghost use Rattle.std.specs.Prelude.{◌≡◌, ◌++◌, IfOk, OnOk, Some, codes};
ghost use Rattle.rsim_top.specs.Machine.{counts_of, ends_of, shared_view, outputs_of, report_of};
ghost use Rattle.rsim_top.specs.ReportText.{end_text, no_counts, output_text, outputs_text, processor_line, processor_lines, report_foot, report_head};

use crate::machine::SharedMachine;
use rsim_base::texts::{push, push_decimal};
use rsim_base::{NoMemory, Node};
use sparc_meaning::End;
use std::alloc::Global;
use std::fmt;

// What stands behind the retired stores that wait: nothing is counted yet.
const NO_COUNTS: &str =
    "count fetched 0\ncount dispatched 0\ncount issued 0\ncount bound 0\ncount forwarded 0\ncount settled 0\ncount performed 0\ncount squashed 0\ncount mispredicts 0\ncount rollbacks 0\ncount wishes 0\ncount lost 0\nend\n";

// How a processor stands, as a report has it.
#[derive(Clone, Copy)]
struct Ending(End);

impl fmt::Display for Ending {
    ghost output = { λ ending. Some (end_text ending.0) };

    fn fmt<W: fmt::Write>(&self, f: &mut fmt::Formatter<W>) -> fmt::Result {
        match self.0 {
            End::Running => write!(f, "running"),
            End::Exit(status) => write!(f, "exit {status}"),
            End::Trapped(trap, pc) => write!(f, "trap {trap:03x} {pc:016x}"),
        }
    }
}

/// The report of a machine that has run.
///
/// # Errors
/// Where memory is short.
pub(crate) fn report_text(alloc: Global, machine: &SharedMachine) -> Result<Vec<u8>, NoMemory>
    ensures { IfOk result (λ text. text.items ≡ report_of (shared_view machine.now)) }
{
    let mut text = Vec::new(alloc);
    push_head(&mut text, machine.cycles())?;
    push_processors(&mut text, alloc, machine)?;
    push_outputs(&mut text, machine)?;
    push_foot(&mut text, machine.unperformed())?;
    Ok(text)
}

fn push_head(text: &mut Vec<u8>, cycles: u32) -> Result<(), NoMemory>
    ensures { OnOk result (text.new.items ≡ text.old.items ++ report_head cycles) }
{
    push(text, b"rsim report 1\ncycles ")?;
    push_decimal(text, u64::from(cycles), b'\n')
}

// The line of each processor.
fn push_processors(
    text: &mut Vec<u8>,
    alloc: Global,
    machine: &SharedMachine,
) -> Result<(), NoMemory>
    ensures { OnOk result (text.new.items ≡ text.old.items ++ processor_lines 0 (counts_of (shared_view machine.now)) (ends_of (shared_view machine.now))) }
{
    for p in 0..machine.processors() {
        let retired = machine.retired(Node(p));
        let end = machine.end(Node(p));
        push_processor(text, alloc, p, retired, end)?;
    }
    Ok(())
}

fn push_processor(
    text: &mut Vec<u8>,
    alloc: Global,
    p: u8,
    retired: u32,
    end: End,
) -> Result<(), NoMemory>
    ensures { OnOk result (text.new.items ≡ text.old.items ++ processor_line p retired end) }
{
    let ending = Ending(end);
    let Ok(line) = format!(in alloc; "processor {p} retired {retired} {ending}\n") else {
        return Err(NoMemory);
    };
    push(text, line.as_bytes())
}

// The output of each processor, behind its length.
fn push_outputs(text: &mut Vec<u8>, machine: &SharedMachine) -> Result<(), NoMemory>
    ensures { OnOk result (text.new.items ≡ text.old.items ++ outputs_text 0 (outputs_of (shared_view machine.now))) }
{
    for p in 0..machine.processors() {
        push_output(text, p, machine.output(Node(p)))?;
    }
    Ok(())
}

fn push_output(text: &mut Vec<u8>, p: u8, output: &[u8]) -> Result<(), NoMemory>
    ensures { OnOk result (text.new.items ≡ text.old.items ++ output_text p output.now) }
{
    push(text, b"output ")?;
    push_decimal(text, u64::from(p), b' ')?;
    push_decimal(text, output.len() as u64, b'\n')?;
    push(text, output)?;
    push(text, b"\n")
}

fn push_foot(text: &mut Vec<u8>, unperformed: u32) -> Result<(), NoMemory>
    ensures { OnOk result (text.new.items ≡ text.old.items ++ report_foot unperformed no_counts) }
{
    push(text, b"unperformed ")?;
    push_decimal(text, u64::from(unperformed), b'\n')?;
    push(text, NO_COUNTS.as_bytes())
}
