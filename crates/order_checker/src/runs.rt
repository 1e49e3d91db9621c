// The run of a processor, and the lines of accesses that it has not made.
ghost use Rattle.std.specs.Prelude.{◌≡◌, ℕ, ◌<◌, ◌≤◌, None, Some, IfOk, OnOk, IfErr, length};
ghost use Rattle.rsim_base.specs.Limits.{max_steps};
ghost use Rattle.order_certificate.specs.Certificate.{IsCertificate};
ghost use Rattle.order_checker.specs.Faults.{unmade, unmade_of, place_of, replayed, run_fault, run_fault_of};
ghost use Rattle.order_checker.specs.Firsts.{first};
ghost use Rattle.order_checker.specs.Outcomes.{IsFault};
ghost use Rattle.order_checker.specs.Programs.{IsReplayed};
ghost use Rattle.order_checker.specs.Tables.{AreTables, place_in};
ghost use Rattle.order_checker.specs.Walking.{AreWalks, IsWalk};

use crate::places::{FIRST_LINE, Table};
use crate::replay::{Program, replay};
use crate::verdict::Rejected;
use crate::walk::Walk;
use elf64_load::Image;
use order_certificate::Certificate;
use rsim_base::{Access, Node};
use std::alloc::Global;

/// What the steps that processor `p` retired have made.
///
/// # Errors
/// The first fault of a step: `Ended`, `Missing` or `Differs`; else the first line of an access that it has not made;
/// `Memory`.
pub fn run(
    alloc: Global,
    image: &Image,
    lines: &[Access],
    table: &Table,
    p: Node,
    processors: u8,
    steps: u32,
) -> Result<Program, Rejected>
    requires among { p.0 < processors }
    requires steps { steps ≤ max_steps }
    requires lines { length lines.now ≤ max_steps }
    requires table { (i : ℕ) → place_in table.now i ≡ place_of lines.now p.0 i }
    ensures ran { IfOk result (λ r. IsReplayed image.now processors lines.now p.0 steps r.places.items r.fences.items) }
    ensures none { OnOk result (run_fault_of lines.now p.0 (replayed image.now processors lines.now p.0 steps) ≡ None) }
    ensures fault { IfErr result (IsFault (run_fault_of lines.now p.0 (replayed image.now processors lines.now p.0 steps))) }
{
    let program = replay(alloc, image, lines, table, p, processors, steps)?;
    match first_unmade(lines, p, program.places.len()) {
        None => Ok(program),
        Some(fault) => Err(fault),
    }
}

/// What each processor has made, with a walk over the lines that stands before the first of them.
///
/// # Errors
/// The fault of the first processor that has one: `Ended`, `Missing` or `Differs` by step, else `Foreign`; `Memory`.
pub fn run_all(
    alloc: Global,
    image: &Image,
    order: &Certificate,
    tables: &[Table],
) -> Result<Vec<Walk>, Rejected>
    requires certificate { IsCertificate order.now }
    requires tables { AreTables order.now.lines order.now.processors (length order.now.lines) tables.now }
    ensures walks { IfOk result (λ walks. AreWalks image.now order.now order.now.processors 0 walks.items) }
    ensures none { OnOk result (first (run_fault image.now order.now) order.now.processors ≡ None) }
    ensures fault { IfErr result (IsFault (first (run_fault image.now order.now) order.now.processors)) }
{
    let mut walks = Vec::new(alloc);
    for p in 0..order.processors {
        let walk = start(alloc, image, order, &tables[p as usize], p)?;
        walks.push(walk).map_err(|_| Rejected::Memory)?;
    }
    Ok(walks)
}

// What processor `p` has made, with its walk.
fn start(
    alloc: Global,
    image: &Image,
    order: &Certificate,
    table: &Table,
    p: u8,
) -> Result<Walk, Rejected>
    requires certificate { IsCertificate order.now }
    requires among { p < order.now.processors }
    requires table { (i : ℕ) → place_in table.now i ≡ place_of order.now.lines p i }
    ensures walk { IfOk result (IsWalk image.now order.now p 0) }
    ensures fault { IfErr result (IsFault (run_fault image.now order.now p)) }
{
    let steps = order.counts[p as usize];
    let program = run(
        alloc,
        image,
        &order.lines,
        table,
        Node(p),
        order.processors,
        steps,
    )?;
    Ok(Walk::new(alloc, program))
}

// The first line of an access that the processor has not made, of which it has made so many.
fn first_unmade(lines: &[Access], p: Node, count: usize) -> Option<Rejected>
    requires { length lines.now ≤ max_steps }
    ensures { result ≡ first (unmade lines.now p.0 count) (length lines.now) }
{
    for (place, line) in lines.iter().enumerate() {
        match fault_of(line, place as u32, p, count) {
            Some(fault) => return Some(fault),
            None => {}
        }
    }
    None
}

// The fault of a line, if its access was not made.
fn fault_of(line: &Access, place: u32, p: Node, count: usize) -> Option<Rejected>
    requires { place < max_steps }
    ensures { result ≡ unmade_of p.0 count place (Some line.now) }
{
    if line.node.0 == p.0 && line.index as usize >= count {
        Some(Rejected::Foreign(place + FIRST_LINE))
    } else {
        None
    }
}
