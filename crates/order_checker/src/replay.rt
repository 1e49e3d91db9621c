// The steps of a processor, on the values that its lines have.
ghost use Rattle.std.specs.Prelude.{◌≡◌, ◌⊎◌, ℕ, ◌+◌, ◌<◌, ◌≤◌, ◌++◌, ◌∷◌, [], ◌==◌, IsTrue, not, if◌then◌else◌, None, Some, Ok, Err, IfOk, OnOk, IfErr, IfSome, length, slice_get, option_map, option_and_then, option_to_list, unwrap_or};
ghost use Rattle.rsim_base.specs.Limits.{max_steps};
ghost use Rattle.order_axioms.specs.Counted.{counts};
ghost use Rattle.sparc_meaning.specs.Arch.{IsSound, is_running};
ghost use Rattle.sparc_meaning.specs.Run.{accesses_of, fences_after};
ghost use Rattle.order_checker.specs.Faults.{differing, same_kind, loaded_of, next_step, step_fault, place_of, replayed};
ghost use Rattle.order_checker.specs.Programs.{kept, AreAtMost, IsReplayed};
ghost use Rattle.order_checker.specs.Tables.{place_in};

use crate::places::{FIRST_LINE, Table};
use crate::verdict::{Part, Rejected};
use elf64_load::Image;
use order_axioms::Fences;
use rsim_base::{Access, Addr, Kind, NoMemory, Node, Size};
use sparc_meaning::{Act, Arch, boot, step};
use std::alloc::Global;

/// The accesses that a processor made, by number: where the line of each stands, and the fences before it.
#[derive(Drop)]
pub struct Program {
    pub places: Vec<u32>,
    pub fences: Vec<Fences>,
}

// Whether a line's kind is this one.
fn is_kind(made: Kind, kind: Kind) -> bool
    ensures { result ≡ same_kind made kind }
{
    match made {
        Kind::Load => !kind.stores(),
        Kind::Store => !kind.loads(),
        Kind::Atomic => kind.loads() && kind.stores(),
    }
}

// The first part in which a line differs from the access that was made.
fn difference(made: &Access, line: &Access) -> Option<Part>
    ensures { result ≡ differing made.now line.now }
{
    if !is_kind(made.kind, line.kind) {
        return Some(Part::Kind);
    }
    if line.size.count() != made.size.count() {
        return Some(Part::Size);
    }
    if line.addr.0 != made.addr.0 {
        return Some(Part::Addr);
    }
    if line.stored != made.stored {
        return Some(Part::Stored);
    }
    None
}

// The fault of a step that makes this access, whose line stands there.
fn access_fault(
    p: Node,
    i: u32,
    made: &Access,
    place: Option<u32>,
    line: Option<Access>,
) -> Option<Rejected>
    requires { IfSome place (λ j. j < max_steps) }
    ensures { result ≡ step_fault p.0 i (made.now ∷ []) place line }
{
    let (Some(place), Some(line)) = (place, line) else {
        return Some(Rejected::Missing(p, i));
    };
    match difference(made, &line) {
        Some(part) => Some(Rejected::Differs(place + FIRST_LINE, part)),
        None => None,
    }
}

// The next step of processor `p`, after `s` steps and `i` accesses; the line of the next access stands at this place.
fn next(
    arch: &mut Arch,
    image: &Image,
    lines: &[Access],
    p: Node,
    s: u32,
    i: u32,
    place: Option<u32>,
) -> Result<Act, Rejected>
    requires sound { IsSound arch.old }
    requires place { IfSome place (λ j. j < max_steps) }
    requires within { IfSome place (λ j. j < length lines.now) }
    ensures step { IfOk result (λ act. next_step image.now lines.now p.0 s i place arch.old ≡ Ok (record { state = arch.new; act = act })) }
    ensures fault { IfErr result (λ r. next_step image.now lines.now p.0 s i place arch.old ≡ Err r) }
    ensures sound { OnOk result (IsSound arch.new) }
{
    if !arch.end.is_running() {
        return Err(Rejected::Ended(p, s));
    }
    let line = line_at(lines, place);
    let act = step(arch, image, loaded(line));
    match fault_of(p, i, act, place, line) {
        None => Ok(act),
        Some(fault) => Err(fault),
    }
}

fn line_at(lines: &[Access], place: Option<u32>) -> Option<Access>
    requires { IfSome place (λ j. j < length lines.now) }
    ensures { result ≡ option_and_then (slice_get lines.now) place }
{
    match place {
        Some(place) => Some(lines[place as usize]),
        None => None,
    }
}

fn loaded(line: Option<Access>) -> u64
    ensures { result ≡ loaded_of line }
{
    match line {
        Some(line) => line.loaded,
        None => 0,
    }
}

// The fault of a step.
fn fault_of(p: Node, i: u32, act: Act, place: Option<u32>, line: Option<Access>) -> Option<Rejected>
    requires { IfSome place (λ j. j < max_steps) }
    ensures { result ≡ step_fault p.0 i (accesses_of p.0 i act) place line }
{
    match act.access(p, i) {
        Some(made) => access_fault(p, i, &made, place, line),
        None => None,
    }
}

// Keeps the access that a step made, and counts its fence.
fn keep(
    program: &mut Program,
    now: &mut Fences,
    act: Act,
    place: Option<u32>,
) -> Result<(), NoMemory>
    requires low { AreAtMost max_steps now.old }
    ensures places { OnOk result (program.new.places.items ≡ program.old.places.items ++ kept act place) }
    ensures fences { OnOk result (program.new.fences.items ≡ program.old.fences.items ++ kept act (option_map (λ _. now.old) place)) }
    ensures count { OnOk result (counts now.new ≡ fences_after act (counts now.old)) }
    ensures low { (k : ℕ) → AreAtMost k now.old → AreAtMost (k + 1) now.new }
{
    match act {
        Act::Load(..) | Act::Store(..) | Act::Atomic(..) => keep_access(program, *now, place),
        Act::Fence(mask) => {
            *now = now.after(mask);
            Ok(())
        }
        Act::Nothing | Act::Out(_) | Act::End => Ok(()),
    }
}

fn keep_access(program: &mut Program, now: Fences, place: Option<u32>) -> Result<(), NoMemory>
    ensures places { OnOk result (program.new.places.items ≡ program.old.places.items ++ option_to_list place) }
    ensures fences { OnOk result (program.new.fences.items ≡ program.old.fences.items ++ option_to_list (option_map (λ _. now) place)) }
{
    let Some(place) = place else {
        return Ok(());
    };
    program.places.push(place).map_err(|_| NoMemory)?;
    program.fences.push(now).map_err(|_| NoMemory)
}

/// The steps that processor `p` retired, replayed on the values of its lines.
///
/// # Errors
/// The first fault of a step: `Ended`, `Missing` or `Differs`; `Memory`.
pub fn replay(
    alloc: Global,
    image: &Image,
    lines: &[Access],
    table: &Table,
    p: Node,
    processors: u8,
    steps: u32,
) -> Result<Program, Rejected>
    requires among { p.0 < processors }
    requires steps { steps ≤ max_steps }
    requires lines { length lines.now ≤ max_steps }
    requires table { (i : ℕ) → place_in table.now i ≡ place_of lines.now p.0 i }
    ensures ran { IfOk result (λ r. IsReplayed image.now processors lines.now p.0 steps r.places.items r.fences.items) }
    ensures fault { IfErr result (λ r. (r ≡ Rejected.Memory) ⊎ (replayed image.now processors lines.now p.0 steps ≡ Err r)) }
{
    let mut arch = boot(image, p, processors);
    let mut now = Fences {
        ll: 0,
        sl: 0,
        ls: 0,
        ss: 0,
    };
    let mut program = Program {
        places: Vec::new(alloc),
        fences: Vec::new(alloc),
    };
    for s in 0..steps {
        let i = program.places.len() as u32;
        let place = table.find(i);
        let act = next(&mut arch, image, lines, p, s, i, place)?;
        keep(&mut program, &mut now, act, place)?;
    }
    Ok(program)
}
