// The top call.
ghost use Rattle.std.specs.Prelude.{◌≡◌, ◌≤◌, ◌<◌, ◌-◌, ◌^◌, true, IfOk, length, map, string_bytes};
ghost use Rattle.std.specs.List.{All};
ghost use Rattle.cycle_loop.specs.Answers.{all_retired as all_retired_of};
ghost use Rattle.machine_config.specs.Allowed.{IsAllowed, is_short};
ghost use Rattle.rsim_top.specs.Answers.{Answers, AnswersFile};
ghost use Rattle.rsim_top.specs.Causes.{IsExact, IsComplete};
ghost use Rattle.rsim_top.specs.Machine.{shared_view, order_of, report_of};
ghost use Rattle.rsim_top.specs.Outside.{outside, shelf_of, sink_of};
ghost use Rattle.rsim_top.specs.Parts.{asked_by, Fetches, Kept, SetsUp, Runs, StoresOrder, PutsReport};
ghost use Rattle.rsim_top.specs.Refusals.{write_refusal_of};

use crate::machine::{SharedMachine, run};
use crate::order_file::store_order;
use crate::refusal::{File, Refusal};
use crate::report_text::report_text;
use command_words::{BadWords, Executable, RunWords, read_run};
use elf64_load::{ElfFault, load};
use machine_config::{Config, ConfigFault, fits, read as read_config};
use rsim_base::{Model, NoMemory, Node};
use rsim_io::{FetchFault, Shelf, Sink, StoreFault};
use std::alloc::Global;

// The longest configuration and the longest executable, in bytes.
const MAX_CONFIG: u64 = 65_536;

pub(crate) const MAX_EXE: u64 = 16_777_216;

/// What a run came to: the simulated cycles, and the steps that all processors retired.
#[derive(Clone, Copy, Debug, PartialEq, Eq)]
pub struct Reported {
    pub cycles: u32,
    pub retired: u64,
}

/// Does all that `rsim EXE CONFIG CYCLES ORDER` does, where `words` are the words after the program's
/// name: runs the executable with the settings of the configuration for at most CYCLES cycles, writes the
/// order of its memory accesses to the file ORDER of the shelf, and its report to `out`.
///
/// # Errors
/// The first refusal of these steps: the words are read; the configuration and the executable are
/// fetched; the configuration is read; the length of the run is looked at; the executable is loaded;
/// the order is written; the report is written. Memory may be short at each of them. Up to the sixth
/// step nothing has been written; where the order was not written whole, its file has a prefix of it, and where
/// the report was not, the order stands and `out` has a prefix of the report.
pub fn run_command<S: Shelf, K: Sink>(
    alloc: Global,
    words: &Vec<String>,
    shelf: &mut S,
    out: &mut K,
) -> Result<Reported, Refusal>
    ensures answer { Answers (map string_bytes words.now.items)
        (outside (shelf_of S.holds S.faults S.sure shelf.old) (sink_of K.written K.faults K.sure out.old))
        (outside (shelf_of S.holds S.faults S.sure shelf.new) (sink_of K.written K.faults K.sure out.new))
        result }
    ensures exactly { IsExact (map string_bytes words.now.items)
        (outside (shelf_of S.holds S.faults S.sure shelf.old) (sink_of K.written K.faults K.sure out.old))
        result }
    ensures complete { IsComplete (map string_bytes words.now.items)
        (outside (shelf_of S.holds S.faults S.sure shelf.old) (sink_of K.written K.faults K.sure out.old))
        (outside (shelf_of S.holds S.faults S.sure shelf.new) (sink_of K.written K.faults K.sure out.new))
        result }
    ensures shelf_faults { S.faults shelf.old ≤ S.faults shelf.new }
    ensures sink_faults { K.faults out.old ≤ K.faults out.new }
{
    run_words(alloc, words, shelf, out)
}

// As `run_command`.
fn run_words<S: Shelf, K: Sink>(
    alloc: Global,
    words: &Vec<String>,
    shelf: &mut S,
    out: &mut K,
) -> Result<Reported, Refusal>
    ensures answer { Answers (map string_bytes words.now.items)
        (outside (shelf_of S.holds S.faults S.sure shelf.old) (sink_of K.written K.faults K.sure out.old))
        (outside (shelf_of S.holds S.faults S.sure shelf.new) (sink_of K.written K.faults K.sure out.new))
        result }
    ensures shelf_faults { S.faults shelf.old ≤ S.faults shelf.new }
    ensures sink_faults { K.faults out.old ≤ K.faults out.new }
{
    let want = match read_run(alloc, words) {
        Ok(want) => want,
        Err(BadWords::Fault(fault)) => return Err(Refusal::Words(fault)),
        Err(BadWords::Memory) => return Err(Refusal::Memory),
    };
    match want.executable {
        Executable::File(exe) => run_executable(alloc, &want, exe, shelf, out),
        Executable::Generated(_) => Err(Refusal::Unbuilt),
    }
}

// What is asked for, with the executable of this name.
fn run_executable<S: Shelf, K: Sink>(
    alloc: Global,
    want: &RunWords,
    exe: &str,
    shelf: &mut S,
    out: &mut K,
) -> Result<Reported, Refusal>
    ensures answer { AnswersFile
        (outside (shelf_of S.holds S.faults S.sure shelf.old) (sink_of K.written K.faults K.sure out.old))
        (outside (shelf_of S.holds S.faults S.sure shelf.new) (sink_of K.written K.faults K.sure out.new))
        (asked_by want.now) exe.now result }
    ensures shelf_faults { S.faults shelf.old ≤ S.faults shelf.new }
    ensures sink_faults { K.faults out.old ≤ K.faults out.new }
{
    let text = fetch(alloc, File::Config, MAX_CONFIG, want.config, shelf)?;
    let file = fetch(alloc, File::Exe, MAX_EXE, exe, shelf)?;
    let config = set_up(alloc, &text, want.cycles)?;
    let mut machine = run_file(alloc, &file, config, want.cycles)?;
    write_order(alloc, want.order, config.model, &mut machine, shelf)?;
    write_report(alloc, &machine, out)?;
    Ok(Reported {
        cycles: machine.cycles(),
        retired: all_retired(&machine),
    })
}

// The bytes of a file, which may have so many.
pub(crate) fn fetch<S: Shelf>(
    alloc: Global,
    which: File,
    limit: u64,
    name: &str,
    shelf: &mut S,
) -> Result<Vec<u8>, Refusal>
    requires limit { limit < 2 ^ 64 - 1 }
    ensures fetched { Fetches (shelf_of S.holds S.faults S.sure shelf.old) (shelf_of S.holds S.faults S.sure shelf.new) which limit name.now result }
    ensures short { IfOk result (λ bytes. length bytes.items ≤ limit) }
    ensures files { S.holds shelf.new ≡ S.holds shelf.old }
    ensures kept { Kept (shelf_of S.holds S.faults S.sure shelf.old) (shelf_of S.holds S.faults S.sure shelf.new) }
{
    let mut bytes = Vec::new(alloc);
    match shelf.fetch(name, &mut bytes, limit) {
        Ok(()) => Ok(bytes),
        Err(FetchFault::Failed) => Err(Refusal::Read(which)),
        Err(FetchFault::TooLarge) => Err(Refusal::Big(which)),
        Err(FetchFault::Memory) => Err(Refusal::Memory),
    }
}

// The settings of a text, for a run of so many cycles.
fn set_up(alloc: Global, text: &[u8], cycles: u32) -> Result<Config, Refusal>
    requires { length text.now ≤ 65536 }
    ensures { SetsUp cycles text.now result }
{
    let config = match read_config(alloc, text) {
        Ok(config) => config,
        Err(ConfigFault::Memory) => return Err(Refusal::Memory),
        Err(fault) => return Err(Refusal::Config(fault)),
    };
    if !fits(&config, cycles) {
        return Err(Refusal::TooLong);
    }
    Ok(config)
}

// The machine after it has run the file's image.
fn run_file(
    alloc: Global,
    file: &[u8],
    config: Config,
    cycles: u32,
) -> Result<SharedMachine, Refusal>
    requires allowed { IsAllowed config }
    requires short { is_short config cycles ≡ true }
    ensures { Runs file.now config cycles result }
{
    let image = match load(alloc, file) {
        Ok(image) => image,
        Err(ElfFault::Memory) => return Err(Refusal::Memory),
        Err(fault) => return Err(Refusal::Elf(fault)),
    };
    match run(alloc, image, config, cycles) {
        Ok(machine) => Ok(machine),
        Err(NoMemory) => Err(Refusal::Memory),
    }
}

// Writes the order of a machine that has run. The accesses are taken out of it.
fn write_order<S: Shelf>(
    alloc: Global,
    name: &str,
    model: Model,
    machine: &mut SharedMachine,
    shelf: &mut S,
) -> Result<(), Refusal>
    requires retired { All (λ x. x.retired ≡ true) (shared_view machine.old).log }
    ensures stored { StoresOrder (shelf_of S.holds S.faults S.sure shelf.old) (shelf_of S.holds S.faults S.sure shelf.new)
        name.now (order_of model (shared_view machine.old)) result }
    ensures kept { Kept (shelf_of S.holds S.faults S.sure shelf.old) (shelf_of S.holds S.faults S.sure shelf.new) }
    ensures cores { (shared_view machine.new).cores ≡ (shared_view machine.old).cores }
    ensures cycles { (shared_view machine.new).cycles ≡ (shared_view machine.old).cycles }
{
    match store_order(alloc, name, model, machine, shelf) {
        Ok(()) => Ok(()),
        Err(fault) => Err(write_refusal(File::Order, fault)),
    }
}

// Writes the report of a machine that has run.
fn write_report<K: Sink>(alloc: Global, machine: &SharedMachine, out: &mut K) -> Result<(), Refusal>
    ensures put { PutsReport (sink_of K.written K.faults K.sure out.old) (sink_of K.written K.faults K.sure out.new)
        (report_of (shared_view machine.now)) result }
    ensures faults { K.faults out.old ≤ K.faults out.new }
{
    let Ok(text) = report_text(alloc, machine) else {
        return Err(Refusal::Memory);
    };
    match out.put(&text) {
        Ok(()) => Ok(()),
        Err(fault) => Err(write_refusal(File::Report, fault)),
    }
}

// The steps that all processors have retired together.
fn all_retired(machine: &SharedMachine) -> u64
    ensures { result ≡ all_retired_of (shared_view machine.now).cores }
{
    let mut steps = 0u64;
    for p in 0..machine.processors() {
        steps += u64::from(machine.retired(Node(p)));
    }
    steps
}

// The refusal for a file or stream that was not written.
pub(crate) fn write_refusal(file: File, fault: StoreFault) -> Refusal
    ensures { result ≡ write_refusal_of file fault }
{
    match fault {
        StoreFault::Failed => Refusal::Write(file),
        StoreFault::Memory => Refusal::Memory,
    }
}
