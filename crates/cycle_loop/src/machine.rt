// The machine: its processors, the store that they share, and the order of their accesses.
ghost use Rattle.std.specs.Prelude.{◌≡◌, ◌+◌, ◌<◌, ◌≤◌, ◌++◌, ◌∷◌, ℕ, not, true, false, List, [], length, IfOk, OnOk, OnErr, IfSome};
ghost use Rattle.std.specs.List.{list_all};
ghost use Rattle.rsim_base.specs.Limits.{max_processors, max_steps};
ghost use Rattle.sparc_meaning.specs.Arch.{is_running};
ghost use Rattle.machine_config.specs.Allowed.{IsAllowed};
ghost use Rattle.order_log.specs.Log.{after_pop, first_final};
ghost use Rattle.rsim_base.specs.declared.memory.Access.{Access};
ghost use Rattle.rsim_base.specs.declared.memory.Model.{Model as Consistency};
ghost use Rattle.cycle_loop.specs.Machine.{CoreCycle, CoreView, with_taken};
ghost use Rattle.cycle_loop.specs.Machines.{Serves, machine_view};
ghost use Rattle.cycle_loop.specs.Ranges.{AreSound};
ghost use Rattle.cycle_loop.specs.Ready.{AreCounted, IsReady, IsReady-prop, views_of};
ghost use Rattle.cycle_loop.specs.Stands.{Closed, Stands};
ghost use Rattle.cycle_loop.specs.Start.{AreBooted, IsAtStart};
ghost use Rattle.cycle_loop.specs.Answers.{IsOf, have_ended, waiting_stores};
ghost use Rattle.cycle_loop.specs.Waits.{StepsOrWaits};

use crate::decoded::Decoded;
use crate::processor::Processor;
use crate::turns::{reserve_outputs, take_turns};
use elf64_load::Image;
use machine_config::Config;
use memory_contracts::{CoherentStore, LostList};
use order_log::OrderLog;
use rsim_base::{Access, NoMemory, Node};
use sparc_meaning::End;
use std::alloc::Global;

/// Processors that make one step at a time, each in the order of its program, over a store of lines that they share, and
/// the order of their accesses. A store is performed as it is retired.
#[derive(Drop)]
pub struct Machine<M: CoherentStore> {
    image: Image,
    line_bytes: u64,
    processors: Vec<Processor>,
    store: M,
    log: OrderLog,
    decoded: Decoded,
    // The lines that left their nodes at the last tick: this machine does nothing about them.
    lost: LostList,
    cycles: u32,
    closed: bool,
    ghost ready: { IsReady image line_bytes (machine_view processors.items (M.meaning store) log.places cycles) } by { IsReady-prop image line_bytes (machine_view processors.items (M.meaning store) log.places cycles) },
}

impl<M: CoherentStore> Machine<M> {
    ghost use Rattle.cycle_loop.specs.MachineOf.{view_of};

    /// One cycle: the store ticks, and then each processor takes its turn, in rising order.
    ///
    /// # Errors
    /// Where memory is short. Then nothing changes.
    pub fn cycle(&mut self) -> Result<(), NoMemory>
        requires few { self.old.cycles < max_steps }
        requires open { self.old.closed ≡ false }
        ensures cycle { OnOk result (CoreCycle self.old.image (view_of M.meaning self.old) (view_of M.meaning self.new)) }
        ensures refused { OnErr result (view_of M.meaning self.new ≡ view_of M.meaning self.old) }
        ensures kept { (model : Consistency) (taken : List Access) → Stands self.old.image model taken (view_of M.meaning self.old) → OnOk result (Stands self.new.image model taken (view_of M.meaning self.new)) }
        ensures steps { OnOk result (StepsOrWaits self.old.image (view_of M.meaning self.old) (view_of M.meaning self.new)) }
        ensures put_back { (taken : List Access) → OnOk result (CoreCycle self.old.image (with_taken taken (view_of M.meaning self.old)) (with_taken taken (view_of M.meaning self.new))) }
        ensures count { length (view_of M.meaning self.new).cores ≡ length (view_of M.meaning self.old).cores }
        ensures image { self.new.image ≡ self.old.image }
        ensures open { self.new.closed ≡ false }
    {
        self.log.reserve(self.processors.len() as u32)?;
        reserve_outputs(&mut self.processors)?;
        self.store.tick(&mut self.lost);
        take_turns(
            &mut self.processors,
            &self.image,
            &mut self.decoded,
            self.line_bytes,
            &mut self.store,
            &mut self.log,
        );
        self.cycles += 1;
        Ok(())
    }

    /// How many cycles have run.
    pub fn cycles(&self) -> u32
        ensures { result ≡ (view_of M.meaning self.now).cycles }
    {
        self.cycles
    }

    /// How many processors there are, 1 to 16.
    pub fn processors(&self) -> u8
        ensures { result ≡ length (view_of M.meaning self.now).cores }
    {
        self.processors.len() as u8
    }

    /// Whether each processor has ended.
    pub fn done(&self) -> bool
        ensures { result ≡ have_ended (view_of M.meaning self.now).cores }
    {
        have_all_ended(&self.processors)
    }

    /// How a processor stands.
    pub fn end(&self, p: Node) -> End
        requires { p.0 < length (view_of M.meaning self.now).cores }
        ensures { IsOf (view_of M.meaning self.now).cores p.0 (λ c. c.arch.end ≡ result) }
    {
        self.processors[p.0 as usize].arch.end
    }

    /// How many steps a processor has retired.
    pub fn retired(&self, p: Node) -> u32
        requires { p.0 < length (view_of M.meaning self.now).cores }
        ensures { IsOf (view_of M.meaning self.now).cores p.0 (λ c. c.retired ≡ result) }
    {
        self.processors[p.0 as usize].retired
    }

    /// What a processor has put.
    pub fn output(&self, p: Node) -> &[u8]
        requires { p.0 < length (view_of M.meaning self.now).cores }
        ensures { IsOf (view_of M.meaning self.now).cores p.0 (λ c. c.output ≡ result.now) }
    {
        &self.processors[p.0 as usize].output
    }

    /// How many retired stores wait to be performed: none does here.
    pub fn unperformed(&self) -> u32
        ensures { result ≡ waiting_stores (view_of M.meaning self.now).cores }
    {
        0
    }

    /// Takes the first access out of the order, if there is one.
    pub fn take_final(&mut self) -> Option<Access>
        ensures taken { result ≡ first_final (view_of M.meaning self.old).log }
        ensures view { view_of M.meaning self.new ≡ record (view_of M.meaning self.old) { log = after_pop (view_of M.meaning self.old).log } }
        ensures stands { (model : Consistency) (taken : List Access) → Stands self.old.image model taken (view_of M.meaning self.old) → IfSome result (λ a. Stands self.new.image model (taken ++ a ∷ []) (view_of M.meaning self.new)) }
        ensures fits { (model : Consistency) (taken : List Access) → Closed self.old.image model taken (view_of M.meaning self.old) → IfSome result (λ a. Closed self.new.image model (taken ++ a ∷ []) (view_of M.meaning self.new)) }
        ensures image { self.new.image ≡ self.old.image }
        ensures open { self.new.closed ≡ self.old.closed }
    {
        self.log.pop_final()
    }

    /// Ends the run: whatever waited stands in the order afterwards. Nothing waits here.
    pub fn close(&mut self)
        ensures view { view_of M.meaning self.new ≡ view_of M.meaning self.old }
        ensures fits { (model : Consistency) (taken : List Access) → Stands self.old.image model taken (view_of M.meaning self.old) → Closed self.new.image model taken (view_of M.meaning self.new) }
        ensures counted { AreCounted (view_of M.meaning self.new).cycles (view_of M.meaning self.new).cores }
        ensures image { self.new.image ≡ self.old.image }
        ensures closed { self.new.closed ≡ true }
    {
        self.closed = true;
    }
}

impl<M: CoherentStore + Drop> Machine<M> {
    ghost use Rattle.cycle_loop.specs.MachineOf.{view_of};

    /// The machine that an image and a configuration give, over a store with the image's memory.
    ///
    /// # Errors
    /// Where memory is short.
    pub fn make(
        alloc: Global,
        image: Image,
        config: Config,
        store: M,
    ) -> Result<Machine<M>, NoMemory>
        requires allowed { IsAllowed config }
        requires serves { Serves image config (M.meaning store) }
        ensures start { IfOk result (λ m. IsAtStart m.image (view_of M.meaning m)) }
        ensures stands { (model : Consistency) → IfOk result (λ m. Stands m.image model [] (view_of M.meaning m)) }
        ensures image { IfOk result (λ m. m.image ≡ image) }
        ensures store { IfOk result (λ m. (view_of M.meaning m).store ≡ M.meaning store) }
        ensures count { IfOk result (λ m. length (view_of M.meaning m).cores ≡ config.processors) }
        ensures open { IfOk result (λ m. m.closed ≡ false) }
    {
        let processors = boot_all(alloc, &image, config.processors as u8)?;
        let log = OrderLog::make(alloc, &config)?;
        let decoded = Decoded::make(alloc)?;
        Ok(Machine {
            image,
            line_bytes: u64::from(config.line),
            processors,
            store,
            log,
            decoded,
            lost: LostList::new(),
            cycles: 0,
            closed: false,
        })
    }
}

// So many processors before their first steps.
fn boot_all(alloc: Global, image: &Image, count: u8) -> Result<Vec<Processor>, NoMemory>
    requires { count ≤ max_processors }
    ensures count { IfOk result (λ all. length (views_of all.items) ≡ count) }
    ensures first { IfOk result (λ all. AreBooted image.now count (views_of all.items)) }
    ensures sound { IfOk result (λ all. AreSound (views_of all.items)) }
{
    let mut processors = Vec::new(alloc);
    for p in 0..count {
        let processor = Processor::boot(alloc, image, Node(p), count);
        push(&mut processors, processor)?;
    }
    Ok(processors)
}

fn push(processors: &mut Vec<Processor>, processor: Processor) -> Result<(), NoMemory>
    ensures { OnOk result (processors.new.items ≡ processors.old.items ++ processor ∷ []) }
{
    processors.push(processor).map_err(|_| NoMemory)
}

fn have_all_ended(processors: &Vec<Processor>) -> bool
    ensures { result ≡ list_all (λ c. not (is_running c.arch.end)) processors.now.items }
{
    processors
        .iter()
        .all(|processor| !processor.arch.end.is_running())
}
