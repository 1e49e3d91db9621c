// The entries that wait to be issued or to be finished.
ghost use Rattle.std.specs.Prelude.{◌≡◌, ℕ, ◌+◌, ◌^◌, ◌<◌, ◌≤◌, IfOk, length};
ghost use Rattle.std.specs.List.{All};
ghost use Rattle.machine_config.specs.Allowed.{IsAllowed};
ghost use Rattle.issue_queue.specs.Queues.{AreNeeded, Selects, Finishes, added, cut, first_queue, free_divider, has_place, ticked, woken};

use crate::table::Table;
use crate::units::ByUnit;
use machine_config::Config;
use rsim_base::{ARCH_REGISTERS, NoMemory, PhysReg, Unit};
use std::alloc::Global;
use std::marker::Model;

/// The instructions of a core that are not finished: those that wait for their operands or for a unit, and those that a unit
/// has. Each is known by its number, which rises in the order of the program.
///
/// No call but `make` takes memory. A call looks at words of 128 bits, one bit an entry, and at the entries that it is about.
#[derive(Drop)]
pub struct IssueQueue {
    table: Table,
    /// As many entries as the active list has.
    size: u32,
    alu_units: u32,
    mul_units: u32,
    /// How many more can be issued to these units in this tick.
    alu_left: u32,
    mul_left: u32,
    /// How many ticks each unit takes.
    ticks: ByUnit<u32>,
    /// By divider, the tick from which it is free.
    dividers: Vec<u64>,
}

impl Model for IssueQueue {
    ghost use Rattle.issue_queue.specs.Queues.{QueueView};

    ghost Value = { QueueView };

    ghost use Rattle.issue_queue.specs.Views.{view_of, TakeTicks};

    ghost view = { view_of };

    ghost invariant = { TakeTicks };
}

impl IssueQueue {
    /// The queue of a configuration, with no entry, before its first tick.
    ///
    /// # Errors
    /// Where memory is short.
    pub fn make(alloc: Global, config: &Config) -> Result<IssueQueue, NoMemory>
        requires { IsAllowed config.now }
        ensures { IfOk result (λ q. q ≡ first_queue config.now) }
    {
        let places = config.rename_registers as usize + usize::from(ARCH_REGISTERS);
        let table = Table::make(alloc, places)?;
        let dividers = vec![in alloc; 0u64; config.div_units as usize].map_err(|_| NoMemory)?;
        Ok(IssueQueue {
            table,
            size: config.active_list,
            alu_units: config.alu_units,
            mul_units: config.mul_units,
            alu_left: config.alu_units,
            mul_left: config.mul_units,
            ticks: ByUnit {
                alu: config.alu_latency,
                mul: config.mul_latency,
                div: config.div_latency,
            },
            dividers,
        })
    }

    /// An entry joins as the youngest, with the registers that it still waits for. False where the queue has as many entries as
    /// the active list, and then nothing changes.
    pub fn add(&mut self, seq: u64, unit: Unit, needs: [Option<PhysReg>; 5]) -> bool
        requires youngest { All (λ e. e.seq < seq) self.old.entries }
        requires near { All (λ e. seq < e.seq + 128) self.old.entries }
        requires small { seq < 2 ^ 63 }
        requires needs { AreNeeded self.old.registers needs }
        ensures value { result ≡ has_place self.old }
        ensures after { self.new ≡ added seq unit needs self.old }
    {
        if self.table.len() >= self.size as usize {
            return false;
        }
        self.table.add(seq, unit, needs);
        true
    }

    /// A register is known: nobody waits for it any more.
    pub fn wake(&mut self, r: PhysReg)
        requires { r.0 < self.old.registers }
        ensures { self.new ≡ woken r.0 self.old }
    {
        self.table.wake(r);
    }

    /// Issues the oldest entry that waits for no register and whose unit has a place in this tick, and answers its number.
    pub fn select(&mut self) -> Option<u64>
        requires { self.old.now < 2 ^ 63 }
        ensures { Selects self.old result self.new }
    {
        let tick = self.table.tick();
        let divider = free_divider(&self.dividers, tick);
        let able = ByUnit {
            alu: self.alu_left > 0,
            mul: self.mul_left > 0,
            div: divider < self.dividers.len(),
        };
        let (seq, unit) = self.table.issue(&able, &self.ticks)?;
        match unit {
            Unit::Alu => self.alu_left -= 1,
            Unit::Mul => self.mul_left -= 1,
            Unit::Div => self.dividers[divider] = tick + u64::from(self.ticks.div),
        }
        Some(seq)
    }

    /// Takes the oldest entry out that is finished, and answers its number.
    pub fn finished(&mut self) -> Option<u64>
        ensures { Finishes self.old result self.new }
    {
        self.table.finish()
    }

    /// Begins the next tick: every unit for arithmetic and multiplication has a place again.
    pub fn tick(&mut self)
        requires { self.old.now < 2 ^ 63 }
        ensures { self.new ≡ ticked self.old }
    {
        self.table.begin_tick();
        self.alu_left = self.alu_units;
        self.mul_left = self.mul_units;
    }

    /// Takes all entries out whose number is greater. A division of these keeps its unit until it would have been finished.
    pub fn cut_after(&mut self, seq: u64)
        ensures { self.new ≡ cut seq self.old }
    {
        self.table.cut_after(seq);
    }
}

// The first divider that is free, or as many as there are.
fn free_divider(dividers: &Vec<u64>, tick: u64) -> usize
    ensures value { result ≡ free_divider tick dividers.now.items }
    ensures within { result ≤ length dividers.now.items }
{
    for (divider, free_from) in dividers.iter().enumerate() {
        if *free_from <= tick {
            return divider;
        }
    }
    dividers.len()
}
