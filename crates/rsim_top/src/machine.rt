// The machine that a command runs.
ghost use Rattle.std.specs.Prelude.{◌≡◌, ◌≤◌, false, true, IfOk, OnOk, [], length};
ghost use Rattle.rsim_base.specs.Limits.{max_steps};
ghost use Rattle.machine_config.specs.Allowed.{IsAllowed, is_short};
ghost use Rattle.rsim_base.specs.declared.memory.Model.{Model};
ghost use Rattle.cycle_loop.specs.Stands.{Stands};
ghost use Rattle.rsim_top.specs.Machine.{shared_view};
ghost use Rattle.rsim_top.specs.Run.{HasCycled, HasRun, RunsOn};

use coherent_memory::CoherentMemory;
use cycle_loop::Machine;
use elf64_load::Image;
use machine_config::Config;
use memory_contracts::BagCarrier;
use rsim_base::NoMemory;
use std::alloc::Global;

/// Processors over caches and directories, with messages that are kept in a list.
pub(crate) type SharedMachine = Machine<CoherentMemory<BagCarrier>>;

/// A machine that has run an image for so many cycles, or until each processor had ended.
///
/// # Errors
/// Where memory is short.
pub(crate) fn run(
    alloc: Global,
    image: Image,
    config: Config,
    cycles: u32,
) -> Result<SharedMachine, NoMemory>
    requires allowed { IsAllowed config }
    requires short { is_short config cycles ≡ true }
    ensures { IfOk result (λ m. HasRun image config cycles (shared_view m)) }
{
    let carrier = BagCarrier::make(alloc, &config)?;
    let store = CoherentMemory::make(alloc, &image, &config, carrier)?;
    let mut machine = Machine::make(alloc, image, config, store)?;
    run_cycles(&mut machine, cycles)?;
    machine.close();
    Ok(machine)
}

// Runs until so many cycles have run, or each processor has ended.
fn run_cycles(machine: &mut SharedMachine, cycles: u32) -> Result<(), NoMemory>
    requires open { machine.old.closed ≡ false }
    requires few { cycles ≤ max_steps }
    ensures ran { OnOk result (RunsOn machine.old.image cycles (shared_view machine.old) (shared_view machine.new)) }
    ensures stands { (model : Model) → Stands machine.old.image model [] (shared_view machine.old) → OnOk result (Stands machine.new.image model [] (shared_view machine.new)) }
    ensures image { machine.new.image ≡ machine.old.image }
    ensures count { length (shared_view machine.new).cores ≡ length (shared_view machine.old).cores }
{
    while machine.cycles() < cycles && !machine.done() {
        machine.cycle()?;
    }
    Ok(())
}
