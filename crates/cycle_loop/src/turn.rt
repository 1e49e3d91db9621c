// The turn of a processor: one step, unless it has ended or lacks a line.
ghost use Rattle.std.specs.Prelude.{◌≡◌, ◌+◌, ◌<◌, ◌≤◌, false, IsTrue, vec_len, vec_capacity};
ghost use Rattle.rsim_base.specs.Limits.{max_steps};
ghost use Rattle.elf64_load.specs.Image.{is_mapped};
ghost use Rattle.sparc_decode.specs.Ranges.{IsInRange};
ghost use Rattle.sparc_meaning.specs.Arch.{is_running, IsSound};
ghost use Rattle.sparc_meaning.specs.Step.{step as step_of, instr_at as spec_instr_at};
ghost use Rattle.cycle_loop.specs.Ranges.{HaveNumbers};
ghost use Rattle.cycle_loop.specs.Machine.{At, after_step, lacks_line, turn as turn_of};
ghost use Rattle.cycle_loop.specs.Processors.{view_of};
ghost use Rattle.cycle_loop.specs.Stores.{may_store as spec_may_store, may_store_by};
ghost use Rattle.cycle_loop.specs.Turns.{MayUse, tried};

use crate::decoded::Decoded;
use crate::lines::{lacks_stored, lacks_wanted, perform, value_for};
use crate::processor::Processor;
use elf64_load::Image;
use memory_contracts::CoherentStore;
use order_log::OrderLog;
use rsim_base::Node;
use sparc_decode::{FormKind, Instr, kind};
use sparc_meaning::{Arch, ArchPhase, peek_at, step_at};

impl Processor {
    /// Its turn. A line that it lacks it asks for, and stays as it is.
    pub(crate) fn turn<M: CoherentStore>(
        &mut self,
        p: Node,
        image: &Image,
        decoded: &mut Decoded,
        line_bytes: u64,
        store: &mut M,
        log: &mut OrderLog,
    )
        requires may { MayUse image.now (M.meaning store.old) line_bytes p.0 }
        requires sound { IsSound self.old.arch }
        requires room { vec_len self.old.output + 21 ≤ vec_capacity self.old.output }
        requires few { self.old.retired < max_steps }
        requires fewer { self.old.accesses ≤ self.old.retired }
        requires place { 0 < log.old.spare }
        ensures rule { ◌≡◌ {A = At} (record { core = view_of self.new; log = log.new.places; bytes = (M.meaning store.new).bytes }) (turn_of image.now (M.meaning store.old) p.0 (record { core = view_of self.old; log = log.old.places; bytes = (M.meaning store.old).bytes })) }
        ensures store { M.meaning store.new ≡ record (M.meaning store.old) { bytes = (M.meaning store.new).bytes; wishes = (M.meaning store.new).wishes } }
        ensures sound { IsSound self.new.arch }
        ensures fewer { self.new.accesses ≤ self.new.retired }
        ensures retired { self.new.retired ≤ self.old.retired + 1 }
        ensures spare { log.old.spare ≤ log.new.spare + 1 }
        ensures numbers { HaveNumbers log.old.places → HaveNumbers log.new.places }
    {
        if !self.arch.end.is_running() {
            return;
        }
        let i = decoded.instr_at(image, self.arch.pc);
        let want = peek_at(&self.arch, &i, image);
        if lacks_wanted(p, want, line_bytes, store) {
            return;
        }
        let value = value_for(p, want, store);
        if may_store(&self.arch, &i) {
            self.try_step(p, &i, value, image, line_bytes, store, log);
        } else {
            self.step(p, &i, value, image, store, log);
        }
    }

    // One step, whose line the processor has.
    fn step<M: CoherentStore>(
        &mut self,
        p: Node,
        i: &Instr,
        value: u64,
        image: &Image,
        store: &mut M,
        log: &mut OrderLog,
    )
        requires node { p.0 < (M.meaning store.old).nodes }
        requires mapped { (M.meaning store.old).mapped ≡ is_mapped image.now }
        requires sound { IsSound self.old.arch }
        requires running { IsTrue (is_running self.old.arch.end) }
        requires fetched { i.now ≡ spec_instr_at image.now self.old.arch.pc }
        requires registers { IsInRange i.now }
        requires has { lacks_line (M.meaning store.old) p.0 (step_of image.now self.old.arch value).act ≡ false }
        requires room { vec_len self.old.output + 21 ≤ vec_capacity self.old.output }
        requires few { self.old.retired < max_steps }
        requires fewer { self.old.accesses ≤ self.old.retired }
        requires place { 0 < log.old.spare }
        ensures rule { ◌≡◌ {A = At} (record { core = view_of self.new; log = log.new.places; bytes = (M.meaning store.new).bytes }) (after_step p.0 (step_of image.now self.old.arch value) (record { core = view_of self.old; log = log.old.places; bytes = (M.meaning store.old).bytes })) }
        ensures store { M.meaning store.new ≡ record (M.meaning store.old) { bytes = (M.meaning store.new).bytes } }
        ensures sound { IsSound self.new.arch }
        ensures fewer { self.new.accesses ≤ self.new.retired }
        ensures retired { self.new.retired ≤ self.old.retired + 1 }
        ensures spare { log.old.spare ≤ log.new.spare + 1 }
        ensures numbers { HaveNumbers log.old.places → HaveNumbers log.new.places }
    {
        let act = step_at(&mut self.arch, i, image, value);
        perform(p, act, store);
        self.retire(p, act, log);
    }

    // One step that may store. Where the line is not owned the state is put back as it was.
    fn try_step<M: CoherentStore>(
        &mut self,
        p: Node,
        i: &Instr,
        value: u64,
        image: &Image,
        line_bytes: u64,
        store: &mut M,
        log: &mut OrderLog,
    )
        requires may { MayUse image.now (M.meaning store.old) line_bytes p.0 }
        requires sound { IsSound self.old.arch }
        requires running { IsTrue (is_running self.old.arch.end) }
        requires fetched { i.now ≡ spec_instr_at image.now self.old.arch.pc }
        requires registers { IsInRange i.now }
        requires room { vec_len self.old.output + 21 ≤ vec_capacity self.old.output }
        requires few { self.old.retired < max_steps }
        requires fewer { self.old.accesses ≤ self.old.retired }
        requires place { 0 < log.old.spare }
        ensures rule { ◌≡◌ {A = At} (record { core = view_of self.new; log = log.new.places; bytes = (M.meaning store.new).bytes }) (tried (M.meaning store.old) p.0 (step_of image.now self.old.arch value) (record { core = view_of self.old; log = log.old.places; bytes = (M.meaning store.old).bytes })) }
        ensures store { M.meaning store.new ≡ record (M.meaning store.old) { bytes = (M.meaning store.new).bytes; wishes = (M.meaning store.new).wishes } }
        ensures sound { IsSound self.new.arch }
        ensures fewer { self.new.accesses ≤ self.new.retired }
        ensures retired { self.new.retired ≤ self.old.retired + 1 }
        ensures spare { log.old.spare ≤ log.new.spare + 1 }
        ensures numbers { HaveNumbers log.old.places → HaveNumbers log.new.places }
    {
        let before = self.arch;
        let act = step_at(&mut self.arch, i, image, value);
        if lacks_stored(p, act, line_bytes, store) {
            self.arch = before;
            return;
        }
        perform(p, act, store);
        self.retire(p, act, log);
    }
}

// Whether the next step may store, by its instruction.
fn may_store(arch: &Arch, i: &Instr) -> bool
    ensures { result ≡ spec_may_store arch.now.phase i.now.op }
{
    match arch.phase {
        ArchPhase::Run => is_storing(kind(i.op)),
        ArchPhase::Spill(_) => true,
        ArchPhase::Fill(_) => false,
    }
}

// The kinds that store, and those that may spill a window first: SAVE, and FLUSHW among those that do nothing else.
fn is_storing(kind: FormKind) -> bool
    ensures { result ≡ may_store_by kind }
{
    matches!(
        kind,
        FormKind::Stores(_) | FormKind::Saves | FormKind::DoesNothing
    )
}
