// The registers of a core, and which of them hold the architectural ones.
ghost use Rattle.std.specs.Prelude.{◌≡◌, ◌∷◌, ◌++◌, ◌+◌, ◌<◌, ◌≤◌, [], IfOk, OnOk, length, map, replicate, None, Some, slice_index, slice_index_or, slice_set, vec_len};
ghost use Rattle.circular_buffer.specs.Buffer.{buffer};
ghost use Rattle.rsim_base.specs.Limits.{arch_registers};
ghost use Rattle.rename.specs.Registers.{most_extra, registers};
ghost use Rattle.rename.specs.Names.{Takes};
ghost use Rattle.rename.specs.Start.{first_names, registers_of};

use circular_buffer::HeapCircularBuffer;
use rsim_base::{ARCH_REGISTERS, ArchReg, NoMemory, NoneFree, PhysReg, Renamed};
use sparc_meaning::Arch;
use std::alloc::{AllocError, Global};
use std::array;
use std::marker::Model;

// The architectural registers: the globals, the windowed registers, the condition codes, and Y.
const NAMED: usize = ARCH_REGISTERS as usize;

/// The registers of an out-of-order core: which of them hold the architectural registers, which are free, and the value of
/// each that has been written.
///
/// A register that is written gets a new register, so that what was to read the old one still finds it. The old one is free
/// again once the writer has retired, for then every reader of it has. No call but `make` takes memory.
#[derive(Drop)]
pub struct RenameMap {
    // By architectural register.
    current: [PhysReg; NAMED],
    // The one that has been free longest first.
    free: HeapCircularBuffer<PhysReg>,
    values: Vec<Option<u64>>,
}

impl Model for RenameMap {
    ghost use Rattle.std.specs.Prelude.{map, vec_len};
    ghost use Rattle.rename.specs.Names.{NamesView};
    ghost use Rattle.rename.specs.Registers.{AreInside};

    ghost Value = { NamesView };

    ghost view = { λ m. record { current = map (λ r. r.0) m.current; free = map (λ r. r.0) m.free.items; values = m.values.items } };

    ghost invariant = { λ m. AreInside m.current m.free (vec_len m.values) };
}

impl RenameMap {
    /// A register for each of a state's, which holds it, and `extra` more, which are free.
    ///
    /// # Errors
    /// `NoMemory` where there is no memory for so many.
    pub fn make(alloc: Global, extra: u16, state: &Arch) -> Result<RenameMap, NoMemory>
        requires { extra ≤ most_extra }
        ensures count { IfOk result (λ m. length m.values ≡ arch_registers + extra) }
        ensures value { IfOk result (λ m. m ≡ first_names extra state.now) }
    {
        Ok(RenameMap {
            current: first_registers(),
            free: registers_behind(alloc, extra).map_err(|_| NoMemory)?,
            values: first_values(alloc, extra, state).map_err(|_| NoMemory)?,
        })
    }

    /// The register that holds an architectural one for whatever comes next in the program.
    pub fn lookup(&self, r: ArchReg) -> PhysReg
        requires { r.0 < arch_registers }
        ensures value { result.0 ≡ slice_index self.now.current r.0 }
        ensures within { result.0 < length self.now.values }
    {
        self.current[usize::from(r.0)]
    }

    /// How many registers are free.
    pub fn free_count(&self) -> u32
        ensures { result ≡ length self.now.free }
    {
        self.free.len() as u32
    }

    /// Gives an architectural register a free register, which is not written yet.
    ///
    /// # Errors
    /// Exactly where no register is free. Then nothing changes.
    pub fn take(&mut self, r: ArchReg) -> Result<Renamed, NoneFree>
        requires { r.0 < arch_registers }
        ensures after { Takes r.0 self.old result self.new }
        ensures within { IfOk result (λ t. (t.new.0 < length self.old.values) × (t.old.0 < length self.old.values)) }
    {
        let new = self.free.pop_front().ok_or(NoneFree)?;
        let old = self.current[usize::from(r.0)];
        self.current[usize::from(r.0)] = new;
        self.values[usize::from(new.0)] = None;
        Ok(Renamed { reg: r, new, old })
    }

    /// A register is free again: what held an architectural register before its writer, which has retired.
    pub fn release(&mut self, old: PhysReg)
        requires register { old.0 < length self.old.values }
        requires place { length self.old.free + arch_registers < length self.old.values }
        ensures { self.new ≡ record self.old { free = self.old.free ++ old.0 ∷ [] } }
    {
        push(&mut self.free, old);
    }

    /// Undoes the youngest take: its architectural register is held as before it, and the new register is free again.
    pub fn back_to(&mut self, u: Renamed)
        requires reg { u.reg.0 < arch_registers }
        requires new { u.new.0 < length self.old.values }
        requires old { u.old.0 < length self.old.values }
        requires place { length self.old.free + arch_registers < length self.old.values }
        ensures { self.new ≡ record self.old { current = slice_set self.old.current u.reg.0 u.old.0; free = self.old.free ++ u.new.0 ∷ [] } }
    {
        self.current[usize::from(u.reg.0)] = u.old;
        push(&mut self.free, u.new);
    }

    /// The value of a register: `None` exactly where it has not been written since it was given.
    pub fn value(&self, r: PhysReg) -> Option<u64>
        requires { r.0 < length self.now.values }
        ensures { result ≡ slice_index_or self.now.values r.0 None }
    {
        self.values[usize::from(r.0)]
    }

    /// Writes a register.
    pub fn write(&mut self, r: PhysReg, v: u64)
        requires { r.0 < length self.old.values }
        ensures { self.new ≡ record self.old { values = slice_set self.old.values r.0 (Some v) } }
    {
        self.values[usize::from(r.0)] = Some(v);
    }
}

// A register behind those of a list that has a place for it.
fn push(free: &mut HeapCircularBuffer<PhysReg>, r: PhysReg)
    requires { length free.old.items < free.old.capacity }
    ensures { free.new ≡ record free.old { items = free.old.items ++ r ∷ [] } }
{
    free.push_back(r);
}

// Register r holds architectural register r.
fn first_registers() -> [PhysReg; NAMED]
    ensures { result ≡ registers 0 arch_registers }
{
    array::from_fn(|r| PhysReg(r as u16))
}

// The registers behind those that hold architectural ones.
fn registers_behind(alloc: Global, extra: u16) -> Result<HeapCircularBuffer<PhysReg>, AllocError>
    requires { extra ≤ most_extra }
    ensures { IfOk result (λ b. b ≡ buffer (registers arch_registers extra) extra) }
{
    let mut free = HeapCircularBuffer::with_capacity(alloc, usize::from(extra))?;
    for k in 0..extra {
        push(&mut free, PhysReg(NAMED as u16 + k));
    }
    Ok(free)
}

// The values of the architectural registers in their order, and of so many more that are not written.
fn first_values(alloc: Global, extra: u16, state: &Arch) -> Result<Vec<Option<u64>>, AllocError>
    ensures count { IfOk result (λ v. vec_len v ≡ arch_registers + extra) }
    ensures values { IfOk result (λ v. v.items ≡ map Some (registers_of state.now) ++ replicate extra None) }
{
    let count = NAMED + usize::from(extra);
    let mut values = Vec::with_capacity(alloc, count)?;
    append(&mut values, &state.globals)?;
    append(&mut values, &state.windowed)?;
    append(&mut values, &[u64::from(state.cc), state.y])?;
    values.resize(count, None)?;
    Ok(values)
}

// Registers that are written, behind those of a list.
fn append(values: &mut Vec<Option<u64>>, written: &[u64]) -> Result<(), AllocError>
    ensures { OnOk result (values.new.items ≡ values.old.items ++ map Some written.now) }
{
    values.extend(written.iter().copied().map(Some))
}
