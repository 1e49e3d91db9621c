// The file of an order.
ghost use Rattle.std.specs.Prelude.{◌≡◌, ◌≤◌, IfOk, OnOk, OnErr, IsErrOf, IsTrue, true, length};
ghost use Rattle.std.specs.List.{All, flat_map};
ghost use Rattle.order_certificate.specs.OrderText.{line};
ghost use Rattle.rsim_io.specs.Faults.{HasCause};
ghost use Rattle.rsim_top.specs.Machine.{accesses_of, counts_of, shared_view, order_of};
ghost use Rattle.rsim_top.specs.Outside.{HasFile, HasPrefixOfFile};
ghost use Rattle.rsim_top.specs.Pieces.{GoesOn};

use crate::machine::SharedMachine;
use order_certificate::{begin, entry, finish};
use rsim_base::{Access, Model, NoMemory, Node};
use rsim_io::{Shelf, StoreFault};
use std::alloc::Global;

// A piece of at least so many bytes is written before the next line is made.
const PIECE: usize = 65_536;

/// Makes the file of this name and writes the order of a machine to it, in pieces. The accesses are taken out of the
/// machine.
///
/// # Errors
/// What the shelf answers, and `Memory` where a line finds no room. The file then has a prefix of
/// the order.
pub(crate) fn store_order<S: Shelf>(
    alloc: Global,
    name: &str,
    model: Model,
    machine: &mut SharedMachine,
    shelf: &mut S,
) -> Result<(), StoreFault>
    requires retired { All (λ x. x.retired ≡ true) (shared_view machine.old).log }
    ensures stored { OnOk result (HasFile name.now (order_of model (shared_view machine.old)) (S.holds shelf.old) (S.holds shelf.new)) }
    ensures part { OnErr result (HasPrefixOfFile name.now (order_of model (shared_view machine.old)) (S.holds shelf.old) (S.holds shelf.new)) }
    ensures cause { HasCause (IsErrOf result StoreFault.Failed) (S.faults shelf.old) (S.faults shelf.new) }
    ensures sure { S.sure shelf.new ≡ S.sure shelf.old }
    ensures sure_to_store { IsTrue (S.sure shelf.old) → IsErrOf result StoreFault.Failed → ⊥ }
    ensures cores { (shared_view machine.new).cores ≡ (shared_view machine.old).cores }
    ensures cycles { (shared_view machine.new).cycles ≡ (shared_view machine.old).cycles }
{
    shelf.create(name)?;
    let mut piece = Vec::new(alloc);
    let Ok(()) = begin(&mut piece, model, machine.processors()) else {
        return Err(StoreFault::Memory);
    };
    store_lines(name, machine, &mut piece, shelf)?;
    let Ok(counts) = retired_counts(alloc, machine) else {
        return Err(StoreFault::Memory);
    };
    let Ok(()) = finish(&mut piece, &counts) else {
        return Err(StoreFault::Memory);
    };
    shelf.append(name, &piece)
}

// Writes the lines of all accesses behind what is written so far.
fn store_lines<S: Shelf>(
    name: &str,
    machine: &mut SharedMachine,
    piece: &mut Vec<u8>,
    shelf: &mut S,
) -> Result<(), StoreFault>
    requires retired { All (λ x. x.retired ≡ true) (shared_view machine.old).log }
    ensures written { GoesOn name.now (flat_map line (accesses_of (shared_view machine.old))) (S.holds shelf.old) piece.old.items (S.holds shelf.new) piece.new.items result }
    ensures cause { HasCause (IsErrOf result StoreFault.Failed) (S.faults shelf.old) (S.faults shelf.new) }
    ensures sure { S.sure shelf.new ≡ S.sure shelf.old }
    ensures sure_to_store { IsTrue (S.sure shelf.old) → IsErrOf result StoreFault.Failed → ⊥ }
    ensures cores { (shared_view machine.new).cores ≡ (shared_view machine.old).cores }
    ensures cycles { (shared_view machine.new).cycles ≡ (shared_view machine.old).cycles }
{
    while let Some(access) = machine.take_final() {
        store_line(name, &access, piece, shelf)?;
    }
    Ok(())
}

// Writes the line of an access behind what is written so far. A long piece goes into the file.
fn store_line<S: Shelf>(
    name: &str,
    access: &Access,
    piece: &mut Vec<u8>,
    shelf: &mut S,
) -> Result<(), StoreFault>
    ensures written { GoesOn name.now (line access.now) (S.holds shelf.old) piece.old.items (S.holds shelf.new) piece.new.items result }
    ensures cause { HasCause (IsErrOf result StoreFault.Failed) (S.faults shelf.old) (S.faults shelf.new) }
    ensures sure { S.sure shelf.new ≡ S.sure shelf.old }
    ensures sure_to_store { IsTrue (S.sure shelf.old) → IsErrOf result StoreFault.Failed → ⊥ }
{
    let Ok(()) = entry(piece, access) else {
        return Err(StoreFault::Memory);
    };
    if piece.len() >= PIECE {
        shelf.append(name, piece)?;
        piece.clear();
    }
    Ok(())
}

// By processor, the steps that it has retired.
fn retired_counts(alloc: Global, machine: &SharedMachine) -> Result<Vec<u32>, NoMemory>
    ensures { IfOk result (λ counts. counts.items ≡ counts_of (shared_view machine.now)) }
{
    let mut counts = Vec::new(alloc);
    for p in 0..machine.processors() {
        if counts.push(machine.retired(Node(p))).is_err() {
            return Err(NoMemory);
        }
    }
    Ok(counts)
}
