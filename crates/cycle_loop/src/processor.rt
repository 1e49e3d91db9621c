// A processor that makes its steps in the order of its program.
ghost use Rattle.std.specs.Prelude.{◌≡◌, ◌+◌, ◌<◌, ◌≤◌, ◌++◌, ◌∷◌, [], true, map, length, decimal, IfSome, OnOk, vec_len, vec_capacity};
ghost use Rattle.rsim_base.specs.Limits.{max_steps};
ghost use Rattle.order_log.specs.Log.{placed};
ghost use Rattle.sparc_meaning.specs.Arch.{IsSound};
ghost use Rattle.sparc_meaning.specs.Run.{accesses_of, output_of};
ghost use Rattle.sparc_meaning.specs.Accesses.{access_of, HasNumbers};
ghost use Rattle.cycle_loop.specs.Machine.{core_after};
ghost use Rattle.cycle_loop.specs.Processors.{view_of};
ghost use Rattle.cycle_loop.specs.Start.{booted};

use elf64_load::Image;
use itoa::Buffer;
use order_log::OrderLog;
use rsim_base::{NoMemory, Node};
use sparc_meaning::{Act, Arch, Spoken, boot};
use std::alloc::Global;

/// The most bytes that one step puts: a number in decimal, and a line feed.
const MOST_PUT: usize = 21;

/// A processor: its state, how many steps it has retired and how many accesses these have made, and its output.
#[derive(Drop)]
pub(crate) struct Processor {
    pub(crate) arch: Arch,
    pub(crate) retired: u32,
    pub(crate) accesses: u32,
    pub(crate) output: Vec<u8>,
}

impl Processor {
    /// Processor `p` of so many, before its first step.
    pub(crate) fn boot(alloc: Global, image: &Image, p: Node, processors: u8) -> Processor
        requires among { p.0 < processors }
        ensures view { view_of result ≡ booted image.now processors p.0 }
        ensures sound { IsSound result.arch }
    {
        Processor {
            arch: boot(image, p, processors),
            retired: 0,
            accesses: 0,
            output: Vec::new(alloc),
        }
    }

    /// Makes room in the output for what one step puts.
    ///
    /// # Errors
    /// Where memory is short.
    pub(crate) fn reserve(&mut self) -> Result<(), NoMemory>
        ensures view { view_of self.new ≡ view_of self.old }
        ensures ok { OnOk result (vec_len self.new.output + 21 ≤ vec_capacity self.new.output) }
    {
        self.output.reserve(MOST_PUT).map_err(|_| NoMemory)
    }

    /// Retires the step that has led to its state, and puts the access of the step at the end of the order.
    pub(crate) fn retire(&mut self, p: Node, act: Act, log: &mut OrderLog)
        requires room { vec_len self.old.output + 21 ≤ vec_capacity self.old.output }
        requires few { self.old.retired < max_steps }
        requires fewer { self.old.accesses ≤ self.old.retired }
        requires place { 0 < log.old.spare }
        ensures view { view_of self.new ≡ core_after p.0 (record { state = self.old.arch; act = act }) (view_of self.old) }
        ensures log { log.new.places ≡ log.old.places ++ map (λ a. placed a true) (accesses_of p.0 self.old.accesses act) }
        ensures spare { log.old.spare ≤ log.new.spare + 1 }
        ensures fewer { self.new.accesses ≤ self.new.retired }
        ensures numbers { IfSome (access_of p.0 self.old.accesses act) HasNumbers }
    {
        self.accesses += list(p, self.accesses, act, log);
        put(&mut self.output, act);
        self.retired += 1;
    }
}

// Puts the access of a step at the end of the order, if it makes one, and answers how many it makes.
fn list(p: Node, index: u32, act: Act, log: &mut OrderLog) -> u32
    requires { 0 < log.old.spare }
    ensures log { log.new.places ≡ log.old.places ++ map (λ a. placed a true) (accesses_of p.0 index act) }
    ensures spare { log.old.spare ≤ log.new.spare + 1 }
    ensures count { result ≡ length (accesses_of p.0 index act) }
    ensures most { result ≤ 1 }
    ensures numbers { IfSome (access_of p.0 index act) HasNumbers }
{
    match act.access(p, index) {
        // It is performed and retired at once, so its place is that of a store which is retired already.
        Some(access) => {
            log.close(&access);
            1
        }
        None => 0,
    }
}

// Puts what a step says behind the output.
fn put(output: &mut Vec<u8>, act: Act)
    requires { vec_len output.old + 21 ≤ vec_capacity output.old }
    ensures { output.new.items ≡ output.old.items ++ output_of act }
{
    match act {
        Act::Out(Spoken::Byte(byte)) => output.push_reserved(byte),
        Act::Out(Spoken::Number(number)) => put_decimal(output, number),
        Act::Nothing | Act::Load(_, _, _) | Act::Store(_, _, _) => {}
        Act::Atomic(_, _, _, _) | Act::Fence(_) | Act::End => {}
    }
}

fn put_decimal(output: &mut Vec<u8>, number: u64)
    requires { vec_len output.old + 21 ≤ vec_capacity output.old }
    ensures { output.new.items ≡ output.old.items ++ (decimal number ++ 10 ∷ []) }
{
    let mut digits = Buffer::new();
    let Ok(()) = output.extend_from_slice(digits.format(number).as_bytes()) else {
        unreachable!()
    };
    output.push_reserved(b'\n');
}
