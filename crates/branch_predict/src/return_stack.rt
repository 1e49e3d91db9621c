// A stack of return addresses.
ghost use Rattle.std.specs.Prelude.{◌≡◌, ◌+◌, ◌-◌, ◌%◌, ◌^◌, ◌<◌, ◌++◌, ◌∷◌, [], IfOk, length, take, filter, nat_lt, option_map};
ghost use Rattle.std.specs.List.Sorted.{IsNonDecreasingBy};
ghost use Rattle.circular_buffer.specs.Buffer.{keep_last, last_item};
ghost use Rattle.branch_predict.specs.Parts.{is_from};

use circular_buffer::HeapCircularBuffer;
use rsim_base::NoMemory;
use std::alloc::Global;
use std::marker::Model;

// The bytes of a call and the instruction in its delay slot: a call returns behind them.
const CALL_BYTES: u64 = 8;

/// A return address, and the number of its push, counted from 0.
#[derive(Clone, Copy, Debug, PartialEq, Eq)]
pub(crate) struct Pushed {
    pub(crate) number: u64,
    pub(crate) address: u64,
}

/// Return addresses in a fixed number of places. A push on a full stack drops the oldest.
#[derive(Drop)]
pub(crate) struct ReturnStack {
    stack: HeapCircularBuffer<Pushed>,
    pushes: u64,
}

impl Model for ReturnStack {
    ghost use Rattle.branch_predict.specs.Parts.{StackView, AreNumbered};

    ghost Value = { StackView };

    ghost view = { λ r. record { stack = r.stack.items; places = r.stack.capacity; pushes = r.pushes } };

    ghost invariant = { λ r. AreNumbered r.stack.items r.pushes };
}

impl ReturnStack {
    /// An empty stack of so many places. No other call takes memory.
    ///
    /// # Errors
    /// Where memory is short.
    pub(crate) fn make(alloc: Global, places: u32) -> Result<ReturnStack, NoMemory>
        ensures { IfOk result (λ r. r ≡ record { stack = []; places = places; pushes = 0 }) }
    {
        let stack = HeapCircularBuffer::with_capacity(alloc, places as usize).map_err(
            |_| NoMemory,
        )?;
        Ok(ReturnStack { stack, pushes: 0 })
    }

    /// Pushes the address to which the call at `pc` returns, modulo 2^64.
    pub(crate) fn push(&mut self, pc: u64)
        requires { self.old.pushes < 2 ^ 64 - 1 }
        ensures { self.new ≡ record self.old {
          stack = keep_last self.old.places (self.old.stack ++ record { number = self.old.pushes; address = (pc + 8) % 2 ^ 64 } ∷ []);
          pushes = self.old.pushes + 1;
        } }
    {
        self.stack.push_back(Pushed {
            number: self.pushes,
            address: pc.wrapping_add(CALL_BYTES),
        });
        self.pushes += 1;
    }

    /// Takes the youngest address, if there is one.
    pub(crate) fn pop(&mut self) -> Option<u64>
        ensures value { result ≡ option_map (λ p. p.address) (last_item self.old.stack) }
        ensures after { self.new ≡ record self.old { stack = take (length self.old.stack - 1) self.old.stack } }
    {
        let pushed = self.stack.pop_back()?;
        Some(pushed.address)
    }

    /// How many addresses have been pushed so far.
    pub(crate) fn pushes(&self) -> u64
        ensures { result ≡ self.now.pushes }
    {
        self.pushes
    }

    /// Drops the addresses of the pushes whose numbers are at least `mark`.
    pub(crate) fn back_to(&mut self, mark: u64)
        ensures { self.new ≡ record self.old { stack = filter (λ p. nat_lt p.number mark) self.old.stack } }
    {
        drop_from(&mut self.stack, mark);
    }
}

// Numbers rise along the stack, so what is to be dropped stands at its end.
fn drop_from(stack: &mut HeapCircularBuffer<Pushed>, mark: u64)
    requires { IsNonDecreasingBy (λ p. p.number) stack.old.items }
    ensures { stack.new ≡ record stack.old { items = filter (λ p. nat_lt p.number mark) stack.old.items } }
{
    while is_youngest_from(stack, mark) {
        stack.pop_back();
    }
}

// Whether there is an address, and the youngest was pushed at `mark` or later.
fn is_youngest_from(stack: &HeapCircularBuffer<Pushed>, mark: u64) -> bool
    ensures { result ≡ is_from mark (last_item stack.now.items) }
{
    stack.back().is_some_and(|pushed| pushed.number >= mark)
}
