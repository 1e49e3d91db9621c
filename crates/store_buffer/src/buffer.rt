// Retired stores that wait to be performed.
ghost use Rattle.std.specs.Prelude.{◌≡◌, ◌<◌, ◌≤◌, [], IfOk, IfSome, Some, false, length, option_copied, option_map, slice_get, vec_capacity, vec_len};
ghost use Rattle.store_buffer.specs.Buffers as buffers;
ghost use Rattle.std.specs.Option.{option_map_or};
ghost use Rattle.list_facts.specs.Least.{IsGreatest, IsLeast};
ghost use Rattle.store_buffer.specs.Buffers.{PushesOf, Removes, given, is_free_at, is_met_at, lets, meets};

use order_axioms::{Fences, needs};
use rsim_base::{Access, Addr, Model, NoMemory, Size, bytes_within, overlap};
use std::alloc::Global;
use thiserror::Error;

/// Each place of the buffer is taken.
#[derive(Clone, Copy, Debug, PartialEq, Eq, Error)]
#[error("the store buffer is full")]
pub struct Full;

// A store, and the fences before it in its program.
#[derive(Clone, Copy, Debug, PartialEq, Eq)]
pub(crate) struct Waiting {
    pub(crate) access: Access,
    pub(crate) fences: Fences,
}

/// The stores of a core that are retired and not performed, in the order of the program. They may be performed in another
/// order, as far as the model allows. No call but `make` takes memory.
#[derive(Drop)]
pub struct StoreBuffer {
    stores: Vec<Waiting>,
    size: u32,
}

impl std::marker::Model for StoreBuffer {
    ghost use Rattle.std.specs.Prelude.{◌<◌, ◌≤◌, ◌^◌, vec_capacity, vec_len};
    ghost use Rattle.store_buffer.specs.Buffers.{BufferView};

    ghost Value = { BufferView };

    ghost view = { λ b. record { stores = b.stores.items; size = b.size } };

    ghost invariant = { λ b. (vec_len b.stores ≤ b.size) × (b.size ≤ vec_capacity b.stores) × (b.size < 2 ^ 32) };
}

impl StoreBuffer {
    /// A buffer for `size` stores, with none.
    ///
    /// # Errors
    /// Where memory is short.
    pub fn make(alloc: Global, size: u32) -> Result<StoreBuffer, NoMemory>
        ensures { IfOk result (λ b. b ≡ record { stores = []; size = size }) }
    {
        let stores = Vec::with_capacity(alloc, size as usize).map_err(|_| NoMemory)?;
        Ok(StoreBuffer { stores, size })
    }

    /// A store joins as the youngest, with the fences before it in the program.
    ///
    /// # Errors
    /// Exactly where the buffer has as many as it may have. Then nothing changes.
    pub fn push(&mut self, a: Access, f: Fences) -> Result<(), Full>
        ensures { PushesOf a f self.old result self.new }
    {
        if self.stores.len() >= self.size as usize {
            return Err(Full);
        }
        self.stores.push_reserved(Waiting {
            access: a,
            fences: f,
        });
        Ok(())
    }

    /// The place of the first store from place `from` on that no earlier store of the buffer must come before. `None` where
    /// there is none.
    pub fn performable(&self, m: Model, from: u32) -> Option<u32>
        ensures { IsLeast from (is_free_at m self.now.stores) (length self.now.stores) result }
    {
        let free = first_free(m, self.stores.as_slice(), from as usize)?;
        Some(free as u32)
    }

    /// Whether no store of the buffer must come before this access, which its program made later, after so many fences.
    pub fn lets(&self, m: Model, a: &Access, f: &Fences) -> bool
        ensures { result ≡ lets m a.now f.now self.now.stores }
    {
        let later = Waiting {
            access: *a,
            fences: *f,
        };
        is_free(m, self.stores.as_slice(), &later)
    }

    /// The place of the youngest store at one of the `n` bytes from `a` on, and those bytes as it stores them: none where it
    /// does not store them all. `None` where no store is at one of them.
    pub fn meets(&self, a: Addr, n: Size) -> Option<(u32, Option<u64>)>
        ensures youngest { IsGreatest (is_met_at a n self.now.stores) (length self.now.stores) (option_map (λ x. x.0) result) }
        ensures bytes { IfSome result (λ x. option_map (given a n) (slice_get self.now.stores x.0) ≡ Some x.1) }
    {
        let k = youngest_met(self.stores.as_slice(), a, n)?;
        Some((k as u32, bytes_given(&self.stores[k], a, n)))
    }

    /// The store with `k` older ones. `None` where there is none.
    pub fn at(&self, k: u32) -> Option<&Access>
        ensures { option_copied result ≡ option_map (λ s. s.access) (slice_get self.now.stores k) }
    {
        let store = self.stores.get(k as usize)?;
        Some(&store.access)
    }

    /// The fences before the store with `k` older ones. `None` where there is none.
    pub fn fences_at(&self, k: u32) -> Option<&Fences>
        ensures { option_copied result ≡ option_map (λ s. s.fences) (slice_get self.now.stores k) }
    {
        let store = self.stores.get(k as usize)?;
        Some(&store.fences)
    }

    /// Takes the store with `k` older ones out, as it is performed. `None` where there is none, and then nothing changes.
    pub fn performed(&mut self, k: u32) -> Option<Access>
        ensures { Removes k self.old result self.new }
    {
        let k = k as usize;
        if k >= self.stores.len() {
            return None;
        }
        Some(self.stores.remove(k).access)
    }

    /// How many stores wait.
    pub fn len(&self) -> u32
        ensures { result ≡ length self.now.stores }
    {
        self.stores.len() as u32
    }
}

// The first place from `from` on whose store no earlier one must come before.
fn first_free(m: Model, stores: &[Waiting], from: usize) -> Option<usize>
    ensures { IsLeast from (is_free_at m stores.now) (length stores.now) result }
{
    for k in from..stores.len() {
        if is_free(m, &stores[..k], &stores[k]) {
            return Some(k);
        }
    }
    None
}

// Whether none of these earlier stores must come before it. One before a fence shows in the oldest, which has the fewest
// fences before it, and one that overlaps mostly is young.
fn is_free(m: Model, earlier: &[Waiting], y: &Waiting) -> bool
    ensures { result ≡ buffers.is_free m earlier.now y.now }
{
    if is_oldest_needed(m, earlier, y) {
        return false;
    }
    !earlier.iter().rev().any(|x| is_needed(m, x, y))
}

// Whether there is an oldest of these, and it must come before the later one.
fn is_oldest_needed(m: Model, earlier: &[Waiting], y: &Waiting) -> bool
    ensures { result ≡ option_map_or (λ x. buffers.is_needed m x y.now) (slice_get earlier.now 0) false }
{
    match earlier.first() {
        Some(x) => is_needed(m, x, y),
        None => false,
    }
}

// Whether the first store must come before the second, which its program made later.
fn is_needed(m: Model, x: &Waiting, y: &Waiting) -> bool
    ensures { result ≡ buffers.is_needed m x.now y.now }
{
    needs(m, &x.access, &x.fences, &y.access, &y.fences)
}

// The place of the youngest store at one of the `n` bytes from `a` on.
fn youngest_met(stores: &[Waiting], a: Addr, n: Size) -> Option<usize>
    ensures { IsGreatest (is_met_at a n stores.now) (length stores.now) result }
{
    for k in (0..stores.len()).rev() {
        if is_met(&stores[k], a, n) {
            return Some(k);
        }
    }
    None
}

// Whether it stores at one of the `n` bytes from `a` on.
fn is_met(store: &Waiting, a: Addr, n: Size) -> bool
    ensures { result ≡ meets a n store.now }
{
    overlap(store.access.addr, store.access.size, a, n)
}

// The `n` bytes from `a` on, where it stores them all.
fn bytes_given(store: &Waiting, a: Addr, n: Size) -> Option<u64>
    ensures { result ≡ given a n store.now }
{
    let gap = a.0.wrapping_sub(store.access.addr.0);
    bytes_within(store.access.stored, store.access.size, gap, n)
}
