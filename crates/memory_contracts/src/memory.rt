// The bytes of memory.
ghost use Rattle.std.specs.Prelude.{◌≡◌, ℕ, ◌+◌, ◌<◌, ◌≤◌, ◌%◌, ◌/◌, [], true, OnOk};
ghost use Rattle.rsim_base.specs.Bytes.{byte_of, count_of};
ghost use Rattle.elf64_load.specs.Image.{byte_at};
ghost use Rattle.memory_contracts.specs.First.{AreFirst};
ghost use Rattle.memory_contracts.specs.Store.{stored, value_at};

use elf64_load::Image;
use image_memory::{first_doubleword, part, with_part};
use rsim_base::{NoMemory, Size};
use std::alloc::Global;
use std::collections::HashMap;

/// Memory as doublewords by their numbers: that of number `k` has the eight bytes from `8 * k` on, the first highest.
#[derive(Drop)]
pub struct Memory {
    doublewords: HashMap<u64, u64>,
}

impl Memory {
    ghost use Rattle.memory_contracts.specs.Parts.{byte_in, doubleword_in, has_doubleword, IsPutInto};
    ghost use Rattle.memory_contracts.specs.Updates.{with_at};

    /// Memory in which nothing is kept.
    pub fn new(alloc: Global) -> Memory
        ensures { result.doublewords.entries ≡ [] }
    {
        Memory {
            doublewords: HashMap::new(alloc),
        }
    }

    /// Keeps the doubleword of a number, with the image's bytes.
    ///
    /// # Errors
    /// Where memory is short.
    pub fn add(&mut self, image: &Image, number: u64) -> Result<(), NoMemory>
        ensures kept { OnOk result (has_doubleword self.new ≡ with_at (has_doubleword self.old) number true) }
        ensures bytes { OnOk result ((v : ℕ) × AreFirst image.now number v × (doubleword_in self.new ≡ with_at (doubleword_in self.old) number v)) }
    {
        match self.doublewords.insert(number, first_value(image, number)) {
            Ok(_) => Ok(()),
            Err(_) => Err(NoMemory),
        }
    }

    /// The value of `n` bytes at a multiple of `n`.
    pub fn read(&self, a: u64, n: Size) -> u64
        requires { a % count_of n ≡ 0 }
        ensures { result ≡ value_at (byte_in self.now) a (count_of n) }
    {
        part(self.doubleword(a / 8), a % 8, n)
    }

    /// Stores the low `n` bytes of a value at a multiple of `n`.
    pub fn write(&mut self, a: u64, n: Size, value: u64)
        requires aligned { a % count_of n ≡ 0 }
        requires there { has_doubleword self.old (a / 8) ≡ true }
        ensures bytes { byte_in self.new ≡ stored (byte_in self.old) a (count_of n) value }
        ensures kept { has_doubleword self.new ≡ has_doubleword self.old }
    {
        self.put(a / 8, a % 8, n, value);
    }

    fn doubleword(&self, number: u64) -> u64
        ensures { result ≡ doubleword_in self.now number }
    {
        self.doublewords.get(&number).copied().unwrap_or(0)
    }

    // Puts the low `n` bytes of a value into a doubleword that is kept, from its place `at` on.
    fn put(&mut self, number: u64, at: u64, n: Size, value: u64)
        requires there { has_doubleword self.old number ≡ true }
        requires room { at + count_of n ≤ 8 }
        ensures value { (w : ℕ) × IsPutInto (doubleword_in self.old number) at n value w × (doubleword_in self.new ≡ with_at (doubleword_in self.old) number w) }
        ensures kept { has_doubleword self.new ≡ has_doubleword self.old }
    {
        if let Some(doubleword) = self.doublewords.get_mut(&number) {
            *doubleword = with_part(*doubleword, at, n, value);
        }
    }
}

// The image's doubleword of a number: 0 where that is past the last address.
fn first_value(image: &Image, number: u64) -> u64
    ensures { AreFirst image.now number result }
{
    if number < 1 << 61 {
        first_doubleword(image, number * 8)
    } else {
        0
    }
}
