// Memory, byte by byte.
ghost use Rattle.std.specs.Prelude.{◌≡◌, ◌+◌, ◌%◌, ◌<◌, ℕ, nat_eq, if◌then◌else◌, Some, None, OnOk};
ghost use Rattle.rsim_base.specs.Bytes.{byte_of, count_of, FitsIn};

use crate::parts::{first_doubleword, part, with_part};
use elf64_load::Image;
use rsim_base::{NoMemory, Size, cut};
use std::alloc::Global;
use std::collections::HashMap;

/// The doublewords that were stored to, by their addresses. Where nothing was stored, memory has the
/// bytes of the image.
#[derive(Drop)]
pub struct Memory {
    doublewords: HashMap<u64, u64>,
}

impl Memory {
    ghost use Rattle.image_memory.specs.Memory.{doubleword_at, byte_in, IsValueAt, IsWritten};

    /// Memory in which nothing was stored.
    pub fn new(alloc: Global) -> Memory
        ensures { (a : ℕ) → doubleword_at result a ≡ None }
    {
        Memory {
            doublewords: HashMap::new(alloc),
        }
    }

    /// The byte at an address.
    pub fn byte(&self, image: &Image, addr: u64) -> u8
        ensures { result ≡ byte_in image.now self.now addr }
    {
        cut(self.doubleword(image, addr - addr % 8), Size::B8, addr % 8)
    }

    /// The value of an aligned access.
    pub fn read(&self, image: &Image, addr: u64, n: Size) -> u64
        requires { addr % count_of n ≡ 0 }
        ensures value { IsValueAt image.now self.now addr n result }
        ensures fits { FitsIn n result }
    {
        part(self.doubleword(image, addr - addr % 8), addr % 8, n)
    }

    /// Stores the value of an aligned access.
    ///
    /// # Errors
    /// Memory could not be had; nothing is said of what stands then.
    pub fn write(&mut self, image: &Image, addr: u64, n: Size, value: u64) -> Result<(), NoMemory>
        requires { addr % count_of n ≡ 0 }
        ensures { OnOk result (IsWritten image.now addr n value self.old self.new) }
    {
        let start = addr - addr % 8;
        let doubleword = with_part(self.doubleword(image, start), addr % 8, n, value);
        self.set_doubleword(start, doubleword)
    }

    // The doubleword at a multiple of 8.
    fn doubleword(&self, image: &Image, start: u64) -> u64
        requires { start % 8 ≡ 0 }
        ensures { (k : ℕ) → k < 8 → byte_of result 8 k ≡ byte_in image.now self.now (start + k) }
    {
        match self.doublewords.get(&start) {
            Some(value) => *value,
            None => first_doubleword(image, start),
        }
    }

    fn set_doubleword(&mut self, start: u64, value: u64) -> Result<(), NoMemory>
        ensures { OnOk result ((a : ℕ) → doubleword_at self.new a ≡ (if nat_eq start a then Some value else doubleword_at self.old a)) }
    {
        match self.doublewords.insert(start, value) {
            Ok(_) => Ok(()),
            Err(_) => Err(NoMemory),
        }
    }
}
