// Memory as the processors see it: addresses, accesses, and the bytes that they touch.
ghost use Rattle.std.specs.Prelude.{◌≡◌, ◌≢◌, ◌↔◌, ◌+◌, ◌-◌, ◌*◌, ◌/◌, ◌%◌, ◌^◌, ◌<◌, IsTrue};
ghost use Rattle.rsim_base.specs.Accesses as accesses;
ghost use Rattle.rsim_base.specs.Bytes.{count_of, low_bytes, Overlaps, Covers, starts_in, gap_of, byte_of, part_within};

/// A node of the machine: a processor with its caches and its share of the memory.
#[derive(Clone, Copy, Debug, Default, PartialEq, Eq)]
pub struct Node(pub u8);

/// The address of a byte. Sums of addresses are modulo 2^64.
#[derive(Clone, Copy, Debug, PartialEq, Eq)]
pub struct Addr(pub u64);

/// A cache line: an address divided by the line size.
#[derive(Clone, Copy, Debug, Default, PartialEq, Eq)]
pub struct Line(pub u64);

/// How many bytes an access has.
#[derive(Clone, Copy, Debug, PartialEq, Eq)]
pub enum Size {
    B1,
    B2,
    B4,
    B8,
}

/// What an access does to memory. An atomic loads and stores at once.
#[derive(Clone, Copy, Debug, PartialEq, Eq)]
pub enum Kind {
    Load,
    Store,
    Atomic,
}

/// A consistency model: sequential, processor or release consistency.
#[derive(Clone, Copy, Debug, PartialEq, Eq)]
pub enum Model {
    Sc,
    Pc,
    Rc,
}

/// One access of a processor: its number among that processor's accesses, from 0, and what it
/// loaded and stored. The value that its kind lacks is 0.
#[derive(Clone, Copy, Debug, PartialEq, Eq)]
pub struct Access {
    pub node: Node,
    pub kind: Kind,
    pub size: Size,
    pub index: u32,
    pub addr: Addr,
    pub loaded: u64,
    pub stored: u64,
}

impl Size {
    /// The number of bytes: 1, 2, 4 or 8.
    pub fn count(self) -> u64
        ensures { result ≡ count_of self }
    {
        match self {
            Size::B1 => 1,
            Size::B2 => 2,
            Size::B4 => 4,
            Size::B8 => 8,
        }
    }

    /// The low bytes of a value, as many as the size.
    pub fn low(self, value: u64) -> u64
        ensures { result ≡ low_bytes self value }
    {
        match self {
            Size::B1 => value % (1 << 8),
            Size::B2 => value % (1 << 16),
            Size::B4 => value % (1 << 32),
            Size::B8 => value,
        }
    }
}

impl Kind {
    /// Whether such an access loads: a load or an atomic.
    pub fn loads(self) -> bool
        ensures { result ≡ accesses.loads self }
    {
        match self {
            Kind::Load | Kind::Atomic => true,
            Kind::Store => false,
        }
    }

    /// Whether such an access stores: a store or an atomic.
    pub fn stores(self) -> bool
        ensures { result ≡ accesses.stores self }
    {
        match self {
            Kind::Store | Kind::Atomic => true,
            Kind::Load => false,
        }
    }
}

impl Access {
    /// Whether some byte is in both accesses.
    pub fn overlaps(&self, other: &Access) -> bool
        ensures value { result ≡ accesses.overlap self.now other.now }
        ensures bytes { IsTrue result ↔ Overlaps self.now.addr.0 (count_of self.now.size) other.now.addr.0 (count_of other.now.size) }
    {
        overlap(self.addr, self.size, other.addr, other.size)
    }
}

// How far the second address is above the first, going round at 2^64.
fn gap(from: Addr, to: Addr) -> u64
    ensures { result ≡ gap_of from.0 to.0 }
{
    to.0.wrapping_sub(from.0)
}

/// Whether some byte is in both accesses.
pub fn overlap(a: Addr, n: Size, b: Addr, m: Size) -> bool
    ensures value { result ≡ starts_in a.0 (count_of n) b.0 (count_of m) }
    ensures bytes { IsTrue result ↔ Overlaps a.0 (count_of n) b.0 (count_of m) }
{
    gap(a, b) < n.count() || gap(b, a) < m.count()
}

/// Whether every byte of the second access is in the first.
pub fn covers(a: Addr, n: Size, b: Addr, m: Size) -> bool
    ensures { IsTrue result ↔ Covers a.0 (count_of n) b.0 (count_of m) }
{
    let start = gap(a, b);
    start < n.count() && start + m.count() <= n.count()
}

/// Byte `at` of an access of size `n` that has this value, the first in memory at 0. Memory is
/// big-endian (SPARC V9, 6.3.1.2).
pub fn cut(value: u64, n: Size, at: u64) -> u8
    requires { at < count_of n }
    ensures { result ≡ byte_of value (count_of n) at }
{
    let below = n.count() - 1 - at;
    ((value >> (8 * below)) % 256) as u8
}

/// The `n` bytes of a value of `m` bytes from place `at` on, as a number; the first in memory is at 0. `None` where the value
/// has not all of them.
pub fn bytes_within(value: u64, m: Size, at: u64, n: Size) -> Option<u64>
    ensures { result ≡ part_within value (count_of m) at (count_of n) }
{
    let (has, wants) = (m.count(), n.count());
    if wants > has || at > has - wants {
        return None;
    }
    Some(n.low(value >> (8 * (has - wants - at))))
}

/// The line of `line_bytes` bytes that a byte is in.
pub fn line_of(a: Addr, line_bytes: u64) -> Line
    requires { line_bytes ≢ 0 }
    ensures { result ≡ record { 0 = a.0 / line_bytes } }
{
    Line(a.0 / line_bytes)
}
