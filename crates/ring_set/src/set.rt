// Sets of places of a ring.
ghost use Rattle.std.specs.Prelude.{◌≡◌, ℕ, ◌-◌, ◌^◌, ◌<◌, ◌≤◌, ◌==◌, ◌&&◌, ◌||◌, not, true, false, nat_lt};
ghost use Rattle.ring_set.specs.Sets.{aged, greatest, has, how_many, least};

/// How many places the ring has.
pub const PLACES: u8 = 128;

/// A set of places of a ring of 128. What stands in the ring is counted from a head on, so a place has an age: the head's is
/// 0, the place before it has 127.
#[derive(Clone, Copy, Debug, PartialEq, Eq)]
pub struct Places(u128);

impl Places {
    /// No place.
    pub fn none() -> Places
        ensures { (j : ℕ) → has result j ≡ false }
    {
        Places(0)
    }

    /// Whether the place is in the set.
    pub fn has(self, place: u8) -> bool
        requires { place < 128 }
        ensures { result ≡ has self place }
    {
        self.0 >> place & 1 == 1
    }

    /// Whether no place is in the set.
    pub fn is_empty(self) -> bool
        ensures none { result ≡ true → (j : ℕ) → has self j ≡ false }
        ensures some { ((j : ℕ) → has self j ≡ false) → result ≡ true }
    {
        self.0 == 0
    }

    /// The set and this place.
    pub fn with(self, place: u8) -> Places
        requires { place < 128 }
        ensures { (j : ℕ) → has result j ≡ ((j == place) || has self j) }
    {
        Places(self.0 | 1u128 << place)
    }

    /// The set but for this place.
    pub fn without(self, place: u8) -> Places
        requires { place < 128 }
        ensures has { (j : ℕ) → has result j ≡ (not (j == place) && has self j) }
        ensures less { has self place ≡ true → result.0 < self.0 }
    {
        Places(self.0 & !(1u128 << place))
    }

    /// Those that are in both sets.
    pub fn and(self, other: Places) -> Places
        ensures { (j : ℕ) → has result j ≡ (has self j && has other j) }
    {
        Places(self.0 & other.0)
    }

    /// Those that are in one of the sets, or in both.
    pub fn or(self, other: Places) -> Places
        ensures { (j : ℕ) → has result j ≡ (has self j || has other j) }
    {
        Places(self.0 | other.0)
    }

    /// Those that are not in the other set.
    pub fn outside(self, other: Places) -> Places
        ensures { (j : ℕ) → has result j ≡ (has self j && not (has other j)) }
    {
        Places(self.0 & !other.0)
    }

    /// The `count` places from the head on.
    pub fn run(head: u8, count: u8) -> Places
        requires head { head < 128 }
        requires count { count ≤ 128 }
        ensures { (k : ℕ) → k < 128 → aged result head k ≡ nat_lt k count }
    {
        Places(ones(count).rotate_left(u32::from(head)))
    }

    /// How many places there are in the set, counted from any head.
    pub fn count(self) -> u8
        ensures { (head : ℕ) → head < 128 → result ≡ how_many (aged self head) 128 }
    {
        self.0.count_ones() as u8
    }

    /// The ages of the places of the set, each in the place of its number.
    pub fn by_age(self, head: u8) -> Places
        requires { head < 128 }
        ensures { (k : ℕ) → k < 128 → has result k ≡ aged self head k }
    {
        Places(self.0.rotate_right(u32::from(head)))
    }

    /// The least age of a place, counted from the head; 128 where there is none.
    pub fn oldest(self, head: u8) -> u8
        requires { head < 128 }
        ensures { result ≡ least (aged self head) 128 }
    {
        self.0.rotate_right(u32::from(head)).trailing_zeros() as u8
    }

    /// The greatest age below `count`, and one more; 0 where there is none.
    pub fn youngest(self, head: u8, count: u8) -> u8
        requires head { head < 128 }
        requires count { count ≤ 128 }
        ensures { result ≡ greatest (aged self head) count }
    {
        let young = self.0.rotate_right(u32::from(head)) & ones(count);
        (128 - young.leading_zeros()) as u8
    }
}

// The lowest `count` bits.
fn ones(count: u8) -> u128
    requires { count ≤ 128 }
    ensures { result ≡ 2 ^ count - 1 }
{
    if count == PLACES {
        u128::MAX
    } else {
        (1u128 << count) - 1
    }
}
