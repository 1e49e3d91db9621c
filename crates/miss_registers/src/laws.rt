//! Laws of the misses. Their function does nothing: a law is a contract.

ghost use Rattle.std.specs.Prelude.{◌≡◌, ◌==◌, ℕ, Bool, List, Option, Some, None, option_map, if◌then◌else◌};
ghost use Rattle.miss_registers.specs.Misses.{MissView, register_of, victim_of, with_register, without_register, with_victim, without_victim, with_emptied};

/// A change is of one line: its own register or slot is as the change says, and each other line's is as before.
pub fn lines_are_apart()
    ensures begun { (line : ℕ) (own : Bool) (m : MissView) (q : ℕ)
        → register_of (with_register line own m) q ≡ (if q == line then Some own else register_of m q) }
    ensures closed { (line : ℕ) (m : MissView) (q : ℕ)
        → register_of (without_register line m) q ≡ (if q == line then None else register_of m q) }
    ensures kept { (line : ℕ) (slot : Option (List ℕ)) (m : MissView) (q : ℕ)
        → victim_of (with_victim line slot m) q ≡ (if q == line then Some slot else victim_of m q) }
    ensures emptied { (line : ℕ) (m : MissView) (q : ℕ)
        → victim_of (with_emptied line m) q
        ≡ (if q == line then option_map (λ slot. None) (victim_of m line) else victim_of m q) }
    ensures freed { (line : ℕ) (m : MissView) (q : ℕ)
        → victim_of (without_victim line m) q ≡ (if q == line then None else victim_of m q) }
{}
