// The registers that an entry waits for.
ghost use Rattle.std.specs.Prelude.{◌≡◌, ◌<◌, ◌==◌, ◌&&◌, ◌||◌, ℕ, map, length, true};
ghost use Rattle.std.specs.List.{All};
ghost use Rattle.ring_set.specs.Sets.{has};
ghost use Rattle.issue_queue.specs.Needs.{is_clear, is_need, is_within, needs_it, readers_at, without_reg};

use ring_set::Places;
use rsim_base::PhysReg;

/// At most five registers.
pub type Needs = [Option<PhysReg>; 5];

/// Whether it waits for none.
pub fn is_clear(needs: &Needs) -> bool
    ensures { result ≡ is_clear needs.now }
{
    needs.iter().all(|need| need.is_none())
}

/// Takes a register off.
pub fn clear_need(needs: &mut Needs, r: PhysReg)
    ensures { needs.new ≡ map (without_reg r.0) needs.old }
{
    for need in needs.iter_mut() {
        *need = without(*need, r);
    }
}

// Nothing where it is this register.
fn without(need: Option<PhysReg>, r: PhysReg) -> Option<PhysReg>
    ensures { result ≡ without_reg r.0 need }
{
    match need {
        Some(x) if x.0 == r.0 => None,
        _ => need,
    }
}

/// Adds a place to the readers of each of these registers.
pub fn note_readers(readers: &mut Vec<Places>, needs: &Needs, place: u8)
    requires place { place < 128 }
    requires needs { All (λ n. is_within (length readers.old.items) n ≡ true) needs.now }
    ensures readers { (r j : ℕ)
        → has (readers_at readers.new.items r) j
        ≡ ((j == place && needs_it r needs.now) || has (readers_at readers.old.items r) j) }
    ensures len { length readers.new.items ≡ length readers.old.items }
{
    for need in needs {
        note_reader(readers, *need, place);
    }
}

fn note_reader(readers: &mut Vec<Places>, need: Option<PhysReg>, place: u8)
    requires place { place < 128 }
    requires need { is_within (length readers.old.items) need ≡ true }
    ensures readers { (r j : ℕ)
        → has (readers_at readers.new.items r) j
        ≡ ((j == place && is_need r need) || has (readers_at readers.old.items r) j) }
    ensures len { length readers.new.items ≡ length readers.old.items }
{
    if let Some(r) = need {
        let readers = &mut readers[usize::from(r.0)];
        *readers = readers.with(place);
    }
}
