// One level: the line that is asked for becomes the most recent.
ghost use Rattle.std.specs.Prelude.{◌≡◌, ℕ, None, IsTrue, ◌⊎◌, is_some};
ghost use Rattle.cache_sets.specs.Caches.{slot_of, reserved_slot};
ghost use Rattle.cache_sets.specs.Lookups.{LooksUpAsBefore};
ghost use Rattle.cache_sets.specs.Sound.{IsSound};
ghost use Rattle.cache_levels.specs.Levels.{touched_line, with_line};

use cache_sets::CacheSets;
use rsim_base::Line;

/// Makes a line that is there the most recent of its set.
pub(crate) fn touch(cache: &mut CacheSets, line: Line)
    requires { IsSound cache.old }
    ensures touched { cache.new ≡ touched_line line.0 cache.old }
    ensures looks { LooksUpAsBefore cache.old cache.new }
    ensures sound { IsSound cache.new }
{
    if let Some(slot) = cache.find(line) {
        cache.touch(slot);
    }
}

/// Makes a line the most recent of its set, in a level without reservations. Where it was not there it takes an
/// empty way, else the least recently used one, whose line leaves.
pub(crate) fn bring(cache: &mut CacheSets, line: Line)
    requires sound { IsSound cache.old }
    requires unreserved { (l : ℕ) → reserved_slot l cache.old ≡ None }
    ensures brought { cache.new ≡ with_line line.0 cache.old }
    ensures others { (l : ℕ) → IsTrue (is_some (slot_of l cache.new)) → (l ≡ line.0) ⊎ IsTrue (is_some (slot_of l cache.old)) }
    ensures unreserved { (l : ℕ) → reserved_slot l cache.new ≡ None }
    ensures sound { IsSound cache.new }
{
    if let Some(slot) = cache.find(line) {
        cache.touch(slot);
    } else if let Some(room) = cache.reserve_way(line) {
        cache.fill(room.slot, line);
    }
}
