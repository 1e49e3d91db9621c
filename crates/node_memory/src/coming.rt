// The lines on their way from the second level to the first.
ghost use Rattle.std.specs.Prelude.{◌≡◌, ◌<◌, IsTrue, ◌++◌, ◌∷◌, [], drop, length, map, option_map, slice_get};
ghost use Rattle.cache_levels.specs.Sound.{AreSound};
ghost use Rattle.node_memory.specs.Starting.{near_if_held};

use arrayvec::ArrayVec;
use cache_levels::Levels;
use rsim_base::Line;

/// A line on its way, and the tick of the wish that fetches it.
#[derive(Clone, Copy, Default, PartialEq, Eq)]
pub struct Fetched {
    pub line: Line,
    pub since: u64,
}

impl Fetched {
    ghost use Rattle.node_memory.specs.NodeParts.{coming_of};
    ghost use Rattle.node_memory.specs.Starting.{is_due};

    /// Whether so many ticks have passed.
    pub fn is_due(&self, latency: u32, now: u64) -> bool
        ensures { result ≡ is_due latency now (coming_of self.now) }
    {
        now >= self.since && now - self.since >= u64::from(latency)
    }
}

/// How many lines may be on their way: as many as ticks may pass on it.
const MOST_COMING: usize = 64;

/// The lines on their way, the oldest first.
#[derive(Drop)]
pub struct Coming {
    lines: ArrayVec<Fetched, MOST_COMING>,
}

impl Coming {
    ghost use Rattle.node_memory.specs.NodeParts.{coming_in, coming_of};
    ghost use Rattle.node_memory.specs.Starting.{arrive, is_first_due};

    /// No line.
    pub fn new() -> Coming
        ensures { coming_in result ≡ [] }
    {
        Coming {
            lines: ArrayVec::new(),
        }
    }

    /// Puts a line behind the others.
    pub fn push(&mut self, line: Line, since: u64)
        requires { length (coming_in self.old) < 64 }
        ensures { coming_in self.new ≡ coming_in self.old ++ record { line = line.0; since = since } ∷ [] }
    {
        self.lines.push(Fetched { line, since });
    }

    /// Brings near the lines whose time has come, where they are held still.
    pub fn arrive(&mut self, levels: &mut Levels, latency: u32, now: u64)
        requires { AreSound levels.old }
        ensures levels { levels.new ≡ (arrive latency now (coming_in self.old) levels.old).levels }
        ensures sound { AreSound levels.new }
        ensures coming { coming_in self.new ≡ (arrive latency now (coming_in self.old) levels.old).coming }
    {
        while self.first_is_due(latency, now) {
            let fetched = self.lines.remove(0);
            bring_if_held(levels, fetched.line);
        }
    }

    // Whether there is a line, and its time has come.
    fn first_is_due(&self, latency: u32, now: u64) -> bool
        ensures due { result ≡ is_first_due latency now (coming_in self.now) }
        ensures some { IsTrue result → 0 < length (coming_in self.now) }
    {
        match self.lines.as_slice().first() {
            Some(fetched) => fetched.is_due(latency, now),
            None => false,
        }
    }
}

// Brings a line near if it is held.
fn bring_if_held(levels: &mut Levels, line: Line)
    requires { AreSound levels.old }
    ensures levels { levels.new ≡ near_if_held line.0 levels.old }
    ensures sound { AreSound levels.new }
{
    if levels.hold(line) {
        levels.bring_near(line);
    }
}
