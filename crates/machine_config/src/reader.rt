// From the text of a configuration to its values.
ghost use Rattle.std.specs.Prelude.{◌≡◌, ◌≢◌, ◌+◌, ◌-◌, ◌^◌, ◌<◌, ◌≤◌, [], length, map, IfOk, MatchResult, Some, None};
ghost use Rattle.machine_config.specs.Keys.{keys};
ghost use Rattle.machine_config.specs.Text.{lines};
ghost use Rattle.machine_config.specs.Faults.{Reads, lines_fault};
ghost use Rattle.machine_config.specs.Allowed.{IsAllowed};

use crate::config::Config;
use crate::fault::ConfigFault;
use crate::keys::{KEY_COUNT, defaults, place_of, table};
use crate::text::{place_of_no_text, split_key};
use std::alloc::Global;

/// The settings that a text names; a key that it does not name has its default.
///
/// # Errors
/// The first fault of the text: a byte that is no text; then the first line that is faulty, with the
/// first of the faults that it has in the order of the variants of `ConfigFault`; then the shape of the
/// mesh. It takes no memory, so `Memory` does not come.
pub fn read(_alloc: Global, text: &[u8]) -> Result<Config, ConfigFault>
    requires { length text.now ≤ 65536 }
    ensures reads { Reads text.now result }
    ensures allowed { IfOk result IsAllowed }
    ensures memory { result ≢ Err ConfigFault.Memory }
{
    if let Some(at) = place_of_no_text(text) {
        return Err(ConfigFault::NotText(at as u32));
    }
    let given = Given::read(text)?;
    let config = Config::from_numbers(&given.numbers);
    if config.processors % config.mesh_width != 0 {
        return Err(ConfigFault::MeshShape);
    }
    Ok(config)
}

// What the lines so far have given.
#[derive(Clone, Copy)]
struct Given {
    // How many lines they are.
    lines: u32,
    // Whether a line has named a key, and its number, by the key's place in the table.
    named: [bool; KEY_COUNT],
    numbers: [u32; KEY_COUNT],
}

impl Given {
    ghost use Rattle.machine_config.specs.Reading.{HasRead, ReadsLine, ReadsLines};

    // What no line gives: the defaults.
    fn new() -> Given
        ensures { HasRead [] result }
    {
        Given {
            lines: 0,
            named: [false; KEY_COUNT],
            numbers: defaults(),
        }
    }

    // What all lines of a text give.
    fn read(text: &[u8]) -> Result<Given, ConfigFault>
        requires { length text.now ≤ 65536 }
        ensures { ReadsLines text.now result }
    {
        let mut given = Given::new();
        for line in text.split(|byte| *byte == b'\n') {
            given.read_line(line)?;
        }
        Ok(given)
    }

    // Reads one more line.
    fn read_line(&mut self, line: &[u8]) -> Result<(), ConfigFault>
        requires { self.old.lines < 2 ^ 32 - 1 }
        ensures { ReadsLine self.old self.new line.now result }
    {
        self.lines += 1;
        let (name, value) = split_key(line);
        if name.is_empty() {
            return Ok(());
        }
        let Some(place) = place_of(name) else {
            return Err(ConfigFault::UnknownName(self.lines));
        };
        if self.named[place] {
            return Err(ConfigFault::Repeated(self.lines));
        }
        self.numbers[place] = table()[place].values.read(self.lines, value)?;
        self.named[place] = true;
        Ok(())
    }
}
