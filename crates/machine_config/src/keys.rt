// The table of the keys.
ghost use Rattle.std.specs.Prelude.{◌≡◌, length, map, position};
ghost use Rattle.std.specs.Str.{bytes_eq};
ghost use Rattle.machine_config.specs.Keys.{keys};
ghost use Rattle.machine_config.specs.Reading.{row_of, row_of_code};

use crate::values::Values;
use crate::values::Values::{Number, Power, Word};
use rsim_base::{LINE_ROOM, MAX_IN_FLIGHT, MAX_PROCESSORS};

/// How many keys there are.
pub const KEY_COUNT: usize = 33;

/// A key: its name, what may be said of it, and the number where no line names it.
#[derive(Clone, Copy)]
pub struct Key {
    pub name: &'static [u8],
    pub values: Values,
    pub default: u32,
}

const SWITCH: Values = Word(&[b"on", b"off"]);

#[rattlefmt::skip]
static KEYS: [Key; KEY_COUNT] = [
    Key { name: b"processors", values: Number { low: 1, high: MAX_PROCESSORS as u32 }, default: 1 },
    Key { name: b"mesh_width", values: Number { low: 1, high: MAX_PROCESSORS as u32 }, default: 1 },
    Key { name: b"model", values: Word(&[b"sc", b"pc", b"rc"]), default: 0 },
    Key { name: b"speculate", values: SWITCH, default: 0 },
    Key { name: b"store_prefetch", values: SWITCH, default: 0 },
    Key { name: b"protocol", values: Word(&[b"msi", b"mesi"]), default: 1 },
    Key { name: b"line", values: Power { low: 16, high: LINE_ROOM as u32 }, default: 64 },
    Key { name: b"l1_sets", values: Power { low: 1, high: 1024 }, default: 64 },
    Key { name: b"l1_ways", values: Number { low: 1, high: 8 }, default: 2 },
    Key { name: b"l2_sets", values: Power { low: 1, high: 4096 }, default: 256 },
    Key { name: b"l2_ways", values: Number { low: 1, high: 16 }, default: 4 },
    Key { name: b"miss_registers", values: Number { low: 1, high: 16 }, default: 8 },
    Key { name: b"active_list", values: Number { low: 4, high: MAX_IN_FLIGHT as u32 }, default: 64 },
    Key { name: b"rename_registers", values: Number { low: 8, high: 512 }, default: 128 },
    Key { name: b"fetch_width", values: Number { low: 1, high: 8 }, default: 4 },
    Key { name: b"fetch_queue", values: Number { low: 1, high: 32 }, default: 8 },
    Key { name: b"retire_width", values: Number { low: 1, high: 8 }, default: 4 },
    Key { name: b"store_buffer", values: Number { low: 1, high: 32 }, default: 8 },
    Key { name: b"ports", values: Number { low: 1, high: 4 }, default: 2 },
    Key { name: b"alu_units", values: Number { low: 1, high: 8 }, default: 2 },
    Key { name: b"alu_latency", values: Number { low: 1, high: 8 }, default: 1 },
    Key { name: b"mul_units", values: Number { low: 1, high: 4 }, default: 1 },
    Key { name: b"mul_latency", values: Number { low: 1, high: 32 }, default: 4 },
    Key { name: b"div_units", values: Number { low: 1, high: 4 }, default: 1 },
    Key { name: b"div_latency", values: Number { low: 1, high: 64 }, default: 20 },
    Key { name: b"predictor", values: Word(&[b"static", b"two_bit"]), default: 1 },
    Key { name: b"predictor_size", values: Power { low: 16, high: 4096 }, default: 512 },
    Key { name: b"return_stack", values: Number { low: 1, high: 32 }, default: 8 },
    Key { name: b"l1_latency", values: Number { low: 1, high: 8 }, default: 1 },
    Key { name: b"l2_latency", values: Number { low: 1, high: 64 }, default: 6 },
    Key { name: b"home_latency", values: Number { low: 1, high: 200 }, default: 20 },
    Key { name: b"flit_bytes", values: Power { low: 4, high: 16 }, default: 8 },
    Key { name: b"router_depth", values: Number { low: 1, high: 16 }, default: 4 },
];

/// The keys, in the order of the fields of `Config`.
pub fn table() -> &'static [Key]
    ensures rows { map row_of_code result.now ≡ map row_of keys }
    ensures count { length result.now ≡ KEY_COUNT }
{
    &KEYS
}

/// The numbers of the keys where no line names them.
pub fn defaults() -> [u32; KEY_COUNT]
    ensures { result ≡ map (λ key. key.default) keys }
{
    let keys = table();
    let mut numbers = [0; KEY_COUNT];
    for (place, key) in keys.iter().enumerate() {
        numbers[place] = key.default;
    }
    numbers
}

/// The place of the key with this name in the table.
pub fn place_of(name: &[u8]) -> Option<usize>
    ensures { result ≡ position (λ key. bytes_eq key.name name.now) keys }
{
    table().iter().position(|key| key.name == name)
}
