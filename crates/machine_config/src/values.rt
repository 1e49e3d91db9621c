// What may be said of a key, and reading it.
ghost use Rattle.std.specs.Prelude.{◌≡◌, ◌<◌, ◌^◌};
ghost use Rattle.machine_config.specs.Keys.{number, power};
ghost use Rattle.machine_config.specs.Reading.{ReadsValue, values_of, word_count};

use crate::fault::ConfigFault;
use rsim_base::digits::decimal;

/// What may be said of a key: a number from `low` to `high`, such a number that is a power of two, or
/// one of some words.
#[derive(Clone, Copy)]
pub enum Values {
    Number { low: u32, high: u32 },
    Power { low: u32, high: u32 },
    Word(&'static [&'static [u8]]),
}

impl Values {
    /// The number that a value on this line means: a word means its place, from 0.
    pub fn read(&self, line: u32, value: &[u8]) -> Result<u32, ConfigFault>
        requires { word_count (values_of self.now) < 2 ^ 32 }
        ensures { ReadsValue (values_of self.now) line value.now result }
    {
        match *self {
            Values::Number { low, high } => read_number(low, high, line, value),
            Values::Power { low, high } => read_power(low, high, line, value),
            Values::Word(words) => match words.iter().position(|word| value == *word) {
                Some(place) => Ok(place as u32),
                None => Err(ConfigFault::BadWord(line)),
            },
        }
    }
}

// A number in its range.
fn read_number(low: u32, high: u32, line: u32, value: &[u8]) -> Result<u32, ConfigFault>
    ensures { ReadsValue (number low high) line value.now result }
{
    let Some(number) = decimal(value) else {
        return Err(ConfigFault::BadNumber(line));
    };
    if number < u64::from(low) || number > u64::from(high) {
        return Err(ConfigFault::OutOfRange(line, low, high));
    }
    Ok(number as u32)
}

// A power of two in its range.
fn read_power(low: u32, high: u32, line: u32, value: &[u8]) -> Result<u32, ConfigFault>
    ensures { ReadsValue (power low high) line value.now result }
{
    let number = read_number(low, high, line, value)?;
    if !number.is_power_of_two() {
        return Err(ConfigFault::NotPower(line));
    }
    Ok(number)
}
