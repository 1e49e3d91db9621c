// What the words ask for, with their numbers read.
ghost use Rattle.std.specs.Prelude.{◌≡◌, map, string_bytes};
ghost use Rattle.command_words.specs.Asked.{asked_of_run, asked_of_check, executable_from, number_from};

use crate::fault::{BadWords, WordsFault};
use crate::shape::{Origin, check_texts, run_texts};
use rsim_base::MAX_STEPS;
use rsim_base::digits::decimal;
use std::alloc::Global;

// The greatest seed.
const MAX_SEED: u32 = u32::MAX;

/// Where the executable comes from.
#[derive(Clone, Copy, Debug, PartialEq, Eq)]
pub enum Executable<'a> {
    /// The file of this name.
    File(&'a str),
    /// It is made from this seed.
    Generated(u32),
}

/// What the words of `rsim` ask for: the executable, the names of the configuration and of the
/// order, and the bound on the cycles, from 1 to 8,000,000.
#[derive(Clone, Copy, Debug, PartialEq, Eq)]
pub struct RunWords<'a> {
    pub executable: Executable<'a>,
    pub config: &'a str,
    pub cycles: u32,
    pub order: &'a str,
}

/// What the words of `rsimcheck` ask for: the executable, and the name of the order.
#[derive(Clone, Copy, Debug, PartialEq, Eq)]
pub struct CheckWords<'a> {
    pub executable: Executable<'a>,
    pub order: &'a str,
}

ghost use Rattle.command_words.specs.Reading.{AsksRun, AsksCheck, AsksExecutable, origin_of};

/// Reads the words of `rsim`, after the program's name: `EXE CONFIG CYCLES ORDER`, or
/// `--generate SEED CONFIG CYCLES ORDER`. An option may stand anywhere before the word `--`, after
/// which all words are names.
///
/// # Errors
///
/// The first fault of the words: their shape, then the seed, then the bound on the cycles. Or want
/// of memory, in the place of any answer.
#[tactic(auto, unfolding(crate::specs::Asked::asked_of_run))]
pub fn read_run<'a>(alloc: Global, words: &'a [String]) -> Result<RunWords<'a>, BadWords>
    ensures { AsksRun (asked_of_run (map string_bytes words.now)) result }
{
    let texts = run_texts(alloc, words)?;
    let executable = executable_from(texts.executable).map_err(BadWords::Fault)?;
    let Some(cycles) = number(texts.cycles, 1, MAX_STEPS) else {
        return Err(BadWords::Fault(WordsFault::Cycles));
    };
    Ok(RunWords {
        executable,
        config: texts.config,
        cycles,
        order: texts.order,
    })
}

/// Reads the words of `rsimcheck`, after the program's name: `EXE ORDER`, or
/// `--generate SEED ORDER`. An option may stand anywhere before the word `--`, after which all
/// words are names.
///
/// # Errors
///
/// The first fault of the words: their shape, then the seed. Or want of memory, in the place of
/// any answer.
#[tactic(auto, unfolding(crate::specs::Asked::asked_of_check))]
pub fn read_check<'a>(alloc: Global, words: &'a [String]) -> Result<CheckWords<'a>, BadWords>
    ensures { AsksCheck (asked_of_check (map string_bytes words.now)) result }
{
    let texts = check_texts(alloc, words)?;
    let executable = executable_from(texts.executable).map_err(BadWords::Fault)?;
    Ok(CheckWords {
        executable,
        order: texts.order,
    })
}

// Reads the seed, where there is one.
fn executable_from<'a>(origin: Origin<'a>) -> Result<Executable<'a>, WordsFault>
    ensures { AsksExecutable (executable_from (origin_of origin.entry)) result }
{
    match origin {
        Origin::Named(name) => Ok(Executable::File(name)),
        Origin::Seeded(seed) => match number(seed, 0, MAX_SEED) {
            Some(seed) => Ok(Executable::Generated(seed)),
            None => Err(WordsFault::Seed),
        },
    }
}

// The number from `least` to `most` that a word gives.
#[tactic(auto, unfolding(crate::specs::Asked::number_from))]
fn number(word: &str, least: u32, most: u32) -> Option<u32>
    ensures { result ≡ number_from least most word.now }
{
    let number = decimal(word.as_bytes())?;
    if number < u64::from(least) || number > u64::from(most) {
        return None;
    }
    Some(number as u32)
}
