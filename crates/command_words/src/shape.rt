// Which word is what, by how many names there are.
ghost use Rattle.std.specs.Prelude.{map, string_bytes};
ghost use Rattle.command_words.specs.Words.{said};
ghost use Rattle.command_words.specs.Asked.{run_shape_of, check_shape_of};

use crate::command::{FIRST, FOURTH, GENERATE, SECOND, THIRD};
use crate::fault::BadWords;
use crate::parse::{parse_check, parse_run};
use std::alloc::Global;

/// Where the executable comes from, before its seed is read.
#[derive(Clone, Copy)]
pub(crate) enum Origin<'a> {
    /// The file of this name.
    Named(&'a str),
    /// It is made from the seed that this word gives.
    Seeded(&'a str),
}

/// The words of a run, before its numbers are read.
#[derive(Clone, Copy)]
pub(crate) struct RunTexts<'a> {
    pub(crate) executable: Origin<'a>,
    pub(crate) config: &'a str,
    pub(crate) cycles: &'a str,
    pub(crate) order: &'a str,
}

/// The words of a check, before its seed is read.
#[derive(Clone, Copy)]
pub(crate) struct CheckTexts<'a> {
    pub(crate) executable: Origin<'a>,
    pub(crate) order: &'a str,
}

ghost use Rattle.command_words.specs.Reading.{HasRunShape, HasCheckShape};

/// Tells the words of a run apart. The only faults are those of the words' shape.
pub(crate) fn run_texts<'a>(alloc: Global, words: &'a [String]) -> Result<RunTexts<'a>, BadWords>
    ensures { HasRunShape (run_shape_of (said (map string_bytes words.now))) result }
{
    let matches = parse_run(alloc, words)?;
    let (Some(first), Some(second), Some(third)) = (
        matches.get_str(FIRST),
        matches.get_str(SECOND),
        matches.get_str(THIRD),
    ) else {
        return Err(BadWords::SHAPE);
    };
    match (matches.get_str(FOURTH), matches.get_str(GENERATE)) {
        (Some(fourth), None) => Ok(RunTexts {
            executable: Origin::Named(first),
            config: second,
            cycles: third,
            order: fourth,
        }),
        (None, Some(seed)) => Ok(RunTexts {
            executable: Origin::Seeded(seed),
            config: first,
            cycles: second,
            order: third,
        }),
        _ => Err(BadWords::SHAPE),
    }
}

/// Tells the words of a check apart. The only faults are those of the words' shape.
pub(crate) fn check_texts<'a>(
    alloc: Global,
    words: &'a [String],
) -> Result<CheckTexts<'a>, BadWords>
    ensures { HasCheckShape (check_shape_of (said (map string_bytes words.now))) result }
{
    let matches = parse_check(alloc, words)?;
    let Some(first) = matches.get_str(FIRST) else {
        return Err(BadWords::SHAPE);
    };
    match (matches.get_str(SECOND), matches.get_str(GENERATE)) {
        (Some(second), None) => Ok(CheckTexts {
            executable: Origin::Named(first),
            order: second,
        }),
        (None, Some(seed)) => Ok(CheckTexts {
            executable: Origin::Seeded(seed),
            order: first,
        }),
        _ => Err(BadWords::SHAPE),
    }
}
