// What `clap` finds in the words.
ghost use Rattle.std.specs.Prelude.{◌≡◌, map, string_bytes};
ghost use Rattle.command_words.specs.Words.{said};
ghost use Rattle.command_words.specs.Reading.{Settles, RunTells, CheckTells, cause_of};

use crate::command::{check_command, run_command};
use crate::fault::BadWords;
use clap::error::ErrorKind;
use clap::{ArgMatches, Error};
use std::alloc::Global;

/// Finds three or four names, and a seed at most.
pub(crate) fn parse_run<'a>(alloc: Global, words: &'a [String]) -> Result<ArgMatches<'a>, BadWords>
    ensures { Settles 3 4 RunTells (said (map string_bytes words.now)) result }
{
    let Ok(command) = run_command(alloc) else {
        return Err(BadWords::Memory);
    };
    match command.try_get_matches_from(words) {
        Ok(matches) => Ok(matches),
        Err(error) => Err(cause(&error)),
    }
}

/// Finds one or two names, and a seed at most.
pub(crate) fn parse_check<'a>(
    alloc: Global,
    words: &'a [String],
) -> Result<ArgMatches<'a>, BadWords>
    ensures { Settles 1 2 CheckTells (said (map string_bytes words.now)) result }
{
    let Ok(command) = check_command(alloc) else {
        return Err(BadWords::Memory);
    };
    match command.try_get_matches_from(words) {
        Ok(matches) => Ok(matches),
        Err(error) => Err(cause(&error)),
    }
}

// Each error but want of memory is one of the words' shape.
fn cause(error: &Error) -> BadWords
    ensures { result ≡ cause_of error.now }
{
    match error.kind() {
        ErrorKind::OutOfMemory => BadWords::Memory,
        _ => BadWords::SHAPE,
    }
}
