// What the programs have in common.
use crate::refusal::Refusal;
use command_words::WordsFault;
use std::{env, io};

/// The words after a program's name.
///
/// # Errors
/// `Words(Shape)` where one is no text, since such a word is no name; `Memory`.
pub fn program_words(rt: &HostRuntime) -> Result<Vec<String>, Refusal> {
    match env::args(rt) {
        Ok(all) => all.skip(1).collect(rt.alloc()).map_err(|_| Refusal::Memory),
        Err(error) if error.kind() == io::ErrorKind::OutOfMemory => Err(Refusal::Memory),
        Err(_) => Err(Refusal::Words(WordsFault::Shape)),
    }
}
