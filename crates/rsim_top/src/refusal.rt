// Why a command was refused, in the order in which refusals are looked for.
ghost use Rattle.std.specs.Prelude.{◌≡◌};
ghost use Rattle.rsim_top.specs.Refusals.{code_of};

use command_words::WordsFault;
use elf64_load::ElfFault;
use machine_config::ConfigFault;
use thiserror::Error;

/// A file or stream that a command uses.
#[derive(Clone, Copy, Debug, PartialEq, Eq, Error)]
pub enum File {
    #[error("config")]
    Config,
    #[error("executable")]
    Exe,
    #[error("order")]
    Order,
    #[error("report")]
    Report,
}

/// Why a command was refused. It is shown as the text that the programs print.
#[derive(Clone, Copy, Debug, PartialEq, Eq, Error)]
pub enum Refusal {
    /// The words of the command line are wrong.
    #[error("bad {0}")]
    Words(WordsFault),
    /// A file is not there or cannot be read.
    #[error("cannot read {0}")]
    Read(File),
    /// A file is longer than its limit.
    #[error("{0} too long")]
    Big(File),
    /// The configuration has a fault.
    #[error("config: {0}")]
    Config(ConfigFault),
    /// In so many cycles all processors together may retire more than 8,000,000 instructions.
    #[error("run too long")]
    TooLong,
    /// What is asked for is not built yet: an executable that is to be generated.
    #[error("not built")]
    Unbuilt,
    /// The executable cannot be loaded.
    #[error("executable: {0}")]
    Elf(ElfFault),
    /// A file or stream cannot be written.
    #[error("cannot write {0}")]
    Write(File),
    /// Memory could not be had.
    #[error("no memory")]
    Memory,
}

impl Refusal {
    /// The exit status of a program that was refused so.
    pub fn code(&self) -> u8
        ensures { result ≡ code_of self.now }
    {
        match self {
            Refusal::Words(_) => 2,
            Refusal::Config(_) | Refusal::Big(File::Config) | Refusal::TooLong | Refusal::Unbuilt =>
                3,
            Refusal::Elf(_) | Refusal::Big(File::Exe) => 4,
            Refusal::Read(_) | Refusal::Big(_) => 5,
            Refusal::Write(_) => 6,
            Refusal::Memory => 7,
        }
    }
}
