// The commands that `clap` reads the words by: one option, and an argument for each name.
ghost use Rattle.std.specs.Prelude.{◌≡◌, IfOk, codes};
ghost use Rattle.clap.specs.Words.{app_of};
ghost use Rattle.command_words.specs.Commands.{plain_app, base_app, run_app, check_app};

use clap::{Arg, Command};
use std::alloc::{AllocError, Global};

/// The option, which takes a seed.
pub(crate) const GENERATE: &str = "generate";

/// The first name. What a name stands for depends on how many there are.
pub(crate) const FIRST: &str = "first";

/// The second name.
pub(crate) const SECOND: &str = "second";

/// The third name.
pub(crate) const THIRD: &str = "third";

/// The fourth name.
pub(crate) const FOURTH: &str = "fourth";

/// `rsim`: four names, or three beside a seed.
pub(crate) fn run_command<'a>(alloc: Global) -> Result<Command<'a>, AllocError>
    ensures { IfOk result (λ c. app_of c ≡ run_app) }
{
    base_command(alloc)?
        .arg(Arg::new(alloc, SECOND).required(true))?
        .arg(Arg::new(alloc, THIRD).required(true))?
        .arg(Arg::new(alloc, FOURTH))
}

/// `rsimcheck`: two names, or one beside a seed.
pub(crate) fn check_command<'a>(alloc: Global) -> Result<Command<'a>, AllocError>
    ensures { IfOk result (λ c. app_of c ≡ check_app) }
{
    base_command(alloc)?.arg(Arg::new(alloc, SECOND))
}

// The option, and the name that both commands require.
fn base_command<'a>(alloc: Global) -> Result<Command<'a>, AllocError>
    ensures { IfOk result (λ c. app_of c ≡ base_app) }
{
    plain_command(alloc)
        .arg(Arg::new(alloc, GENERATE).long(GENERATE))?
        .arg(Arg::new(alloc, FIRST).required(true))
}

// The words begin after the program's name, and `--help` and `--version` are no options. The name of
// the command is shown nowhere.
fn plain_command<'a>(alloc: Global) -> Command<'a>
    ensures { app_of result ≡ plain_app }
{
    Command::new(alloc, "words")
        .no_binary_name(true)
        .disable_help_flag(true)
        .disable_version_flag(true)
}
