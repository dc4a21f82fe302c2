use crate::options::{monitor_command, replay_command, sync_command};
use clap::Command;
use gd_names::{NoMemory, Text};
use std::alloc::{AllocError, Global};

/// What is printed where the words give no command: the help or the version that they ask for, or what is wrong with
/// them. Tests alone show its wording.
pub fn usage_text(alloc: Global, words: &[String]) -> Result<Text, NoMemory> {
    let command = program(alloc)?;
    let text = match command.try_get_matches_from(words) {
        Ok(_) => String::from_str(alloc, REFUSED_VALUE)?,
        Err(error) => error.to_string(alloc)?,
    };
    Ok(Text::from_string(text))
}

/// What is said of words whose options `clap` takes.
const REFUSED_VALUE: &str =
    "error: a value is refused: --host wants 1 to 63 letters, digits and dashes, and --url `http://`, a host, `:` and a port

For more information, try '--help'.
";

fn program<'a>(alloc: Global) -> Result<Command<'a>, AllocError> {
    Command::new(alloc, "odsync")
        .bin_name("odsync")?
        .no_binary_name(true)
        .version("0.1.0")
        .about("Keeps a local folder and a drive the same")
        .after_help(
            "Start with `odsync sync --help`, which has each option with an example, and the exit codes.",
        )
        .subcommand_required(true)
        .arg_required_else_help(true)
        .disable_help_subcommand(true)
        .subcommand(sync_command(alloc)?)?
        .subcommand(monitor_command(alloc)?)?
        .subcommand(replay_command(alloc)?)
}
