ghost use Rattle.std.specs.Prelude.{◌≡◌, [], true, map, string_bytes, IfOk, IfErr};
ghost use Rattle.clap.specs.Words.{HasKind, app_of, fault_of, is_simple_and_free, kind_of, subcommand_of, subcommand_rows_of};
ghost use Rattle.gd_words.specs.Words.{IsRefused, Reads, Tells, serving_under};

use crate::asked::{Asked, Serving};
use crate::found::serving;
use crate::options::program;
use clap::error::ErrorKind;
use clap::{ArgMatches, Command, Error};
use std::alloc::{AllocError, Global};

/// What the words after the program's name ask for. Tests alone show the texts.
pub fn read_words(alloc: Global, words: &[String]) -> Result<Asked, AllocError>
    ensures { IfOk result (λ asked. Reads (map string_bytes words.now) asked) }
{
    let command = program(alloc)?;
    match find(command, words) {
        Ok(Some(serving)) => Ok(Asked::Serve(serving)),
        Ok(None) => refuse(alloc),
        Err(error) => tell(alloc, &error),
    }
}

/// How a drive is to be served, as `clap` finds it at the words.
fn find<'a>(command: Command<'a>, words: &'a [String]) -> Result<Option<Serving>, Error>
    requires { is_simple_and_free (app_of command) ≡ true }
    ensures taken { IfOk result (λ _. fault_of (app_of command.entry) (map string_bytes words.entry.now) ≡ []) }
    ensures found { IfOk result (λ found. found ≡ serving_under (subcommand_of (app_of command.entry) (map string_bytes words.entry.now))) }
    ensures err { IfErr result (HasKind (fault_of (app_of command.entry) (map string_bytes words.entry.now))) }
{
    match command.try_get_matches_from(words) {
        Ok(matches) => Ok(serving_found(&matches)),
        Err(error) => Err(error),
    }
}

fn serving_found(matches: &ArgMatches<'_>) -> Option<Serving>
    ensures { result ≡ serving_under (subcommand_rows_of matches.now) }
{
    match matches.subcommand() {
        Some((_, serve)) => serving(serve),
        None => None,
    }
}

/// The text of `clap` for words that it does not take.
fn tell(alloc: Global, error: &Error) -> Result<Asked, AllocError>
    ensures { IfOk result (λ asked. Tells (kind_of error.now) asked) }
{
    match error.kind() {
        ErrorKind::OutOfMemory => Err(AllocError),
        ErrorKind::DisplayHelp | ErrorKind::DisplayVersion => Ok(Asked::Told(text(alloc, error)?)),
        _ => Ok(Asked::Refused(text(alloc, error)?)),
    }
}

fn text(alloc: Global, error: &Error) -> Result<String, AllocError> {
    error.to_string(alloc)
}

/// Words that `clap` takes and that name no port are refused too.
fn refuse(alloc: Global) -> Result<Asked, AllocError>
    ensures { IfOk result (λ asked. IsRefused asked) }
{
    let text = String::from_str(alloc, NO_PORT)?;
    Ok(Asked::Refused(text))
}

const NO_PORT: &str = "error: the words name no port

For more information, try '--help'.
";
