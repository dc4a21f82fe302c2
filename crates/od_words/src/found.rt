ghost use Rattle.std.specs.Prelude.{◌≡◌, true, None, Some, map, string_bytes, IfOk, IsErrOf};
ghost use Rattle.clap.specs.Words.{app_of, first_of, found_of, is_simple_and_free, rows_of};
ghost use Rattle.od_words.specs.Found.{found_in, flag_in, number_in};

use crate::command::UsageFault;
use clap::ArgMatches;
use clap::error::ErrorKind;
use gd_names::Text;
use std::alloc::Global;

/// What `clap` finds at the words, of which the first names the command.
pub fn find<'a>(
    command: clap::Command<'a>,
    words: &'a [String],
) -> Result<ArgMatches<'a>, UsageFault>
    requires { is_simple_and_free (app_of command) ≡ true }
    ensures ok { IfOk result (λ m. found_in (app_of command.entry) (map string_bytes words.entry.now) ≡ Some (rows_of (found_of m))) }
    ensures usage { IsErrOf result UsageFault.Usage → found_in (app_of command.entry) (map string_bytes words.entry.now) ≡ None }
{
    match command.try_get_matches_from(words) {
        Ok(matches) => Ok(matches),
        Err(error) => match error.kind() {
            ErrorKind::OutOfMemory => Err(UsageFault::Memory),
            _ => Err(UsageFault::Usage),
        },
    }
}

/// The text that was found for an option.
pub fn text(alloc: Global, matches: &ArgMatches<'_>, id: &str) -> Result<Text, UsageFault>
    ensures ok { IfOk result (λ t. first_of id.now (rows_of (found_of matches.now)) ≡ Some t) }
    ensures usage { IsErrOf result UsageFault.Usage → first_of id.now (rows_of (found_of matches.now)) ≡ None }
{
    match matches.get_str(id) {
        Some(text) => Ok(Text::from_str(alloc, text)?),
        None => Err(UsageFault::Usage),
    }
}

/// The text that was found for an option, if it was given.
pub fn optional(
    alloc: Global,
    matches: &ArgMatches<'_>,
    id: &str,
) -> Result<Option<Text>, UsageFault>
    ensures ok { IfOk result (λ t. first_of id.now (rows_of (found_of matches.now)) ≡ t) }
    ensures usage { IsErrOf result UsageFault.Usage → ⊥ }
{
    match matches.get_str(id) {
        Some(text) => Ok(Some(Text::from_str(alloc, text)?)),
        None => Ok(None),
    }
}

/// The number that was found for an option, if it was given.
pub fn number(matches: &ArgMatches<'_>, id: &str) -> Option<u32>
    ensures { result ≡ number_in id.now (rows_of (found_of matches.now)) }
{
    matches.get_one::<u32>(id)
}

/// Whether a flag was given.
pub fn flag(matches: &ArgMatches<'_>, id: &str) -> bool
    ensures { result ≡ flag_in id.now (rows_of (found_of matches.now)) }
{
    match matches.get_str(id) {
        Some(text) => text == "true",
        None => false,
    }
}
