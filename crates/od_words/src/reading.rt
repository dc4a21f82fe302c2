ghost use Rattle.std.specs.Prelude.{◌≡◌, ◌≤◌, Some, None, IfSome, IsTrue, map, string_bytes, IfOk, IsErrOf};
ghost use Rattle.clap.specs.Words.{found_of, rows_of};
ghost use Rattle.od_words.specs.Commands.{checked, is_count, Fits, FitsWords, command_named, command_of, monitor_in, monitor_of, replay_in, replay_of, sync_in, sync_of, words_in};

use crate::command::{Command, UsageFault, Words};
use crate::found::{find, flag, number, optional, text};
use crate::host::is_host;
use crate::options::{monitor_command, replay_command, sync_command};
use clap::ArgMatches;
use gd_json::{Wire, WireFault};
use std::alloc::Global;

/// The command that the words give. The first word names it.
pub fn read_words(alloc: Global, words: &[String]) -> Result<Command, UsageFault>
    ensures ok { IfOk result (λ command. command_of (map string_bytes words.now) ≡ Some command) }
    ensures usage { IsErrOf result UsageFault.Usage → command_of (map string_bytes words.now) ≡ None }
    ensures fits { IfOk result Fits }
{
    match words {
        [first, ..] => read_named(alloc, first.as_str(), words),
        [] => Err(UsageFault::Usage),
    }
}

fn read_named(alloc: Global, name: &str, words: &[String]) -> Result<Command, UsageFault>
    ensures ok { IfOk result (λ command. command_named name.now (map string_bytes words.now) ≡ Some command) }
    ensures usage { IsErrOf result UsageFault.Usage → command_named name.now (map string_bytes words.now) ≡ None }
    ensures fits { IfOk result Fits }
{
    if name == "sync" {
        return read_sync(alloc, words);
    }
    if name == "monitor" {
        return read_monitor(alloc, words);
    }
    if name == "replay" {
        return read_replay(alloc, words);
    }
    Err(UsageFault::Usage)
}

fn read_sync(alloc: Global, words: &[String]) -> Result<Command, UsageFault>
    ensures ok { IfOk result (λ command. sync_of (map string_bytes words.now) ≡ Some command) }
    ensures usage { IsErrOf result UsageFault.Usage → sync_of (map string_bytes words.now) ≡ None }
    ensures fits { IfOk result Fits }
{
    let command = sync_command(alloc)?;
    match find(command, words) {
        Ok(matches) => sync_found(alloc, &matches),
        Err(fault) => Err(fault),
    }
}

fn read_monitor(alloc: Global, words: &[String]) -> Result<Command, UsageFault>
    ensures ok { IfOk result (λ command. monitor_of (map string_bytes words.now) ≡ Some command) }
    ensures usage { IsErrOf result UsageFault.Usage → monitor_of (map string_bytes words.now) ≡ None }
    ensures fits { IfOk result Fits }
{
    let command = monitor_command(alloc)?;
    match find(command, words) {
        Ok(matches) => monitor_found(alloc, &matches),
        Err(fault) => Err(fault),
    }
}

fn read_replay(alloc: Global, words: &[String]) -> Result<Command, UsageFault>
    ensures ok { IfOk result (λ command. replay_of (map string_bytes words.now) ≡ Some command) }
    ensures usage { IsErrOf result UsageFault.Usage → replay_of (map string_bytes words.now) ≡ None }
    ensures fits { IfOk result Fits }
{
    let command = replay_command(alloc)?;
    match find(command, words) {
        Ok(matches) => replay_found(alloc, &matches),
        Err(fault) => Err(fault),
    }
}

fn sync_found(alloc: Global, matches: &ArgMatches<'_>) -> Result<Command, UsageFault>
    ensures ok { IfOk result (λ command. sync_in (rows_of (found_of matches.now)) ≡ Some command) }
    ensures usage { IsErrOf result UsageFault.Usage → sync_in (rows_of (found_of matches.now)) ≡ None }
    ensures fits { IfOk result Fits }
{
    match words_found(alloc, matches) {
        Ok(words) => Ok(Command::Sync(words)),
        Err(fault) => Err(fault),
    }
}

fn monitor_found(alloc: Global, matches: &ArgMatches<'_>) -> Result<Command, UsageFault>
    ensures ok { IfOk result (λ command. monitor_in (rows_of (found_of matches.now)) ≡ Some command) }
    ensures usage { IsErrOf result UsageFault.Usage → monitor_in (rows_of (found_of matches.now)) ≡ None }
    ensures fits { IfOk result Fits }
{
    let words = match words_found(alloc, matches) {
        Ok(words) => words,
        Err(fault) => return Err(fault),
    };
    match number(matches, "times") {
        Some(times) if is_count(1000000, Some(times)) => Ok(Command::Monitor(words, times)),
        _ => Err(UsageFault::Usage),
    }
}

fn replay_found(alloc: Global, matches: &ArgMatches<'_>) -> Result<Command, UsageFault>
    ensures ok { IfOk result (λ command. replay_in (rows_of (found_of matches.now)) ≡ Some command) }
    ensures usage { IsErrOf result UsageFault.Usage → replay_in (rows_of (found_of matches.now)) ≡ None }
    ensures fits { IfOk result Fits }
{
    let host = text(alloc, matches, "host")?;
    let generate = number(matches, "generate");
    if !is_host(host.as_bytes()) || !is_count(5000, generate) {
        return Err(UsageFault::Usage);
    }
    Ok(Command::Replay { host, generate })
}

fn words_found(alloc: Global, matches: &ArgMatches<'_>) -> Result<Words, UsageFault>
    ensures ok { IfOk result (λ words. words_in (rows_of (found_of matches.now)) ≡ Some words) }
    ensures usage { IsErrOf result UsageFault.Usage → words_in (rows_of (found_of matches.now)) ≡ None }
    ensures fits { IfOk result FitsWords }
{
    let root = text(alloc, matches, "root")?;
    let hold = text(alloc, matches, "hold")?;
    let db = text(alloc, matches, "db")?;
    let url = text(alloc, matches, "url")?;
    let host = text(alloc, matches, "host")?;
    let rules = optional(alloc, matches, "rules")?;
    let Some(workers) = number(matches, "workers") else {
        return Err(UsageFault::Usage);
    };
    let words = Words {
        root,
        hold,
        db,
        url,
        host,
        rules,
        resync: flag(matches, "resync"),
        workers,
    };
    check(alloc, words)
}

/// The words again, if they name a base of links, a host and a number of workers.
fn check(alloc: Global, words: Words) -> Result<Words, UsageFault>
    ensures ok { IfOk result (λ same. checked words ≡ Some same) }
    ensures usage { IsErrOf result UsageFault.Usage → checked words ≡ None }
    ensures fits { IfOk result FitsWords }
{
    match Wire::read(alloc, words.url.as_bytes()) {
        Ok(_) => {}
        Err(WireFault::BadBase) => return Err(UsageFault::Usage),
        Err(WireFault::Memory) => return Err(UsageFault::Memory),
    }
    if !is_host(words.host.as_bytes()) || !is_count(16, Some(words.workers)) {
        return Err(UsageFault::Usage);
    }
    Ok(words)
}

/// Whether a number that was given is from 1 to the most. `clap` takes no others, and the contract says so again.
fn is_count(most: u32, given: Option<u32>) -> bool
    ensures test { result ≡ is_count most given }
    ensures fits { IsTrue result → IfSome given (λ n. (1 ≤ n) × (n ≤ most)) }
{
    match given {
        Some(n) => 1 <= n && n <= most,
        None => true,
    }
}
