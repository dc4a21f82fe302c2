ghost use Rattle.std.specs.Prelude.{◌≡◌, false, codes, IfOk};
ghost use Rattle.clap.specs.Words.{app_of, rule_of};
ghost use Rattle.od_words.specs.Options.{flag, generate_option, host_option, monitor_app, replay_app, required_option, sync_app, text_option, times_option, with_optional, with_required, workers_option};

use clap::{Arg, ArgAction, Command, value_parser};
use std::alloc::{AllocError, Global};

/// What each exit code says, for the long help.
const EXIT_CODES: &str = "Exit codes:
   0  both sides are the same; of a replay: the script was run
   1  some entries are held back, each on a line of its own, or both sides are not the same yet
   2  the words are refused
   3  a line of the rules, or of the script, is bad
   4  the rules have changed: run once with --resync; of a replay: the script is too long
   5  the drive cannot be reached; of a replay: the script cannot be read
   6  the local folder failed
   7  the database failed
   8  writing the report failed
   9  the drive gave a reply that is none
  10  memory ran out
  11  the drive's feed has no end
  13  the drive does not serve this client now
  14  the rules file cannot be read";

fn text_option<'a>(alloc: Global, name: &'a str, value: &'a str, help: &'a str) -> Arg<'a>
    ensures rule { rule_of result ≡ text_option name.entry.now }
    ensures global { result.global ≡ false }
{
    Arg::new(alloc, name)
        .long(name)
        .action(ArgAction::Set)
        .value_name(value)
        .help(help)
}

fn required<'a>(alloc: Global, name: &'a str, value: &'a str, help: &'a str) -> Arg<'a>
    ensures rule { rule_of result ≡ required_option name.entry.now }
    ensures global { result.global ≡ false }
{
    text_option(alloc, name, value, help).required(true)
}

fn resync<'a>(alloc: Global) -> Arg<'a>
    ensures rule { rule_of result ≡ flag (codes "resync") }
    ensures global { result.global ≡ false }
{
    Arg::new(alloc, "resync")
        .long("resync")
        .action(ArgAction::SetTrue)
        .help(
            "Start from the drive afresh, once after the rules have changed, as in `odsync sync .. --resync`",
        )
}

fn workers<'a>(alloc: Global) -> Arg<'a>
    ensures rule { rule_of result ≡ workers_option }
    ensures global { result.global ≡ false }
{
    let help = "How many files are transferred at a time, 1 to 16, as in `--workers 8`";
    text_option(alloc, "workers", "N", help)
        .default_value("4")
        .value_parser(value_parser!(u32).range(1..=16))
}

fn times<'a>(alloc: Global) -> Arg<'a>
    ensures rule { rule_of result ≡ times_option }
    ensures global { result.global ≡ false }
{
    let help = "How many syncs, a second apart, 1 to 1000000, as in `--times 3600`";
    required(alloc, "times", "N", help).value_parser(value_parser!(u32).range(1..=1000000))
}

fn generate<'a>(alloc: Global) -> Arg<'a>
    ensures rule { rule_of result ≡ generate_option }
    ensures global { result.global ≡ false }
{
    let help =
        "Play a made-up script of so many files, 1 to 5000, in place of standard input, as in `--generate 1200`";
    text_option(alloc, "generate", "N", help).value_parser(value_parser!(u32).range(1..=5000))
}

fn replay_host<'a>(alloc: Global) -> Arg<'a>
    ensures rule { rule_of result ≡ host_option }
    ensures global { result.global ≡ false }
{
    let help = "Name of this client in the names of conflict copies, as in `--host laptop`";
    text_option(alloc, "host", "NAME", help).default_value("h1")
}

fn with_required<'a>(alloc: Global, command: Command<'a>) -> Result<Command<'a>, AllocError>
    ensures { IfOk result (λ c. app_of c ≡ with_required (app_of command.entry)) }
{
    let root = "Folder to keep the same as the drive, as in `--root /home/ann/Drive`";
    let hold =
        "Folder for files that are being replaced, on the same disk, as in `--hold /home/ann/.hold`";
    let db = "File that keeps what was synchronised, as in `--db /home/ann/.odsync.db`";
    let url = "Where the drive is served, as in `--url http://127.0.0.1:8080`";
    let host =
        "Name of this client in the names of conflict copies, 1 to 63 letters, digits and dashes, as in `--host laptop`";
    let command = command.arg(required(alloc, "root", "FOLDER", root))?;
    let command = command.arg(required(alloc, "hold", "FOLDER", hold))?;
    let command = command.arg(required(alloc, "db", "FILE", db))?;
    let command = command.arg(required(alloc, "url", "URL", url))?;
    let command = command.arg(required(alloc, "host", "NAME", host))?;
    Ok(command)
}

fn with_optional<'a>(alloc: Global, command: Command<'a>) -> Result<Command<'a>, AllocError>
    ensures { IfOk result (λ c. app_of c ≡ with_optional (app_of command.entry)) }
{
    let rules =
        "File of rules that choose what is synchronised; without it all is, as in `--rules /home/ann/sync_list`";
    let command = command.arg(text_option(alloc, "rules", "FILE", rules))?;
    let command = command.arg(resync(alloc))?;
    let command = command.arg(workers(alloc))?;
    Ok(command)
}

pub fn sync_command<'a>(alloc: Global) -> Result<Command<'a>, AllocError>
    ensures { IfOk result (λ c. app_of c ≡ sync_app) }
{
    let command = Command::new(alloc, "sync")
        .about("Makes a local folder and a drive the same, once")
        .after_long_help(EXIT_CODES);
    let command = with_required(alloc, command)?;
    let command = with_optional(alloc, command)?;
    Ok(command)
}

pub fn monitor_command<'a>(alloc: Global) -> Result<Command<'a>, AllocError>
    ensures { IfOk result (λ c. app_of c ≡ monitor_app) }
{
    let command = Command::new(alloc, "monitor")
        .about("Keeps a local folder and a drive the same, sync after sync")
        .after_long_help(EXIT_CODES);
    let command = with_required(alloc, command)?;
    let command = with_optional(alloc, command)?;
    let command = command.arg(times(alloc))?;
    Ok(command)
}

pub fn replay_command<'a>(alloc: Global) -> Result<Command<'a>, AllocError>
    ensures { IfOk result (λ c. app_of c ≡ replay_app) }
{
    let command = Command::new(alloc, "replay")
        .about(
            "Plays a script from standard input against a drive in memory, and prints what comes of it",
        )
        .after_long_help(EXIT_CODES);
    let command = command.arg(replay_host(alloc))?;
    let command = command.arg(generate(alloc))?;
    Ok(command)
}
