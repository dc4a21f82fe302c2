ghost use Rattle.std.specs.Prelude.{◌≡◌, false, IfOk};
ghost use Rattle.clap.specs.Words.{app_of, rule_of};
ghost use Rattle.clap.specs.declared.builder.Command.TheViews.{out-Command};
ghost use Rattle.gd_words.specs.Options.{connections_option, port_option, program_app, serve_app, text_option, bare_app};

use clap::{Arg, ArgAction, Command, value_parser};
use std::alloc::{AllocError, Global};

/// What follows the short list of commands.
const SHORT_END: &str = "Example:
  gd_drive serve --port 8080

`gd_drive serve --help` has each option with an example, and the exit codes.";

/// What the program is, for those who ask at length.
const LONG_ABOUT: &str = "Serves a drive over HTTP on this machine.

The drive is empty when the program starts, is kept in memory, and is gone when it ends. It answers
requests in the form of those to a drive of Microsoft Graph v1.0: folders, files, upload sessions and
the feed of changes.";

const SERVE_ABOUT: &str = "Serves an empty drive on 127.0.0.1 until the program is ended";

const SERVE_LONG_ABOUT: &str =
    "Serves an empty drive on 127.0.0.1 until the program is ended, or until as many connections were
served as `--connections` says.

It prints `listening 127.0.0.1:PORT` once requests can be sent. Links in its replies begin with
`http://127.0.0.1:PORT`, so name the drive so.";

const PORT: &str = "Port on 127.0.0.1 where the drive is served, 1 to 65535, as in `--port 8080`";

const CONNECTIONS: &str =
    "End after so many connections were served, for scripts and tests, as in `--connections 1`; \
without it the program does not end by itself";

/// Examples and exit codes, for the help at length.
const SERVE_END: &str = "Examples:
  gd_drive serve --port 8080
  curl http://127.0.0.1:8080/v1.0/me/drive/root/children

Exit codes:
   0  so many connections were served as were asked for, or the help or the version was printed
   2  the words are refused
   5  accepting a connection failed
   6  the port cannot be listened on: another program has it, or it needs rights
  10  memory ran out";

fn text_option<'a>(alloc: Global, name: &'a str, value: &'a str, help: &'a str) -> Arg<'a>
    ensures rule { rule_of result ≡ text_option name.entry.now }
    ensures global { result.global ≡ false }
{
    Arg::new(alloc, name)
        .long(name)
        .action(ArgAction::Set)
        .value_name(value)
        .help(help)
}

fn port<'a>(alloc: Global) -> Arg<'a>
    ensures rule { rule_of result ≡ port_option }
    ensures global { result.global ≡ false }
{
    text_option(alloc, "port", "PORT", PORT)
        .required(true)
        .value_parser(value_parser!(u16).range(1..=65535))
}

fn connections<'a>(alloc: Global) -> Arg<'a>
    ensures rule { rule_of result ≡ connections_option }
    ensures global { result.global ≡ false }
{
    text_option(alloc, "connections", "N", CONNECTIONS).value_parser(value_parser!(u64))
}

fn serve_command<'a>(alloc: Global) -> Result<Command<'a>, AllocError>
    ensures app { IfOk result (λ c. app_of c ≡ serve_app) }
    ensures globals { IfOk result (λ c. (out-Command c).has_globals ≡ false) }
{
    let command = Command::new(alloc, "serve")
        .about(SERVE_ABOUT)
        .long_about(SERVE_LONG_ABOUT)
        .after_long_help(SERVE_END);
    let command = command.arg(port(alloc))?;
    let command = command.arg(connections(alloc))?;
    Ok(command)
}

/// The program without its command, told as one that takes no name of a program before its words.
fn bare_program<'a>(alloc: Global) -> Result<Command<'a>, AllocError>
    ensures app { IfOk result (λ c. app_of c ≡ bare_app) }
    ensures globals { IfOk result (λ c. (out-Command c).has_globals ≡ false) }
{
    Command::new(alloc, "gd_drive")
        .no_binary_name(true)
        .version("0.1.0")
        .about("Serves a drive over HTTP on this machine")
        .long_about(LONG_ABOUT)
        .after_help(SHORT_END)
        .subcommand_required(true)
        .arg_required_else_help(true)
        .disable_help_subcommand(true)
        .bin_name("gd_drive")
}

pub fn program<'a>(alloc: Global) -> Result<Command<'a>, AllocError>
    ensures { IfOk result (λ c. app_of c ≡ program_app) }
{
    let program = bare_program(alloc)?;
    let serve = serve_command(alloc)?;
    let program = program.subcommand(serve)?;
    Ok(program)
}
