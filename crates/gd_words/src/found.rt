ghost use Rattle.std.specs.Prelude.{◌≡◌, codes};
ghost use Rattle.clap.specs.Words.{found_of, rows_of};
ghost use Rattle.gd_words.specs.Found.{number_in};
ghost use Rattle.gd_words.specs.Words.{serving_in};

use crate::asked::Serving;
use clap::ArgMatches;

fn port(matches: &ArgMatches<'_>) -> Option<u16>
    ensures { result ≡ number_in 16 (codes "port") (rows_of (found_of matches.now)) }
{
    matches.get_one::<u16>("port")
}

fn connections(matches: &ArgMatches<'_>) -> Option<u64>
    ensures { result ≡ number_in 64 (codes "connections") (rows_of (found_of matches.now)) }
{
    matches.get_one::<u64>("connections")
}

/// How a drive is to be served, as the matches of `serve` have it. `clap` takes no port 0, and the contract says so again.
pub fn serving(matches: &ArgMatches<'_>) -> Option<Serving>
    ensures { result ≡ serving_in (rows_of (found_of matches.now)) }
{
    let connections = connections(matches);
    match port(matches) {
        Some(port) if port > 0 => Some(Serving { port, connections }),
        _ => None,
    }
}
