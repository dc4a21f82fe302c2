use super::*;
use gd_names::Text;
use std::alloc::{AllocError, Global};
use std::test::Fail;

/// The words of a line, between spaces.
fn words_of(alloc: Global, line: &str) -> Result<Vec<String>, AllocError> {
    let mut words = Vec::new(alloc);
    for word in line.split_whitespace() {
        words.push(String::from_str(alloc, word)?)?;
    }
    Ok(words)
}

/// Which command a line gives.
fn kind_of(alloc: Global, line: &str) -> Result<&'static str, AllocError> {
    let words = words_of(alloc, line)?;
    match read_words(alloc, words.as_slice()) {
        Ok(Command::Sync(_)) => Ok("sync"),
        Ok(Command::Monitor(_, _)) => Ok("monitor"),
        Ok(Command::Replay { .. }) => Ok("replay"),
        Err(UsageFault::Usage) => Ok("usage"),
        Err(UsageFault::Memory) => Err(AllocError),
    }
}

/// The same, of a line behind the options that a sync has to have.
fn kind_behind(alloc: Global, command: &str, line: &str) -> Result<&'static str, AllocError> {
    let options = "--root /r --hold /h --db /d --url http://127.0.0.1:8080";
    let line = format!(in alloc; "{command} {options} {line}")?;
    kind_of(alloc, line.as_str())
}

const LINES: [(&str, &str); 22] = [
    ("", "usage"),
    ("what", "usage"),
    ("--help", "usage"),
    ("sync", "usage"),
    ("sync --help", "usage"),
    ("replay", "replay"),
    ("replay --host h1", "replay"),
    ("replay --host=my-laptop", "replay"),
    ("replay --host h1 --host h1", "usage"),
    ("replay --host", "usage"),
    ("replay --host=", "usage"),
    ("replay --host my_laptop", "usage"),
    (
        "replay --host 012345678901234567890123456789012345678901234567890123456789abc",
        "replay",
    ),
    (
        "replay --host 012345678901234567890123456789012345678901234567890123456789abcd",
        "usage",
    ),
    ("replay --generate 1", "replay"),
    ("replay --generate=5000", "replay"),
    ("replay --generate 0", "usage"),
    ("replay --generate 5001", "usage"),
    ("replay --generate ten", "usage"),
    ("replay --generate 5 --generate 5", "usage"),
    ("replay --what", "usage"),
    ("replay stray", "usage"),
];

const BEHIND: [(&str, &str, &str); 14] = [
    ("sync", "--host h1", "sync"),
    ("sync", "", "usage"),
    (
        "sync",
        "--host h1 --rules /rules --resync --workers 16",
        "sync",
    ),
    ("sync", "--host h1 --workers 1", "sync"),
    ("sync", "--host h1 --workers 0", "usage"),
    ("sync", "--host h1 --workers 17", "usage"),
    ("sync", "--host h1 --resync --resync", "usage"),
    ("sync", "--host h1 --root /other", "usage"),
    ("sync", "--host h1 --times 3", "usage"),
    ("sync", "--host .", "usage"),
    ("monitor", "--host h1", "usage"),
    ("monitor", "--host h1 --times 3", "monitor"),
    ("monitor", "--host h1 --times 1000000", "monitor"),
    ("monitor", "--host h1 --times 1000001", "usage"),
];

#[test]
fn lines_give_commands(rt: HostRuntime) -> Result<(), Fail> {
    let alloc = rt.alloc();
    for (line, kind) in LINES {
        assert!(rt; kind_of(alloc, line)? == kind, "{line}");
    }
    Ok(())
}

#[test]
fn options_give_commands(rt: HostRuntime) -> Result<(), Fail> {
    let alloc = rt.alloc();
    for (command, line, kind) in BEHIND {
        assert!(rt;
            kind_behind(alloc, command, line)? == kind,
            "{command} .. {line}"
        );
    }
    Ok(())
}

#[test]
fn a_base_of_links_is_wanted(rt: HostRuntime) -> Result<(), Fail> {
    let alloc = rt.alloc();
    let line = "sync --root /r --hold /h --db /d --host h1 --url";
    for (url, kind) in [
        ("http://a:1", "sync"),
        ("https://a:1", "usage"),
        ("http://a:1/", "usage"),
    ] {
        let line = format!(in alloc; "{line} {url}")?;
        assert!(rt; kind_of(alloc, line.as_str())? == kind, "{url}");
    }
    Ok(())
}

/// Whether the words of a line are those of a sync with these.
fn is_sync(
    alloc: Global,
    line: &str,
    rules: bool,
    resync: bool,
    workers: u32,
) -> Result<bool, AllocError> {
    let words = words_of(alloc, line)?;
    match read_words(alloc, words.as_slice()) {
        Ok(Command::Sync(words)) => Ok(
            words.root.as_str() == "/r"
                && words.hold.as_str() == "/h"
                && words.db.as_str() == "/d"
                && words.url.as_str() == "http://a:1"
                && words.host.as_str() == "h1"
                && words.rules.is_some() == rules
                && words.resync == resync
                && words.workers == workers,
        ),
        _ => Ok(false),
    }
}

#[test]
fn options_have_their_values(rt: HostRuntime) -> Result<(), Fail> {
    let alloc = rt.alloc();
    let plain = "sync --root /r --hold /h --db /d --url http://a:1 --host h1";
    assert!(rt; is_sync(alloc, plain, false, false, 4)?);
    let full =
        "sync --resync --workers=12 --rules=/s --host=h1 --url=http://a:1 --db=/d --hold=/h --root=/r";
    assert!(rt; is_sync(alloc, full, true, true, 12)?);
    Ok(())
}

fn text_for(alloc: Global, line: &str) -> Result<Text, Fail> {
    let words = words_of(alloc, line)?;
    Ok(usage_text(alloc, words.as_slice())?)
}

const TEXTS: [(&str, &str); 9] = [
    ("", "Usage: odsync <COMMAND>"),
    (
        "--help",
        "sync     Makes a local folder and a drive the same, once",
    ),
    ("--version", "odsync 0.1.0"),
    ("what", "error: unrecognized subcommand 'what'"),
    (
        "sync",
        "error: the following required arguments were not provided:",
    ),
    ("sync --help", "[default: 4]"),
    ("sync --help", "as in `--url http://127.0.0.1:8080`"),
    ("sync --help", "  11  the drive's feed has no end"),
    (
        "replay --host my_laptop",
        "--host wants 1 to 63 letters, digits and dashes",
    ),
];

#[test]
fn refused_words_are_answered(rt: HostRuntime) -> Result<(), Fail> {
    let alloc = rt.alloc();
    for (line, part) in TEXTS {
        assert!(rt; text_for(alloc, line)?.as_str().contains(part), "{line}");
    }
    Ok(())
}
