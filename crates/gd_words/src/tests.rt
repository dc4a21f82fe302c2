use super::*;
use std::alloc::{AllocError, Global};
use std::test::Fail;

/// What a line's words, between spaces, ask for.
fn asked(alloc: Global, line: &str) -> Result<Asked, AllocError> {
    let mut words = Vec::new(alloc);
    for word in line.split_whitespace() {
        words.push(String::from_str(alloc, word)?)?;
    }
    read_words(alloc, words.as_slice())
}

const SERVED: [(&str, u16, Option<u64>); 6] = [
    ("serve --port 8080", 8080, None),
    ("serve --port=1", 1, None),
    ("serve --port 65535 --connections 0", 65535, Some(0)),
    ("serve --connections=2 --port=18080", 18080, Some(2)),
    (
        "serve --port 8080 --connections 18446744073709551615",
        8080,
        Some(18446744073709551615),
    ),
    ("serve --port 08080", 8080, None),
];

#[test]
fn words_that_serve(rt: HostRuntime) -> Result<(), Fail> {
    for (line, port, connections) in SERVED {
        let found = match asked(rt.alloc(), line)? {
            Asked::Serve(serving) => Some(serving),
            Asked::Told(_) | Asked::Refused(_) => None,
        };
        assert!(rt; found == Some(Serving { port, connections }), "{line}");
    }
    Ok(())
}

/// Each line with a part of the text that says what is wrong with it.
const REFUSED: [(&str, &str); 16] = [
    ("", "Usage: gd_drive"),
    ("what", "unrecognized subcommand 'what'"),
    ("serve", "--port <PORT>"),
    ("serve --port", "a value is required for '--port <PORT>'"),
    ("serve --port 0", "0 is not in 1..=65535"),
    ("serve --port 65536", "65536 is not in 1..=65535"),
    (
        "serve --port ten",
        "invalid value 'ten' for '--port <PORT>'",
    ),
    ("serve --port -1", "unexpected argument '-1'"),
    (
        "serve --port 1 --port 1",
        "the argument '--port <PORT>' cannot be used multiple times",
    ),
    (
        "serve --port 1 --connections 1 --connections 1",
        "the argument '--connections <N>' cannot be used multiple times",
    ),
    (
        "serve --port 1 --connections 18446744073709551616",
        "invalid value '18446744073709551616'",
    ),
    (
        "serve --port 1 --connections many",
        "invalid value 'many' for '--connections <N>'",
    ),
    ("serve --port 1 stray", "unexpected argument 'stray'"),
    (
        "serve --host 0.0.0.0 --port 1",
        "unexpected argument '--host'",
    ),
    ("help", "unrecognized subcommand 'help'"),
    ("serve --version", "unexpected argument '--version'"),
];

#[test]
fn words_that_are_refused(rt: HostRuntime) -> Result<(), Fail> {
    for (line, part) in REFUSED {
        match asked(rt.alloc(), line)? {
            Asked::Refused(text) => assert!(rt; text.contains(part), "{line}: {text}"),
            Asked::Serve(_) | Asked::Told(_) => assert!(rt; false, "{line}"),
        }
    }
    Ok(())
}

/// Each line with a part of what it is told.
const TOLD: [(&str, &str); 9] = [
    ("--version", "gd_drive 0.1.0\n"),
    ("-V", "gd_drive 0.1.0\n"),
    ("-h", "gd_drive serve --port 8080"),
    ("--help", "the feed of changes"),
    ("serve -h", "as in `--port 8080`"),
    ("serve --help", "1 to 65535"),
    ("serve --help", "as in `--connections 1`"),
    ("serve --help", "listening 127.0.0.1:PORT"),
    ("serve --port 1 --help", "Exit codes:"),
];

#[test]
fn words_that_ask(rt: HostRuntime) -> Result<(), Fail> {
    for (line, part) in TOLD {
        match asked(rt.alloc(), line)? {
            Asked::Told(text) => assert!(rt; text.contains(part), "{line}: {text}"),
            Asked::Serve(_) | Asked::Refused(_) => assert!(rt; false, "{line}"),
        }
    }
    Ok(())
}
