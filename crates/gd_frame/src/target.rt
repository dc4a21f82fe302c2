ghost use Rattle.std.specs.Prelude.{◌≡◌, true, false};
ghost use Rattle.httparse.specs.Grammar.{EndsInTarget};
ghost use Rattle.gd_frame.specs.Targets.{part_after, part_of};

use httparse::{is_method_token, is_uri_token};

/// Where in a request's first line bytes end.
#[derive(Clone, Copy, Debug, PartialEq, Eq)]
pub(crate) enum Part {
    /// In the empty lines before it.
    Blank,
    /// After a CR among them.
    Return,
    Method,
    Target,
    /// Behind the target, or nowhere.
    Other,
}

fn after(part: Part, byte: u8) -> Part
    ensures { result ≡ part_after part byte }
{
    match part {
        Part::Blank => match byte {
            b'\n' => Part::Blank,
            b'\r' => Part::Return,
            _ if is_method_token(byte) => Part::Method,
            _ => Part::Other,
        },
        Part::Return if byte == b'\n' => Part::Blank,
        Part::Method if is_method_token(byte) => Part::Method,
        Part::Method if byte == b' ' => Part::Target,
        Part::Target if is_uri_token(byte) => Part::Target,
        _ => Part::Other,
    }
}

fn part_of(bytes: &[u8]) -> Part
    ensures { result ≡ part_of Part.Blank bytes.now }
{
    let mut part = Part::Blank;
    for byte in bytes {
        part = after(part, *byte);
    }
    part
}

/// Whether bytes end inside a request's target.
pub(crate) fn ends_in_target(bytes: &[u8]) -> bool
    ensures yes { result ≡ true → EndsInTarget bytes.now }
    ensures no { result ≡ false → ¬ (EndsInTarget bytes.now) }
{
    match part_of(bytes) {
        Part::Target => true,
        Part::Blank => false,
        Part::Return => false,
        Part::Method => false,
        Part::Other => false,
    }
}
