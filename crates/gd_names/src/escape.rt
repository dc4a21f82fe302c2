ghost use Rattle.std.specs.Prelude.{◌≡◌, ℕ, ◌||◌, ◌++◌, true, false, None, Some, nat_eq, is_some, string_bytes, MatchOption, IfOk, OnOk, IsErrOf};
ghost use Rattle.std.specs.List.{list_any};
ghost use Rattle.std.specs.Char.{is_digit};
ghost use Rattle.std.specs.Str.{is_utf8};
ghost use Rattle.gd_names.specs.Escapes.{escaped, decoded, kept_name, unescaped};

use crate::memory::NoMemory;
use crate::text::Text;
use percent_encoding::{AsciiSet, NON_ALPHANUMERIC, ascii_set, percent_decode, percent_encode};
use std::alloc::{AllocError, Global};
use thiserror::Error;

/// Why a segment of a path gave no name.
#[derive(Clone, Copy, Debug, PartialEq, Eq, Error)]
pub enum EscapeFault {
    #[error("a segment is empty, has a broken escape, or stands for no name")]
    BadEscape,
    #[error("out of memory")]
    Memory,
}

impl From<AllocError> for EscapeFault {
    ghost use Rattle.gd_names.specs.declared.escape.EscapeFault.TheVariants.{Memory};

    ghost from_gives = { λ _ fault. fault ≡ Memory };

    fn from(_error: AllocError) -> EscapeFault {
        EscapeFault::Memory
    }
}

/// Every ASCII byte but the unreserved characters of a URL (RFC 3986, section 2.3).
const RESERVED: AsciiSet = ascii_set!(
    NON_ALPHANUMERIC
        .remove(b'-')
        .remove(b'.')
        .remove(b'_')
        .remove(b'~')
);

/// The name as a segment of a path, with each byte that is not unreserved escaped.
pub fn escape_segment(alloc: Global, name: &Text) -> Result<Text, NoMemory>
    ensures { IfOk result (λ t. t ≡ escaped name.now) }
{
    let mut segment = String::new(alloc);
    push_escaped(&mut segment, name.as_bytes())?;
    Ok(Text::from_string(segment))
}

/// Appends the name's segment.
pub(crate) fn push_escaped(out: &mut String, name: &[u8]) -> Result<(), AllocError>
    ensures { OnOk result (string_bytes out.new ≡ string_bytes out.old ++ escaped name.now) }
{
    percent_encode(name, RESERVED).append_to(out)?;
    Ok(())
}

/// The name that a segment of a path stands for. A segment is refused if it is empty, if a `%` has no two
/// hexadecimal digits after it, or if what it stands for is not UTF-8 or holds a `/` or a byte 0.
pub fn unescape_segment(alloc: Global, segment: &[u8]) -> Result<Text, EscapeFault>
    ensures ok { IfOk result (λ name. unescaped segment.now ≡ Some name) }
    ensures bad_escape { IsErrOf result EscapeFault.BadEscape → unescaped segment.now ≡ None }
{
    if segment.is_empty() {
        return Err(EscapeFault::BadEscape);
    }
    let bytes = decode(alloc, segment)?;
    match segment_name(bytes) {
        Some(name) => Ok(name),
        None => Err(EscapeFault::BadEscape),
    }
}

fn decode(alloc: Global, segment: &[u8]) -> Result<Vec<u8>, EscapeFault>
    ensures ok { IfOk result (λ bytes. decoded segment.now ≡ Some bytes.items) }
    ensures bad_escape { IsErrOf result EscapeFault.BadEscape → decoded segment.now ≡ None }
{
    if !has_whole_escapes(segment) {
        return Err(EscapeFault::BadEscape);
    }
    let mut bytes = Vec::new(alloc);
    percent_decode(segment).append_to(&mut bytes)?;
    Ok(bytes)
}

fn has_whole_escapes(segment: &[u8]) -> bool
    ensures { result ≡ is_some (decoded segment.now) }
{
    let mut rest = segment;
    while let [byte, after @ ..] = rest {
        if *byte != b'%' {
            rest = after;
            continue;
        }
        let [high, low, others @ ..] = after else {
            return false;
        };
        if !is_hexadecimal(*high) || !is_hexadecimal(*low) {
            return false;
        }
        rest = others;
    }
    true
}

fn is_hexadecimal(byte: u8) -> bool
    ensures { result ≡ is_digit byte 16 }
{
    byte.is_ascii_hexdigit()
}

fn segment_name(bytes: Vec<u8>) -> Option<Text>
    ensures { MatchOption result (kept_name (Some bytes.items) ≡ None) (λ name. kept_name (Some bytes.items) ≡ Some name) }
{
    if holds_slash_or_zero(bytes.as_slice()) {
        return None;
    }
    text_of(bytes)
}

fn text_of(bytes: Vec<u8>) -> Option<Text>
    ensures { MatchOption result (is_utf8 bytes.items ≡ false) (λ text. (text ≡ bytes.items) × (is_utf8 bytes.items ≡ true)) }
{
    match String::from_utf8(bytes) {
        Ok(text) => Some(Text::from_string(text)),
        Err(_) => None,
    }
}

fn holds_slash_or_zero(bytes: &[u8]) -> bool
    ensures { result ≡ list_any (λ b. nat_eq b 47 || nat_eq b 0) bytes.now }
{
    bytes.iter().any(|byte| *byte == b'/' || *byte == 0)
}
