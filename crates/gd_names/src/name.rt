ghost use Rattle.std.specs.Prelude.{◌≡◌, ◌&&◌, None, Some, length, codes, nat_eq, nat_lt, MatchResult};
ghost use Rattle.std.specs.List.{list_any, starts_with};
ghost use Rattle.gd_names.specs.Caseless.{equal_caseless, lower_case};
ghost use Rattle.gd_names.specs.Names.{is_bad_byte, is_dots, has_space_at_edge, reserved_names, holds_part, is_reserved, name_fault};

use crate::text::Text;
use thiserror::Error;

/// Why a text is no name of an item.
#[derive(Clone, Copy, Debug, PartialEq, Eq, Error)]
pub enum NameFault {
    #[error("a name is empty")]
    Empty,
    #[error("a name is longer than 255 bytes")]
    TooLong,
    #[error("a name holds a byte that no name may hold, or is `.` or `..`")]
    BadByte,
    #[error("a name begins or ends with a space")]
    Edge,
    #[error("a name is reserved")]
    Reserved,
}

/// Whether an item may have the name; if not, the first cause in the order of `NameFault`. Takes no memory.
pub fn check_name(name: &Text) -> Result<(), NameFault>
    ensures { MatchResult result (λ _. name_fault name.now ≡ None) (λ fault. name_fault name.now ≡ Some fault) }
{
    let bytes = name.as_bytes();
    if bytes.is_empty() {
        Err(NameFault::Empty)
    } else if bytes.len() > 255 {
        Err(NameFault::TooLong)
    } else if has_bad_byte(bytes) || is_dots(bytes) {
        Err(NameFault::BadByte)
    } else if has_space_at_edge(bytes) {
        Err(NameFault::Edge)
    } else if is_reserved(bytes) {
        Err(NameFault::Reserved)
    } else {
        Ok(())
    }
}

fn is_bad_byte(byte: u8) -> bool
    ensures { result ≡ is_bad_byte byte }
{
    match byte {
        b'"' | b'*' | b':' | b'<' | b'>' | b'?' | b'/' | b'\\' | b'|' => true,
        _ => byte < 32 || byte == 127,
    }
}

fn has_bad_byte(name: &[u8]) -> bool
    ensures { result ≡ list_any is_bad_byte name.now }
{
    name.iter().any(|byte| is_bad_byte(*byte))
}

fn is_dots(name: &[u8]) -> bool
    ensures { result ≡ is_dots name.now }
{
    name == b".".as_slice() || name == b"..".as_slice()
}

fn has_space_at_edge(name: &[u8]) -> bool
    ensures { result ≡ has_space_at_edge name.now }
{
    name.starts_with(b" ") || name.ends_with(b" ")
}

fn is_reserved(name: &[u8]) -> bool
    ensures { result ≡ is_reserved name.now }
{
    is_reserved_name(name) || name.starts_with(b"~$") || holds_vti(name)
}

const RESERVED_NAMES: [&[u8]; 26] = [
    b".lock",
    b"con",
    b"prn",
    b"aux",
    b"nul",
    b"com0",
    b"com1",
    b"com2",
    b"com3",
    b"com4",
    b"com5",
    b"com6",
    b"com7",
    b"com8",
    b"com9",
    b"lpt0",
    b"lpt1",
    b"lpt2",
    b"lpt3",
    b"lpt4",
    b"lpt5",
    b"lpt6",
    b"lpt7",
    b"lpt8",
    b"lpt9",
    b"desktop.ini",
];

fn is_reserved_name(name: &[u8]) -> bool
    ensures { result ≡ list_any (equal_caseless name.now) reserved_names }
{
    is_one_of(&RESERVED_NAMES, name)
}

fn is_one_of(names: &[&[u8]], name: &[u8]) -> bool
    ensures { result ≡ list_any (λ other. equal_caseless name.now other.now) names.now }
{
    names.iter().any(|other| name.eq_ignore_ascii_case(other))
}

fn begins_with_vti(text: &[u8]) -> bool
    ensures { result ≡ starts_with nat_eq (lower_case text.now) (codes "_vti_") }
{
    text.len() >= 5 && text[..5].eq_ignore_ascii_case(b"_vti_")
}

fn holds_vti(name: &[u8]) -> bool
    ensures { result ≡ holds_part (codes "_vti_") (lower_case name.now) }
{
    let mut rest = name;
    while let [_, after @ ..] = rest {
        if begins_with_vti(rest) {
            return true;
        }
        rest = after;
    }
    false
}
