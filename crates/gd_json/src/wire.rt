ghost use Rattle.std.specs.Prelude.{◌≡◌, slice_index, true, false, IfOk, IsErrOf};
ghost use Rattle.gd_names.specs.Escapes.{is_between};
ghost use Rattle.gd_json.specs.Bases.{is_host_byte, is_port, is_authority, is_base};

use gd_names::{Text, TextFault};
use std::alloc::Global;
use thiserror::Error;

/// Why a text is no base of links.
#[derive(Clone, Copy, Debug, PartialEq, Eq, Error)]
pub enum WireFault {
    #[error("not `http://`, a host, a colon and a port")]
    BadBase,
    #[error("out of memory")]
    Memory,
}

/// Where links begin.
#[derive(Debug, Drop)]
pub struct Wire {
    pub base: Text,
}

fn is_host_byte(byte: u8) -> bool
    ensures { result ≡ is_host_byte byte }
{
    matches!(byte, b'0'..=b'9' | b'A'..=b'Z' | b'a'..=b'z' | b'-' | b'.')
}

#[tactic(auto, unfolding(crate::specs::Bases::is_port))]
fn is_port(text: &[u8]) -> bool
    ensures { result ≡ is_port text.now }
{
    if !begins_with_count(text) {
        return false;
    }
    let digits = match str::from_utf8(text) {
        Ok(digits) => digits,
        Err(_) => return false,
    };
    match digits.parse::<u16>() {
        Ok(_) => true,
        Err(_) => false,
    }
}

fn begins_with_count(text: &[u8]) -> bool
    ensures { result ≡ is_between 49 57 (slice_index text.now 0) }
{
    matches!(text, [b'1'..=b'9', ..])
}

#[tactic(auto, unfolding(crate::specs::Bases::is_authority))]
fn is_authority(text: &[u8]) -> bool
    ensures { result ≡ is_authority false text.now }
{
    let mut some = false;
    let mut rest = text;
    while let [byte, after @ ..] = rest {
        if *byte == b':' {
            return some && is_port(after);
        }
        if !is_host_byte(*byte) {
            return false;
        }
        some = true;
        rest = after;
    }
    false
}

#[tactic(auto, unfolding(crate::specs::Bases::is_base))]
fn is_base(text: &[u8]) -> bool
    ensures { result ≡ is_base text.now }
{
    text.starts_with(b"http://") && is_authority(&text[7..])
}

impl Wire {
    /// The base is `http://`, a host of letters, digits, dots and dashes, `:` and a port without leading zeros.
    pub fn read(alloc: Global, text: &[u8]) -> Result<Wire, WireFault>
        ensures ok { IfOk result (λ wire. (wire.base ≡ text.now) × (is_base text.now ≡ true)) }
        ensures bad_base { IsErrOf result WireFault.BadBase → is_base text.now ≡ false }
    {
        if !is_base(text) {
            return Err(WireFault::BadBase);
        }
        match Text::from_bytes(alloc, text) {
            Ok(base) => Ok(Wire { base }),
            Err(TextFault::NotUtf8) => Err(WireFault::BadBase),
            Err(TextFault::Memory) => Err(WireFault::Memory),
        }
    }
}
