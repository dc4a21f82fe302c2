ghost use Rattle.std.specs.Prelude.{◌≡◌, ◌≤◌, ◌<◌, ◌^◌, ℕ, All, Ok, Err, Some, map, length, min, codes, count_by, IfOk, Result};
ghost use Rattle.std.specs.Option.{option_map};
ghost use Rattle.httparse.specs.Spans.{IsHeaderWithin, header_bytes};
ghost use Rattle.gd_frame.specs.Framing.{equal_caseless, decimal_of, number_of, framing, IsAnnounced, is_length, has_coding, the_length};

use crate::message::MessageCause;
use httparse::spans::HeaderSpan;

/// The most bytes of a body.
pub const MAX_BODY: u64 = 67_108_864;

const LIMIT: u128 = 18_446_744_073_709_551_616;

pub(crate) fn equal_caseless(a: &[u8], b: &[u8]) -> bool
    ensures { result ≡ equal_caseless a.now b.now }
{
    a.eq_ignore_ascii_case(b)
}

/// The number in decimal; one above the limit counts as the limit.
fn capped_number(text: &[u8]) -> Option<u128>
    ensures { result ≡ option_map (λ n. min n 18446744073709551616) (decimal_of text.now) }
{
    if text.is_empty() {
        return None;
    }
    let mut number: u128 = 0;
    for digit in text {
        if *digit < b'0' || *digit > b'9' {
            return None;
        }
        number = (10 * number + u128::from(*digit - b'0')).min(LIMIT);
    }
    Some(number)
}

/// The number below 2^64 that decimal digits spell, and nothing else.
pub fn number(text: &[u8]) -> Option<u64>
    ensures { result ≡ number_of text.now }
{
    match capped_number(text) {
        Some(number) if number < LIMIT => Some(number as u64),
        _ => None,
    }
}

fn has_coding(bytes: &[u8], headers: &[HeaderSpan]) -> bool
    requires { All (IsHeaderWithin (length bytes.now)) headers.now }
    ensures { result ≡ has_coding (map (header_bytes bytes.now) headers.now) }
{
    for header in headers {
        if equal_caseless(header.name.of(bytes), b"transfer-encoding") {
            return true;
        }
    }
    false
}

fn is_length(bytes: &[u8], header: &HeaderSpan) -> bool
    requires { IsHeaderWithin (length bytes.now) header.now }
    ensures { result ≡ is_length (header_bytes bytes.now header.now) }
{
    equal_caseless(header.name.of(bytes), b"content-length")
}

#[tactic(auto, using(crate::proofs::Fields::count_step))]
fn lengths(bytes: &[u8], headers: &[HeaderSpan]) -> usize
    requires { All (IsHeaderWithin (length bytes.now)) headers.now }
    ensures { result ≡ count_by is_length (map (header_bytes bytes.now) headers.now) }
{
    let mut count = 0;
    for header in headers {
        if is_length(bytes, header) {
            count += 1;
        }
    }
    count
}

#[tactic(auto, using(crate::proofs::Fields::find_step))]
fn the_length(bytes: &[u8], headers: &[HeaderSpan]) -> Option<u64>
    requires { All (IsHeaderWithin (length bytes.now)) headers.now }
    ensures { result ≡ the_length (map (header_bytes bytes.now) headers.now) }
{
    for header in headers {
        if is_length(bytes, header) {
            return number(header.value.of(bytes));
        }
    }
    None
}

/// The length of the body that the headers announce, where `absent` is what it means that they do not.
pub(crate) fn framing(
    absent: Result<u64, MessageCause>,
    bytes: &[u8],
    headers: &[HeaderSpan],
) -> Result<u64, MessageCause>
    requires within { All (IsHeaderWithin (length bytes.now)) headers.now }
    requires absent { IsAnnounced absent }
    ensures is { result ≡ framing absent (map (header_bytes bytes.now) headers.now) }
    ensures announced { IsAnnounced result }
{
    if has_coding(bytes, headers) {
        return Err(MessageCause::Coding);
    }
    match lengths(bytes, headers) {
        0 => absent,
        1 => match the_length(bytes, headers) {
            None => Err(MessageCause::Framing),
            Some(length) if length <= MAX_BODY => Ok(length),
            Some(_) => Err(MessageCause::Body),
        },
        _ => Err(MessageCause::Framing),
    }
}
