ghost use Rattle.std.specs.Prelude.{◌≡◌, ◌<◌, ◌≤◌, Some, None, codes, length, nat_eq, IfOk, IfSome, IsErrOf, MatchOption};
ghost use Rattle.std.specs.List.{list_all, list_any, position, starts_with};
ghost use Rattle.od_cli.specs.Script.{fill_words, first_word, hex_byte, hex_digit, is_digit, is_number, is_plain, is_quoted, last_path, script_content, script_number, script_path, unquoted};

use crate::fault::LineFault;
use crate::line::Content;
use gd_names::{Bytes, Path, PathFault};
use std::alloc::Global;

/// How many bytes a content may be filled with.
const MOST_FILL: u32 = 70_000_000;

/// The path of an entry that a word spells.
pub fn read_path(alloc: Global, word: &[u8]) -> Result<Path, LineFault>
    ensures ok { IfOk result (λ path. script_path word.now ≡ Some path) }
    ensures bad { IsErrOf result LineFault.Bad → script_path word.now ≡ None }
{
    match Path::read(alloc, word) {
        Ok(path) => {
            if path.is_root() {
                return Err(LineFault::Bad);
            }
            Ok(path)
        }
        Err(PathFault::BadPath) => Err(LineFault::Bad),
        Err(PathFault::Memory) => Err(LineFault::Memory),
    }
}

/// A path that is the last word.
pub fn read_last_path(alloc: Global, word: &[u8]) -> Result<Path, LineFault>
    ensures ok { IfOk result (λ path. last_path word.now ≡ Some path) }
    ensures bad { IsErrOf result LineFault.Bad → last_path word.now ≡ None }
{
    if holds_space(word) {
        return Err(LineFault::Bad);
    }
    read_path(alloc, word)
}

fn holds_space(word: &[u8]) -> bool
    ensures { result ≡ list_any (λ b. nat_eq b 32) word.now }
{
    word.iter().any(|byte| *byte == b' ')
}

/// The content that a text spells: in quotes, or by `fill`.
pub fn read_content(alloc: Global, text: &[u8]) -> Result<Content, LineFault>
    ensures ok { IfOk result (λ content. script_content text.now ≡ Some content) }
    ensures bad { IsErrOf result LineFault.Bad → script_content text.now ≡ None }
{
    if is_quoted(text) {
        let content = Bytes::from_slice(alloc, unquoted(text))?;
        return Ok(Content::Text(content));
    }
    match read_fill(text) {
        Some(content) => Ok(content),
        None => Err(LineFault::Bad),
    }
}

/// The content that `fill`, a count and a byte spell.
fn read_fill(text: &[u8]) -> Option<Content>
    ensures { result ≡ fill_words (first_word text.now) }
{
    let (word, rest) = first_word(text)?;
    if word != b"fill".as_slice() {
        return None;
    }
    let (count, byte) = first_word(rest)?;
    let count = read_number(count, MOST_FILL)?;
    let byte = read_byte(byte)?;
    Some(Content::Fill(count, byte))
}

/// A number in decimal from 1 up to a most, without leading zeros.
pub fn read_number(word: &[u8], most: u32) -> Option<u32>
    ensures { result ≡ script_number most word.now }
{
    if !is_number(word) {
        return None;
    }
    let mut value: u64 = 0;
    for byte in word {
        value = 10 * value + (*byte).saturating_sub(b'0') as u64;
        if value > most as u64 {
            return None;
        }
    }
    Some(value as u32)
}

fn is_number(word: &[u8]) -> bool
    ensures { result ≡ is_number word.now }
{
    if word.is_empty() {
        return false;
    }
    !begins_with_zero(word) && holds_digits(word)
}

fn begins_with_zero(word: &[u8]) -> bool
    ensures { result ≡ starts_with nat_eq word.now (codes "0") }
{
    word.starts_with(b"0")
}

fn holds_digits(word: &[u8]) -> bool
    ensures { result ≡ list_all is_digit word.now }
{
    word.iter().all(|byte| is_digit(*byte))
}

fn is_digit(byte: u8) -> bool
    ensures { result ≡ is_digit byte }
{
    matches!(byte, b'0'..=b'9')
}

/// The byte that two hexadecimal digits spell.
fn read_byte(word: &[u8]) -> Option<u8>
    ensures { result ≡ hex_byte word.now }
{
    let [high, low] = word else {
        return None;
    };
    let high = read_digit(*high)?;
    let low = read_digit(*low)?;
    Some(high * 16 + low)
}

/// The value of a hexadecimal digit of either case.
fn read_digit(byte: u8) -> Option<u8>
    ensures value { result ≡ hex_digit byte }
    ensures small { IfSome result (λ value. value < 16) }
{
    match byte {
        b'0'..=b'9' => Some(byte - b'0'),
        b'A'..=b'F' => Some(byte - b'A' + 10),
        b'a'..=b'f' => Some(byte - b'a' + 10),
        _ => None,
    }
}

fn is_quoted(text: &[u8]) -> bool
    ensures { result ≡ is_quoted text.now }
{
    text.len() >= 2
        && text.starts_with(b"\"")
        && text.ends_with(b"\"")
        && holds_plain(unquoted(text))
}

/// What stands between the quotes.
fn unquoted(text: &[u8]) -> &[u8]
    requires { 2 ≤ length text.now }
    ensures { result.now ≡ unquoted text.now }
{
    &text[1..text.len() - 1]
}

pub fn holds_plain(text: &[u8]) -> bool
    ensures { result ≡ list_all is_plain text.now }
{
    text.iter().all(|byte| is_plain(*byte))
}

/// Whether a byte may stand between quotes: printable ASCII other than `"`.
fn is_plain(byte: u8) -> bool
    ensures { result ≡ is_plain byte }
{
    matches!(byte, b' '..=b'~') && byte != b'"'
}

/// The first word of a text, and what follows the space after it, if there is one.
pub fn first_word(text: &[u8]) -> Option<(&[u8], &[u8])>
    ensures { MatchOption result (first_word text.now ≡ None) (λ parts. first_word text.now ≡ Some (parts.0.now, parts.1.now)) }
{
    match first_space(text) {
        Some(at) => {
            let (word, _) = text.split_at(at);
            let (_, rest) = text.split_at(at + 1);
            Some((word, rest))
        }
        None => None,
    }
}

fn first_space(text: &[u8]) -> Option<usize>
    ensures cases { result ≡ position (λ b. nat_eq b 32) text.now }
    ensures within { IfSome result (λ at. at < length text.now) }
{
    text.iter().position(|byte| *byte == b' ')
}
