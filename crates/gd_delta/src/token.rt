ghost use Rattle.std.specs.Prelude.{◌≡◌, ◌&&◌, ◌||◌, IfOk, MatchOption, length, slice_index, nat_eq, nat_lt, None, Some, [], ◌∷◌};
ghost use Rattle.gd_item.specs.Tokens.{token_text, token_of_text, number_of_text, fields_from, token_of, token_of_fields};
ghost use Rattle.gd_delta.specs.Cuts.{cut};

use gd_item::Token;
use gd_names::{NoMemory, Text};
use std::alloc::Global;

/// What stands before the first dot, and behind it.
fn cut_at_dot(text: &[u8]) -> Option<(&[u8], &[u8])>
    ensures { MatchOption result (cut text.now ≡ None) (λ parts. cut text.now ≡ Some (parts.0.now, parts.1.now)) }
{
    for i in 0..text.len() {
        if text[i] == b'.' {
            return Some((&text[..i], &text[i + 1..]));
        }
    }
    None
}

/// Whether a sign, or a zero with more behind it, stands first.
fn has_more_before(digits: &[u8]) -> bool
    ensures { result ≡ (nat_eq (slice_index digits.now 0) 43 || nat_eq (slice_index digits.now 0) 48 && nat_lt 1 (length digits.now)) }
{
    match digits {
        [] => false,
        [first, ..] => *first == b'+' || *first == b'0' && digits.len() > 1,
    }
}

/// The number below 2 ^ 64 that stands there in decimal without leading zeros.
fn read_number(digits: &[u8]) -> Option<u64>
    ensures { result ≡ number_of_text digits.now }
{
    let text = match str::from_utf8(digits) {
        Ok(text) => text,
        Err(_) => return None,
    };
    if has_more_before(digits) {
        return None;
    }
    match text.parse::<u64>() {
        Ok(number) => Some(number),
        Err(_) => None,
    }
}

/// The three fields of a text between its dots, if there are three.
fn three_fields(text: &[u8]) -> Option<(&[u8], &[u8], &[u8])>
    ensures { MatchOption result (token_of_fields (fields_from [] text.now) ≡ None)
        (λ found. fields_from [] text.now ≡ found.0.now ∷ found.1.now ∷ found.2.now ∷ []) }
{
    let Some((first, others)) = cut_at_dot(text) else {
        return None;
    };
    let Some((second, third)) = cut_at_dot(others) else {
        return None;
    };
    match cut_at_dot(third) {
        Some(_) => None,
        None => Some((first, second, third)),
    }
}

/// The token of three numbers, if all are there.
fn token_from(epoch: Option<u64>, position: Option<u64>, start: Option<u64>) -> Option<Token>
    ensures { result ≡ token_of epoch position start }
{
    let epoch = epoch?;
    let position = position?;
    let start = start?;
    Some(Token {
        epoch,
        position,
        start,
    })
}

/// The token that a text spells: `t`, the epoch, the position and the start in decimal without leading zeros, with
/// dots between them. Takes no memory.
pub fn read_token(text: &[u8]) -> Option<Token>
    ensures { result ≡ token_of_text text.now }
{
    let [b't', fields @ ..] = text else {
        return None;
    };
    match three_fields(fields) {
        Some((epoch, position, start)) => token_from(
            read_number(epoch),
            read_number(position),
            read_number(start),
        ),
        None => None,
    }
}

/// The text of a token.
pub fn write_token(alloc: Global, token: &Token) -> Result<Text, NoMemory>
    ensures { IfOk result (λ text. text ≡ token_text token.now) }
{
    let Token {
        epoch,
        position,
        start,
    } = *token;
    let text = format!(in alloc; "t{epoch}.{position}.{start}")?;
    Ok(Text::from_string(text))
}
