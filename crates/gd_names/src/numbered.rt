ghost use Rattle.std.specs.Prelude.{◌≡◌, ℕ, ◌^◌, ◌<◌, ◌≤◌, true, false, ◌++◌, length, drop, nat_eq, slice_index, slice_index_or, IfOk, IfSome, MatchOption};
ghost use Rattle.std.specs.Fmt.{decimal};
ghost use Rattle.gd_names.specs.Escapes.{is_between};
ghost use Rattle.gd_names.specs.Caseless.{equal_caseless};
ghost use Rattle.gd_names.specs.Numbered.{stem, extension, file_extension, numbered, IsLeastFree, IsNumberBetween};

use crate::caseless::{strip_caseless_end, strip_caseless_front};
use crate::memory::NoMemory;
use crate::text::Text;
use std::alloc::Global;

/// What stands before the name's extension, and the extension. The extension of a file begins at its last dot that
/// is not its first byte; a folder has none.
pub fn split_extension(name: &Text, folder: bool) -> (&str, &str)
    ensures stem { result.0.now ≡ stem name.now folder }
    ensures extension { result.1.now ≡ extension name.now folder }
{
    let text = name.as_str();
    if folder {
        return (text, "");
    }
    text.split_at(stem_length(text.as_bytes()))
}

/// How many bytes stand before a file's extension.
fn stem_length(name: &[u8]) -> usize
    ensures within { result ≤ length name.now }
    ensures rest { drop result name.now ≡ file_extension name.now }
    ensures dot { result < length name.now → slice_index name.now result ≡ 46 }
{
    let mut at = name.len();
    while at > 1 {
        at -= 1;
        if name[at] == b'.' {
            return at;
        }
    }
    name.len()
}

/// The least number from 1 that is not marked.
pub fn least_free(marked: &[bool]) -> Option<usize>
    ensures { MatchOption result
        ((n : ℕ) → 1 ≤ n → n < length marked.now → slice_index_or marked.now n false ≡ true)
        (λ number. IsLeastFree marked.now number) }
{
    for number in 1..marked.len() {
        if !marked[number] {
            return Some(number);
        }
    }
    None
}

/// As many marks, none of them set.
pub fn unmarked(alloc: Global, count: usize) -> Result<Vec<bool>, NoMemory>
    ensures len { IfOk result (λ marked. length marked.items ≡ count) }
    ensures none { IfOk result (λ marked. (n : ℕ) → slice_index_or marked.items n false ≡ false) }
{
    let marked = vec![in alloc; false; count]?;
    Ok(marked)
}

/// The name with a blank and a number before its extension.
pub fn numbered_name(
    alloc: Global,
    name: &Text,
    folder: bool,
    number: usize,
) -> Result<Text, NoMemory>
    ensures { IfOk result (λ made. made ≡ numbered name.now folder number) }
{
    let (stem, extension) = split_extension(name, folder);
    let made = format!(in alloc; "{stem} {number}{extension}")?;
    Ok(Text::from_string(made))
}

/// The number from 1 that stands between the two ends of the text, as `{}` writes it. The ends are told without case.
pub fn number_between(text: &[u8], front: &[u8], end: &[u8]) -> Option<u32>
    ensures numbers { MatchOption result
        ((n : ℕ) → 1 ≤ n → n < 2 ^ 32 → equal_caseless text.now (front.now ++ decimal n ++ end.now) ≡ false)
        (λ number. (n : ℕ) → 1 ≤ n → n < 2 ^ 32 → equal_caseless text.now (front.now ++ decimal n ++ end.now) ≡ nat_eq n number) }
    ensures some { IfSome result (λ number. IsNumberBetween text.now front.now end.now number) }
{
    let left = strip_caseless_end(text, end)?;
    let digits = strip_caseless_front(left, front)?;
    number_of(digits)
}

fn number_of(digits: &[u8]) -> Option<u32>
    ensures numbers { MatchOption result
        ((n : ℕ) → 1 ≤ n → n < 2 ^ 32 → equal_caseless digits.now (decimal n) ≡ false)
        (λ number. (n : ℕ) → 1 ≤ n → n < 2 ^ 32 → equal_caseless digits.now (decimal n) ≡ nat_eq n number) }
    ensures range { IfSome result (λ number. (1 ≤ number) × (number < 2 ^ 32)) }
{
    let text = match str::from_utf8(digits) {
        Ok(text) => text,
        Err(_) => return None,
    };
    if !begins_with_count(digits) {
        return None;
    }
    match text.parse::<u32>() {
        Ok(number) => Some(number),
        Err(_) => None,
    }
}

/// Whether the first byte is a digit from 1 to 9.
fn begins_with_count(digits: &[u8]) -> bool
    ensures { result ≡ is_between 49 57 (slice_index digits.now 0) }
{
    matches!(digits, [b'1'..=b'9', ..])
}
