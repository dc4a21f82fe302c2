ghost use Rattle.std.specs.Prelude.{◌≡◌, ℕ, ◌+◌, ◌<◌, ◌≤◌, ◌⊎◌, ◌||◌, true, false, ◌++◌, length, codes, nat_eq, slice_index_or, string_bytes, IfOk, IfSome, IfNone, MatchOption};
ghost use Rattle.std.specs.Char.{is_ascii_digit};
ghost use Rattle.std.specs.List.{list_all};
ghost use Rattle.gd_names.specs.Caseless.{equal_caseless};
ghost use Rattle.gd_names.specs.Numbered.{stem, extension};
ghost use Rattle.gd_names.specs.Copies.{digit, copy_of, four_digits, is_among, AllTaken, IsLeastCopy};

use crate::caseless::{strip_caseless_end, strip_caseless_front};
use crate::list::List;
use crate::memory::NoMemory;
use crate::numbered::{least_free, split_extension, unmarked};
use crate::text::Text;
use std::alloc::Global;

/// The name of a conflict copy, with the least number that no taken name has. There is none where all 9999 are taken,
/// and where the copy would be longer than 255 bytes.
pub fn copy_name(
    alloc: Global,
    name: &Text,
    folder: bool,
    host: &Text,
    taken: &List<Text>,
) -> Result<Option<Text>, NoMemory>
    ensures some { IfOk result (λ found. IfSome found (λ copy. IsLeastCopy name.now folder host.now taken.now copy)) }
    ensures none { IfOk result (λ found. IfNone found
        (AllTaken name.now folder host.now taken.now ⊎ (255 < length (copy_of name.now folder host.now 1)))) }
{
    let (stem, extension) = split_extension(name, folder);
    let front = copy_front(alloc, stem, host)?;
    if front.len() + extension.len() > 251 {
        return Ok(None);
    }
    let numbers = taken_numbers(
        alloc,
        front.as_bytes(),
        extension.as_bytes(),
        taken.as_slice(),
    )?;
    match least_free(numbers.as_slice()) {
        Some(number) => {
            let copy = numbered_copy(alloc, front.as_str(), number, extension)?;
            Ok(Some(copy))
        }
        None => Ok(None),
    }
}

/// What stands before the number of a copy.
fn copy_front(alloc: Global, stem: &str, host: &Text) -> Result<Text, NoMemory>
    ensures { IfOk result (λ front. front ≡ stem.now ++ codes "-" ++ host.now ++ codes "-safeBackup-") }
{
    let mut front = String::from_str(alloc, stem)?;
    front.push_str("-")?;
    front.push_str(host.as_str())?;
    front.push_str("-safeBackup-")?;
    Ok(Text::from_string(front))
}

fn numbered_copy(
    alloc: Global,
    front: &str,
    number: usize,
    extension: &str,
) -> Result<Text, NoMemory>
    ensures { IfOk result (λ copy. copy ≡ front.now ++ four_digits number ++ extension.now) }
{
    let mut copy = String::from_str(alloc, front)?;
    copy.push(digit(number / 1000))?;
    copy.push(digit(number / 100))?;
    copy.push(digit(number / 10))?;
    copy.push(digit(number))?;
    copy.push_str(extension)?;
    Ok(Text::from_string(copy))
}

fn digit(number: usize) -> char
    ensures { result ≡ digit number }
{
    char::from(b'0' + (number % 10) as u8)
}

/// Whether each number from 0 to 9999 is that of a copy among the taken names.
fn taken_numbers(
    alloc: Global,
    front: &[u8],
    extension: &[u8],
    taken: &[Text],
) -> Result<Vec<bool>, NoMemory>
    ensures len { IfOk result (λ numbers. length numbers.items ≡ 10000) }
    ensures taken { IfOk result (λ numbers. (n : ℕ) → n < 10000
        → slice_index_or numbers.items n false ≡ is_among taken.now (front.now ++ four_digits n ++ extension.now)) }
{
    let mut numbers = unmarked(alloc, 10000)?;
    for other in taken {
        mark_number(numbers.as_mut_slice(), other.as_bytes(), front, extension);
    }
    Ok(numbers)
}

/// Marks the number of the copy that the name is, if it is one.
fn mark_number(numbers: &mut [bool], name: &[u8], front: &[u8], extension: &[u8])
    requires { length numbers.old ≡ 10000 }
    ensures { (n : ℕ) → n < 10000 → slice_index_or numbers.new n false
        ≡ (slice_index_or numbers.old n false || equal_caseless name.now (front.now ++ four_digits n ++ extension.now)) }
{
    match copy_number(name, front, extension) {
        Some(number) => numbers[number] = true,
        None => {}
    }
}

fn copy_number(name: &[u8], front: &[u8], extension: &[u8]) -> Option<usize>
    ensures { MatchOption result
        ((n : ℕ) → n < 10000 → equal_caseless name.now (front.now ++ four_digits n ++ extension.now) ≡ false)
        (λ number. (number < 10000)
        × ((n : ℕ) → n < 10000 → equal_caseless name.now (front.now ++ four_digits n ++ extension.now) ≡ nat_eq n number)) }
{
    let left = strip_caseless_end(name, extension)?;
    let digits = strip_caseless_front(left, front)?;
    four_digit_number(digits)
}

fn four_digit_number(digits: &[u8]) -> Option<usize>
    ensures { MatchOption result
        ((n : ℕ) → n < 10000 → equal_caseless digits.now (four_digits n) ≡ false)
        (λ number. (number < 10000) × ((n : ℕ) → n < 10000 → equal_caseless digits.now (four_digits n) ≡ nat_eq n number)) }
{
    let [thousands, hundreds, tens, ones] = digits else {
        return None;
    };
    if !are_digits(digits) {
        return None;
    }
    let front = (*thousands - b'0') as usize * 10 + (*hundreds - b'0') as usize;
    let back = (*tens - b'0') as usize * 10 + (*ones - b'0') as usize;
    Some(front * 100 + back)
}

fn are_digits(bytes: &[u8]) -> bool
    ensures { result ≡ list_all is_ascii_digit bytes.now }
{
    bytes.iter().all(|byte| byte.is_ascii_digit())
}
