ghost use Rattle.std.specs.Prelude.{◌≡◌, ℕ, ◌+◌, ◌<◌, ◌≤◌, ◌||◌, false, ◌++◌, length, codes, slice_index_or, IfOk};
ghost use Rattle.std.specs.Fmt.{decimal};
ghost use Rattle.gd_names.specs.Caseless.{equal_caseless};
ghost use Rattle.gd_names.specs.Numbered.{stem, numbered};
ghost use Rattle.gd_names.specs.Settling.{is_taken, least_number, free_within};

use gd_names::{
    NoMemory, Settle, Sibling, Text, least_free, number_between, numbered_name, split_extension,
    unmarked,
};
use std::alloc::Global;

/// The name with the least number that makes it free, where that is at most 255 bytes long.
pub fn renamed(
    alloc: Global,
    siblings: &[Sibling],
    name: &Text,
    folder: bool,
) -> Result<Settle, NoMemory>
    requires { length siblings.now < 100000 }
    ensures { IfOk result (λ settle. settle ≡ free_within (numbered name.now folder (least_number siblings.now siblings.now name.now folder 1))) }
{
    let number = free_number(alloc, siblings, name, folder)?;
    let made = numbered_name(alloc, name, folder, number)?;
    if made.len() <= 255 {
        Ok(Settle::Free(made))
    } else {
        Ok(Settle::Refuse)
    }
}

fn free_number(
    alloc: Global,
    siblings: &[Sibling],
    name: &Text,
    folder: bool,
) -> Result<usize, NoMemory>
    requires { length siblings.now < 100000 }
    ensures { IfOk result (λ number. number ≡ least_number siblings.now siblings.now name.now folder 1) }
{
    let numbers = taken_numbers(alloc, siblings, name, folder)?;
    match least_free(numbers.as_slice()) {
        Some(number) => Ok(number),
        None => Ok(siblings.len() + 1),
    }
}

/// Whether each number from 1 to that of the siblings is taken by one of them.
fn taken_numbers(
    alloc: Global,
    siblings: &[Sibling],
    name: &Text,
    folder: bool,
) -> Result<Vec<bool>, NoMemory>
    requires { length siblings.now < 100000 }
    ensures len { IfOk result (λ numbers. length numbers.items ≡ length siblings.now + 1) }
    ensures taken { IfOk result (λ numbers. (n : ℕ) → 1 ≤ n → n ≤ length siblings.now
        → slice_index_or numbers.items n false ≡ is_taken siblings.now (numbered name.now folder n)) }
{
    let (stem, extension) = split_extension(name, folder);
    let front = format!(in alloc; "{stem} ")?;
    let mut numbers = unmarked(alloc, siblings.len() + 1)?;
    for sibling in siblings {
        mark_number(
            numbers.as_mut_slice(),
            sibling.name.as_bytes(),
            front.as_bytes(),
            extension.as_bytes(),
        );
    }
    Ok(numbers)
}

/// Marks the number that the sibling's name has between the two ends, if it has one that can be marked.
fn mark_number(numbers: &mut [bool], sibling: &[u8], front: &[u8], end: &[u8])
    requires { length numbers.old ≤ 100000 }
    ensures { (n : ℕ) → 1 ≤ n → n < length numbers.old → slice_index_or numbers.new n false
        ≡ (slice_index_or numbers.old n false || equal_caseless sibling.now (front.now ++ decimal n ++ end.now)) }
{
    match number_between(sibling, front, end) {
        Some(number) => {
            let at = number as usize;
            if at < numbers.len() {
                numbers[at] = true;
            }
        }
        None => {}
    }
}
