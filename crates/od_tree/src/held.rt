ghost use Rattle.std.specs.Prelude.{◌≡◌, ◌<◌, ◌++◌, length, slice_get, IfOk, MatchOption, Some, None};
ghost use Rattle.std.specs.List.{remove};
ghost use Rattle.std.specs.Option.{option_copied};
ghost use Rattle.od_tree.specs.Holding.{aside_of, asides_of, files_of};
ghost use Rattle.od_tree.specs.Local.{held_at, greatest_number, without_held};

use crate::aside::Aside;
use crate::local::HeldFile;
use gd_names::{Bytes, List, NoMemory};
use std::alloc::Global;

/// The held file of a number.
pub fn held_at(held: &[HeldFile], number: u64) -> Option<&HeldFile>
    ensures { option_copied result ≡ held_at number held.now }
{
    for file in held {
        if file.number == number {
            return Some(file);
        }
    }
    None
}

/// The greatest number of a held file, and 0 where there is none.
pub fn greatest_number(held: &[HeldFile]) -> u64
    ensures { result ≡ greatest_number held.now }
{
    let mut greatest = 0;
    for file in held {
        if greatest < file.number {
            greatest = file.number;
        }
    }
    greatest
}

/// The index of the first held file of a number.
fn held_index(held: &[HeldFile], number: u64) -> Option<usize>
    ensures left { MatchOption result (without_held number held.now ≡ held.now) (λ i. (i < length held.now) × (without_held number held.now ≡ remove held.now i)) }
    ensures file { MatchOption result (held_at number held.now ≡ None) (λ i. held_at number held.now ≡ slice_get held.now i) }
{
    let mut index = 0;
    while index < held.len() {
        if held[index].number == number {
            return Some(index);
        }
        index += 1;
    }
    None
}

/// Takes the first file of a number out of holding.
pub fn take_held(held: &mut Vec<HeldFile>, number: u64) -> Option<HeldFile>
    ensures file { result ≡ held_at number held.old.items }
    ensures left { held.new.items ≡ without_held number held.old.items }
{
    match held_index(held.as_slice(), number) {
        Some(index) => Some(held.remove(index)),
        None => None,
    }
}

fn aside_of(file: &HeldFile) -> Result<Aside, NoMemory>
    ensures { IfOk result (λ aside. aside ≡ aside_of file.now) }
{
    Ok(Aside {
        number: file.number,
        from: file.from.clone()?,
    })
}

/// The held files, as they are listed.
pub fn asides_of(alloc: Global, held: &[HeldFile]) -> Result<List<Aside>, NoMemory>
    ensures { IfOk result (λ asides. asides ≡ asides_of held.now) }
{
    let mut asides = List::new(alloc);
    for file in held {
        asides.push(aside_of(file)?)?;
    }
    Ok(asides)
}

/// The held files with their bytes.
pub fn files_of(alloc: Global, held: &[HeldFile]) -> Result<List<(Aside, Bytes)>, NoMemory>
    ensures { IfOk result (λ files. files ≡ files_of held.now) }
{
    let mut files = List::new(alloc);
    for file in held {
        files.push((aside_of(file)?, file.file.bytes.clone()?))?;
    }
    Ok(files)
}
