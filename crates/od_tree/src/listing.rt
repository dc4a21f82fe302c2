ghost use Rattle.std.specs.Prelude.{◌≡◌, ◌∷◌, [], map, filter, IfOk, OnOk, List};
ghost use Rattle.gd_names.specs.Ordered.{in_order, in_order_from};
ghost use Rattle.gd_item.specs.Places.{last_name};
ghost use Rattle.od_tree.specs.Listing.{is_right_below, size_in, entry_of, entries_in};
ghost use Rattle.od_tree.specs.Local.{bytes_in, tree_of_spots};

use crate::entry::Entry;
use crate::local::{LocalFile, Spot};
use crate::look::is_from;
use gd_names::{Bytes, List, NoMemory, Path, Text};
use std::alloc::{AllocError, Global};
use std::collections::BTreeMap;

/// Whether a path is right below another one.
fn is_right_below(top: &[Text], names: &[Text]) -> bool
    ensures { result ≡ is_right_below top.now names.now }
{
    is_from(top, names) && names.len() == top.len() + 1
}

/// The last name of a path, and an empty one of the root.
fn last_name(alloc: Global, names: &[Text]) -> Result<Text, NoMemory>
    ensures { IfOk result (λ name. name ≡ last_name names.now) }
{
    match names {
        [.., name] => Ok(name.clone()?),
        [] => Text::from_str(alloc, ""),
    }
}

fn size_in(file: &Option<LocalFile>) -> u64
    ensures { result ≡ size_in file.now }
{
    match file {
        Some(file) => file.bytes.as_slice().len() as u64,
        None => 0,
    }
}

fn entry_of(alloc: Global, spot: &Spot) -> Result<Entry, NoMemory>
    ensures { IfOk result (λ entry. entry ≡ entry_of spot.now) }
{
    let name = last_name(alloc, spot.path.names())?;
    let size = size_in(&spot.file);
    Ok(Entry {
        name,
        folder: spot.file.is_none(),
        size,
    })
}

/// The entries of a folder in order of name.
pub fn entries_in(alloc: Global, spots: &[Spot], at: &[Text]) -> Result<List<Entry>, NoMemory>
    ensures { IfOk result (λ entries. entries ≡ entries_in at.now spots.now) }
{
    let placed = place_entries(alloc, spots, at)?;
    let entries = placed.into_values().collect(alloc)?;
    Ok(List::from_vec(entries))
}

fn place_entries(
    alloc: Global,
    spots: &[Spot],
    at: &[Text],
) -> Result<BTreeMap<Path, Entry>, NoMemory>
    ensures { IfOk result (λ placed. placed.entries ≡ in_order (map (λ (spot : Spot). (spot.path, entry_of spot)) (filter (λ (spot : Spot). is_right_below at.now spot.path) spots.now))) }
{
    let mut placed = BTreeMap::new(alloc);
    for spot in spots {
        if is_right_below(at, spot.path.names()) {
            let entry = entry_of(alloc, spot)?;
            placed.insert(spot.path.clone()?, entry)?;
        }
    }
    Ok(placed)
}

fn bytes_in(file: &Option<LocalFile>) -> Result<Option<Bytes>, AllocError>
    ensures { IfOk result (λ bytes. bytes ≡ bytes_in file.now) }
{
    match file {
        Some(file) => Ok(Some(file.bytes.clone()?)),
        None => Ok(None),
    }
}

/// The tree of the entries, in order of path.
pub fn tree_of(alloc: Global, spots: &[Spot]) -> Result<List<(Path, Option<Bytes>)>, NoMemory>
    ensures { IfOk result (λ entries. entries ≡ tree_of_spots spots.now) }
{
    let placed = place_all(alloc, spots)?;
    let entries = placed.into_iter().collect(alloc)?;
    Ok(List::from_vec(entries))
}

fn place_all(alloc: Global, spots: &[Spot]) -> Result<BTreeMap<Path, Option<Bytes>>, NoMemory>
    ensures { IfOk result (λ placed. placed.entries ≡ tree_of_spots spots.now) }
{
    let mut placed = BTreeMap::new(alloc);
    for spot in spots {
        let bytes = bytes_in(&spot.file)?;
        placed.insert(spot.path.clone()?, bytes)?;
    }
    Ok(placed)
}
