ghost use Rattle.std.specs.Prelude.{◌≡◌, map, IfOk};
ghost use Rattle.std.specs.List.{list_any};
ghost use Rattle.std.specs.Option.{option_map};
ghost use Rattle.gd_item.specs.Inventory.{changed, with_place, live_at};
ghost use Rattle.gd_item.specs.Moves.{is_in_within, is_in as is_node_in};
ghost use Rattle.gd_item.specs.Nodes.{live_node, path_within, path_of};
ghost use Rattle.gd_item.specs.Refusals.{is_too_long};
ghost use Rattle.gd_item.specs.declared.live.LiveItem.{LiveItem};
ghost use Rattle.gd_store.specs.Kept.{AreApart};
ghost use Rattle.gd_store.specs.Moved.{is_any_long as is_one_long, place_of};

use crate::look::is_a_folder;
use crate::path::is_long;
use crate::walk::numbers_within;
use gd_index::Index;
use gd_names::{List, NoMemory, Path, Text};
use std::alloc::Global;

/// Whether a number is that of the top or stands below it, over at most so many folders.
fn is_within(items: &Index, top: u64, number: u64, steps: usize) -> bool
    ensures { result ≡ is_in_within steps (map live_node items.now) top number }
{
    if number == top {
        return true;
    }
    if steps == 0 {
        return false;
    }
    match items.get(number) {
        None => false,
        Some(item) => is_within(items, top, item.parent, steps - 1),
    }
}

/// Whether a number is that of the top or stands below it.
pub fn is_in(items: &Index, top: u64, number: u64) -> bool
    ensures { result ≡ is_node_in (map live_node items.now) top number }
{
    is_within(items, top, number, items.len())
}

/// The folder and the name of a number once an item is moved.
fn moved_place<'a>(
    items: &'a Index,
    moved: u64,
    parent: u64,
    name: &'a Text,
    number: u64,
) -> Option<(u64, &'a Text)>
    ensures { option_map (λ place. (place.0, place.1.now)) result ≡ option_map place_of (live_at number (changed moved (with_place 0 parent name.now) items.now)) }
{
    let Some(item) = items.get(number) else {
        return None;
    };
    if number == moved {
        Some((parent, name))
    } else {
        Some((item.parent, &item.name))
    }
}

/// The names down to a number once an item is moved, over at most so many folders, if they lead up to the root.
fn moved_names(
    alloc: Global,
    items: &Index,
    moved: u64,
    parent: u64,
    name: &Text,
    number: u64,
    steps: usize,
) -> Result<Option<List<Text>>, NoMemory>
    ensures { IfOk result (λ found. found ≡ path_within steps (map live_node (changed moved (with_place 0 parent name.now) items.now)) number) }
{
    if number == 1 {
        return Ok(Some(List::new(alloc)));
    }
    if steps == 0 {
        return Ok(None);
    }
    let Some((above, last)) = moved_place(items, moved, parent, name, number) else {
        return Ok(None);
    };
    if !is_a_folder(items, above) {
        return Ok(None);
    }
    match moved_names(alloc, items, moved, parent, name, above, steps - 1)? {
        None => Ok(None),
        Some(mut names) => {
            names.push(last.clone()?)?;
            Ok(Some(names))
        }
    }
}

/// The path of a number once an item is moved, if its folders then lead up to the root.
pub fn moved_path(
    alloc: Global,
    items: &Index,
    moved: u64,
    parent: u64,
    name: &Text,
    number: u64,
) -> Result<Option<Path>, NoMemory>
    ensures { IfOk result (λ found. found ≡ path_of (map live_node (changed moved (with_place 0 parent name.now) items.now)) number) }
{
    match moved_names(alloc, items, moved, parent, name, number, items.len())? {
        None => Ok(None),
        Some(names) => Ok(Some(Path::from_names(names))),
    }
}

/// Whether one of these numbers would have a path that is longer than any item's may be once an item is moved.
fn is_one_of_long(
    alloc: Global,
    items: &Index,
    moved: u64,
    parent: u64,
    name: &Text,
    numbers: &[u64],
) -> Result<bool, NoMemory>
    ensures { IfOk result (λ long. long ≡ list_any (λ n. is_too_long (path_of (map live_node (changed moved (with_place 0 parent name.now) items.now)) n)) numbers.now) }
{
    for number in numbers {
        let path = moved_path(alloc, items, moved, parent, name, *number)?;
        if is_long(&path) {
            return Ok(true);
        }
    }
    Ok(false)
}

/// Whether the path of an item, or one below it, would be longer than any item's may be once the item is moved.
pub fn would_any_be_long(
    alloc: Global,
    items: &Index,
    number: u64,
    parent: u64,
    name: &Text,
) -> Result<bool, NoMemory>
    requires { AreApart items.now }
    ensures { IfOk result (λ long. long ≡ is_one_long number (changed number (with_place 0 parent name.now) items.now)) }
{
    let numbers = numbers_within(alloc, items, number)?;
    let long = is_one_of_long(alloc, items, number, parent, name, numbers.as_slice())?;
    Ok(long)
}
