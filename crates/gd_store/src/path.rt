ghost use Rattle.std.specs.Prelude.{◌≡◌, map, IfOk};
ghost use Rattle.gd_item.specs.Nodes.{live_node, path_within, path_of};
ghost use Rattle.gd_item.specs.Refusals.{is_too_long};

use crate::look::is_a_folder;
use gd_index::Index;
use gd_names::{List, NoMemory, Path, Text, path_fits};
use std::alloc::Global;

/// The names down to a number, over at most so many folders, if they lead up to the root.
fn names_within(
    alloc: Global,
    items: &Index,
    number: u64,
    steps: usize,
) -> Result<Option<List<Text>>, NoMemory>
    ensures { IfOk result (λ found. found ≡ path_within steps (map live_node items.now) number) }
{
    if number == 1 {
        return Ok(Some(List::new(alloc)));
    }
    if steps == 0 {
        return Ok(None);
    }
    let Some(item) = items.get(number) else {
        return Ok(None);
    };
    if !is_a_folder(items, item.parent) {
        return Ok(None);
    }
    match names_within(alloc, items, item.parent, steps - 1)? {
        None => Ok(None),
        Some(mut names) => {
            names.push(item.name.clone()?)?;
            Ok(Some(names))
        }
    }
}

/// The path of a number, if its folders lead up to the root.
pub fn path_to(alloc: Global, items: &Index, number: u64) -> Result<Option<Path>, NoMemory>
    ensures { IfOk result (λ found. found ≡ path_of (map live_node items.now) number) }
{
    match names_within(alloc, items, number, items.len())? {
        None => Ok(None),
        Some(names) => Ok(Some(Path::from_names(names))),
    }
}

/// Whether a path, if there is one, is longer than any item's may be.
pub fn is_long(path: &Option<Path>) -> bool
    ensures { result ≡ is_too_long path.now }
{
    match path {
        None => false,
        Some(path) => !path_fits(path),
    }
}
