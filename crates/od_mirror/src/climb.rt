// Walks over a list of items, from folder to folder up to the root.
ghost use Rattle.std.specs.Prelude.{◌≡◌, ℕ, Some, None, is_some, reverse, true, false, IfOk};
ghost use Rattle.std.specs.Option.{option_copied, option_map};
ghost use Rattle.gd_item.specs.Nodes as drive;
ghost use Rattle.gd_item.specs.Nodes.{item_node, node_at, is_folder_kind, path_of};
ghost use Rattle.od_mirror.specs.Climbs as climb;
ghost use Rattle.od_mirror.specs.Climbs.{Rise, step_up};
ghost use Rattle.od_mirror.specs.Pulled.{nodes, IsLeastBad, AllFit};
ghost use Rattle.od_mirror.specs.Places.{ArePlaces, AreFirsts};
ghost use Rattle.od_mirror.specs.Pulled as pulled;

use crate::places::{Spot, first_in, firsts_of, item_at, places_of};
use gd_item::{Item, Kind};
use gd_names::{List, NoMemory, Path, Text};
use std::alloc::Global;
use std::collections::BTreeMap;

fn is_folder_item(item: &Item) -> bool
    ensures { result ≡ is_folder_kind item.now.kind }
{
    match item.kind {
        Kind::Folder { .. } => true,
        Kind::File { .. } => false,
        Kind::Bare => false,
        Kind::Deleted => false,
    }
}

/// Whether the item of a number is there, and a folder.
fn is_folder_there(items: &[Item], places: &BTreeMap<u64, usize>, number: u64) -> bool
    requires { ArePlaces items.now places.now.entries }
    ensures { result ≡ drive.is_some_folder (node_at number (nodes items.now)) }
{
    match item_at(items, places, number) {
        Some(item) => is_folder_item(item),
        None => false,
    }
}

/// Whether the number is that of the root or of a folder.
fn is_folder(items: &[Item], places: &BTreeMap<u64, usize>, number: u64) -> bool
    requires { ArePlaces items.now places.now.entries }
    ensures { result ≡ drive.is_folder number (nodes items.now) }
{
    number == 1 || is_folder_there(items, places, number)
}

/// The name of an item and the number of its folder, if that is a folder.
fn step_above<'a>(
    items: &'a [Item],
    places: &BTreeMap<u64, usize>,
    number: u64,
) -> Option<(&'a Text, u64)>
    requires { ArePlaces items.now places.now.entries }
    ensures { option_map (λ step. (step.0.now, step.1)) result ≡ step_up (nodes items.now) number }
{
    let item = item_at(items, places, number)?;
    let parent = item.parent?;
    if is_folder(items, places, parent.0) {
        Some((&item.name, parent.0))
    } else {
        None
    }
}

/// Whether the folders above an item lead up to the root.
fn leads_up(items: &[Item], places: &BTreeMap<u64, usize>, number: u64) -> bool
    requires { ArePlaces items.now places.now.entries }
    ensures { result ≡ is_some (path_of (nodes items.now) number) }
{
    let mut at = number;
    for _ in items {
        if at == 1 {
            return true;
        }
        match step_above(items, places, at) {
            Some((_, parent)) => at = parent,
            None => return false,
        }
    }
    at == 1
}

/// The path of the names that a climb met.
fn path_down(mut names: Vec<Text>) -> Path
    ensures { result ≡ reverse names.items }
{
    names.reverse();
    Path::from_names(List::from_vec(names))
}

/// The path of an item, if its folders lead up to the root.
pub(crate) fn path_up(
    alloc: Global,
    items: &[Item],
    places: &BTreeMap<u64, usize>,
    number: u64,
) -> Result<Option<Path>, NoMemory>
    requires { ArePlaces items.now places.now.entries }
    ensures { IfOk result (λ path. path ≡ path_of (nodes items.now) number) }
{
    let mut names = Vec::new(alloc);
    let mut at = number;
    for _ in items {
        if at == 1 {
            return Ok(Some(path_down(names)));
        }
        match step_above(items, places, at) {
            Some((name, parent)) => {
                names.push(name.clone()?)?;
                at = parent;
            }
            None => return Ok(None),
        }
    }
    if at == 1 {
        Ok(Some(path_down(names)))
    } else {
        Ok(None)
    }
}

/// Whether an earlier sibling has the item's name but for case.
fn has_twin(
    alloc: Global,
    items: &[Item],
    firsts: &BTreeMap<Spot, u64>,
    item: &Item,
) -> Result<bool, NoMemory>
    requires rise { Rise (nodes items.now) }
    requires firsts { AreFirsts items.now firsts.now.entries }
    ensures { IfOk result (λ twin. twin ≡ drive.has_twin (nodes items.now) (item_node item.now)) }
{
    if item.id.0 == 1 {
        return Ok(false);
    }
    match item.parent {
        Some(parent) => match first_in(alloc, items, firsts, parent.0, &item.name)? {
            Some(first) => Ok(first < item.id.0),
            None => Ok(false),
        },
        None => Ok(false),
    }
}

fn misfits(
    alloc: Global,
    items: &[Item],
    places: &BTreeMap<u64, usize>,
    firsts: &BTreeMap<Spot, u64>,
    item: &Item,
) -> Result<bool, NoMemory>
    requires rise { Rise (nodes items.now) }
    requires places { ArePlaces items.now places.now.entries }
    requires firsts { AreFirsts items.now firsts.now.entries }
    ensures { IfOk result (λ bad. bad ≡ climb.misfits (nodes items.now) (item_node item.now)) }
{
    if !leads_up(items, places, item.id.0) {
        return Ok(true);
    }
    let twin = has_twin(alloc, items, firsts, item)?;
    Ok(twin)
}

fn first_misfit(
    alloc: Global,
    items: &[Item],
    places: &BTreeMap<u64, usize>,
) -> Result<Option<u64>, NoMemory>
    requires rise { Rise (nodes items.now) }
    requires places { ArePlaces items.now places.now.entries }
    ensures { IfOk result (λ first. first ≡ climb.first_misfit (nodes items.now)) }
{
    let firsts = firsts_of(alloc, items)?;
    for item in items {
        if misfits(alloc, items, places, &firsts, item)? {
            return Ok(Some(item.id.0));
        }
    }
    Ok(None)
}

/// The least number that does not fit where there is no root: its own, or that of an item before it.
fn first_without_root(items: &[Item]) -> u64
    requires rise { Rise (nodes items.now) }
    requires lost { pulled.has_root (nodes items.now) ≡ false }
    ensures { IsLeastBad (nodes items.now) result }
{
    match items.first() {
        Some(item) => item.id.0.min(1),
        None => 1,
    }
}

/// The least number that does not fit.
pub(crate) fn first_bad(alloc: Global, items: &[Item]) -> Result<Option<u64>, NoMemory>
    requires { Rise (nodes items.now) }
    ensures none { IfOk result (λ bad. bad ≡ None → AllFit (nodes items.now)) }
    ensures some { (number : ℕ) → IfOk result (λ bad. bad ≡ Some number → IsLeastBad (nodes items.now) number) }
{
    let places = places_of(alloc, items)?;
    if is_folder_there(items, &places, 1) {
        let first = first_misfit(alloc, items, &places)?;
        Ok(first)
    } else {
        Ok(Some(first_without_root(items)))
    }
}
