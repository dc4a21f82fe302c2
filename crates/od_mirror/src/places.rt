// Ordered maps over a list of items: where the first item of each number stands, and the first of each name in a folder.
ghost use Rattle.std.specs.Prelude.{◌≡◌, ℕ, List, Some, None, cond, length, nat_eq, IfOk, OnOk};
ghost use Rattle.std.specs.BTreeMap.{is_at};
ghost use Rattle.std.specs.Map.{lookup};
ghost use Rattle.std.specs.Option.{option_copied, option_map};
ghost use Rattle.gd_names.specs.Caseless.{lower_case};
ghost use Rattle.gd_item.specs.Nodes.{item_node, node_at};
ghost use Rattle.od_mirror.specs.Places.{ArePlaces, AreFirsts, Puts, first_at, is_at_spot, spot_cmp};
ghost use Rattle.od_mirror.specs.Pulled.{nodes};

use gd_item::Item;
use gd_names::{NoMemory, Text};
use std::alloc::Global;
use std::collections::BTreeMap;

/// A folder and a name in it, in lower case.
pub(crate) type Spot = (u64, Text);

pub(crate) fn places_of(alloc: Global, items: &[Item]) -> Result<BTreeMap<u64, usize>, NoMemory>
    ensures { IfOk result (λ places. ArePlaces items.now places.entries) }
{
    let mut places = BTreeMap::new(alloc);
    let mut at = items.len();
    while at > 0 {
        at -= 1;
        places.insert(items[at].id.0, at)?;
    }
    Ok(places)
}

/// The item of a number, the first of them.
pub(crate) fn item_at<'a>(
    items: &'a [Item],
    places: &BTreeMap<u64, usize>,
    number: u64,
) -> Option<&'a Item>
    requires { ArePlaces items.now places.now.entries }
    ensures { option_map item_node (option_copied result) ≡ node_at number (nodes items.now) }
{
    match places.get(&number) {
        Some(at) => items.get(*at),
        None => None,
    }
}

fn make_spot(alloc: Global, parent: u64, name: &Text) -> Result<Spot, NoMemory>
    ensures { IfOk result (λ spot. spot ≡ (parent, lower_case name.now)) }
{
    let lower = name.as_str().to_ascii_lowercase(alloc)?;
    Ok((parent, Text::from_string(lower)))
}

fn put_number(firsts: &mut BTreeMap<Spot, u64>, spot: Spot, number: u64) -> Result<(), NoMemory>
    ensures { OnOk result (Puts spot number firsts.old.entries firsts.new.entries) }
{
    firsts.insert(spot, number)?;
    Ok(())
}

/// Puts an item in front of those that the map has.
fn put_first(alloc: Global, firsts: &mut BTreeMap<Spot, u64>, item: &Item) -> Result<(), NoMemory>
    ensures { OnOk result ((spot : ℕ × List ℕ) → lookup (is_at (spot_cmp spot)) firsts.new.entries
        ≡ cond (is_at_spot spot (item_node item.now)) (Some item.now.id.0) (lookup (is_at (spot_cmp spot)) firsts.old.entries)) }
{
    if item.id.0 == 1 {
        return Ok(());
    }
    match item.parent {
        Some(parent) => {
            let spot = make_spot(alloc, parent.0, &item.name)?;
            put_number(firsts, spot, item.id.0)?;
            Ok(())
        }
        None => Ok(()),
    }
}

pub(crate) fn firsts_of(alloc: Global, items: &[Item]) -> Result<BTreeMap<Spot, u64>, NoMemory>
    ensures { IfOk result (λ firsts. AreFirsts items.now firsts.entries) }
{
    let mut firsts = BTreeMap::new(alloc);
    let mut at = items.len();
    while at > 0 {
        at -= 1;
        put_first(alloc, &mut firsts, &items[at])?;
    }
    Ok(firsts)
}

/// The number of the first item that has a name in a folder, but for case.
pub(crate) fn first_in(
    alloc: Global,
    items: &[Item],
    firsts: &BTreeMap<Spot, u64>,
    parent: u64,
    name: &Text,
) -> Result<Option<u64>, NoMemory>
    requires { AreFirsts items.now firsts.now.entries }
    ensures { IfOk result (λ first. first ≡ first_at (parent, lower_case name.now) (nodes items.now)) }
{
    let _count = items.len();
    let spot = make_spot(alloc, parent, name)?;
    match firsts.get(&spot) {
        Some(first) => Ok(Some(*first)),
        None => Ok(None),
    }
}
