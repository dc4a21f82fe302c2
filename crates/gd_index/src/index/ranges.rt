ghost use Rattle.std.specs.Prelude.{◌≡◌, ◌++◌, [], List, map, take, IfOk, OnOk};
ghost use Rattle.std.specs.Map.{values_of};
ghost use Rattle.std.specs.Option.{option_copied, option_map};
ghost use Rattle.std.specs.declared.ops.Bound.{Bound};
ghost use Rattle.std.specs.BTreeMap.{IsOrdered};
ghost use Rattle.std.specs.BTreeMap.Range.{entries_between};
ghost use Rattle.std.specs.Ordering.{nat_cmp};
ghost use Rattle.gd_names.specs.Caseless.{lower_case};
ghost use Rattle.gd_item.specs.Records.{child_count};
ghost use Rattle.gd_item.specs.Children.{children_past};
ghost use Rattle.gd_item.specs.declared.live.LiveItem.{LiveItem};
ghost use Rattle.gd_index.specs.Dated.{changed_past};
ghost use Rattle.gd_index.specs.Indexed.{spot_cmp, at, item_and, items_at, children_start, while_in};

use super::Index;
use crate::counts::count_of;
use crate::row::Row;
use crate::spot::{Spot, make_spot};
use gd_item::LiveItem;
use gd_names::{NoMemory, Text};
use std::alloc::Global;
use std::collections::BTreeMap;
use std::ops::Bound;

impl Index {
    /// The first items past a change number, in order of change.
    pub fn changed_after(&self, position: u64, most: usize) -> Result<Vec<&LiveItem>, NoMemory>
        ensures { IfOk result (λ found. map (λ item. item.now) found.items ≡ take most (changed_past position self.now)) }
    {
        let numbers = numbers_after(self.alloc, &self.changes, position, most)?;
        let items = items_of(self.alloc, &self.rows, numbers.as_slice())?;
        Ok(items)
    }

    /// How many items stand in a folder.
    pub fn child_count(&self, parent: u64) -> u64
        ensures { result ≡ child_count parent self.now }
    {
        count_of(&self.counts, parent)
    }

    /// The first children of a folder whose names come after another one, in order of their names in lower case.
    pub fn children(
        &self,
        parent: u64,
        earlier: Option<&Text>,
        most: usize,
    ) -> Result<Vec<&LiveItem>, NoMemory>
        ensures { IfOk result (λ found. map (λ item. item.now) found.items ≡ take most (children_past parent (option_copied earlier.entry) self.now)) }
    {
        let start = start_of(self.alloc, parent, earlier)?;
        let numbers = numbers_from(self.alloc, &self.names, parent, start, most)?;
        let items = items_of(self.alloc, &self.rows, numbers.as_slice())?;
        Ok(items)
    }
}

/// The numbers past a change number, in order of change.
fn numbers_after(
    alloc: Global,
    changes: &BTreeMap<u64, u64>,
    position: u64,
    most: usize,
) -> Result<Vec<u64>, NoMemory>
    ensures numbers { IfOk result (λ numbers. numbers.items ≡ take most (values_of (entries_between nat_cmp (Bound.Excluded position) Bound.Unbounded changes.now.entries))) }
    ensures ordered { OnOk result (IsOrdered nat_cmp changes.now) }
{
    let range = changes.range((Bound::Excluded(position), Bound::Unbounded));
    let mut numbers = Vec::new(alloc);
    for (_, number) in range {
        if numbers.len() == most {
            return Ok(numbers);
        }
        numbers.push(*number)?;
    }
    Ok(numbers)
}

/// The numbers of a folder's children from a spot on, in order of their spots.
fn numbers_from(
    alloc: Global,
    names: &BTreeMap<Spot, u64>,
    parent: u64,
    start: Bound<Spot>,
    most: usize,
) -> Result<Vec<u64>, NoMemory>
    ensures numbers { IfOk result (λ numbers. numbers.items ≡ take most (values_of (while_in parent (entries_between spot_cmp start Bound.Unbounded names.now.entries)))) }
    ensures ordered { OnOk result (IsOrdered spot_cmp names.now) }
{
    let range = names.range((start, Bound::Unbounded));
    let mut numbers = Vec::new(alloc);
    for (spot, number) in range {
        if spot.0 != parent || numbers.len() == most {
            return Ok(numbers);
        }
        numbers.push(*number)?;
    }
    Ok(numbers)
}

/// The first spot of a folder.
fn first_spot(alloc: Global, parent: u64) -> Spot
    ensures { result ≡ (parent, []) }
{
    (parent, Text::from_string(String::new(alloc)))
}

/// Where the names of a folder begin that come after another one.
fn start_of(alloc: Global, parent: u64, earlier: Option<&Text>) -> Result<Bound<Spot>, NoMemory>
    ensures { IfOk result (λ start. start ≡ children_start parent (option_copied earlier.entry)) }
{
    match earlier {
        None => Ok(Bound::Included(first_spot(alloc, parent))),
        Some(name) => {
            let spot = make_spot(alloc, parent, name)?;
            Ok(Bound::Excluded(spot))
        }
    }
}

/// Puts the item of a number behind the others, if there is one.
fn push_item<'a>(
    found: &mut Vec<&'a LiveItem>,
    rows: &'a BTreeMap<u64, Row>,
    number: u64,
) -> Result<(), NoMemory>
    ensures { OnOk result (map (λ item. item.now) found.new.items ≡ map (λ item. item.now) found.old.items ++ item_and (at nat_cmp rows.now.entries number) []) }
{
    match rows.get(&number) {
        None => Ok(()),
        Some(row) => {
            found.push(&row.item)?;
            Ok(())
        }
    }
}

/// The items of these numbers, which all have one.
fn items_of<'a>(
    alloc: Global,
    rows: &'a BTreeMap<u64, Row>,
    numbers: &[u64],
) -> Result<Vec<&'a LiveItem>, NoMemory>
    ensures { IfOk result (λ found. map (λ item. item.now) found.items ≡ items_at rows.now.entries numbers.now) }
{
    let mut found = Vec::new(alloc);
    for number in numbers {
        push_item(&mut found, rows, *number)?;
    }
    Ok(found)
}
