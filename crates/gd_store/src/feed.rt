ghost use Rattle.std.specs.Prelude.{◌≡◌, ◌-◌, ◌^◌, ◌<◌, ◌≤◌, cond, map, take, drop, filter, nat_lt, length, slice_index, Some, OnOk, IfOk};
ghost use Rattle.std.specs.List.{All, AllPairs};
ghost use Rattle.std.specs.Map.{keys_of};
ghost use Rattle.gd_item.specs.Inventory.{live_at};
ghost use Rattle.gd_item.specs.Records.{in_change_order_from, root_change, first_of, last_of};
ghost use Rattle.gd_item.specs.declared.live.Tombstone.{Tombstone};
ghost use Rattle.gd_store.specs.Recorded.{live_entry, stone_entry, stones_past};

use crate::record::{make_deleted_record, make_record, make_root_record};
use gd_index::Index;
use gd_item::{Item, LiveItem, Tombstone};
use gd_names::{List, NoMemory};
use std::alloc::Global;
use std::collections::BTreeMap;

/// Puts the root's record among the changes, if it is past the position.
pub fn put_root(
    alloc: Global,
    changes: &mut BTreeMap<u64, Item>,
    items: &Index,
    position: u64,
) -> Result<(), NoMemory>
    ensures { OnOk result (changes.new.entries ≡ in_change_order_from changes.old.entries (root_change position items.now)) }
{
    if position == 0 {
        let root = make_root_record(alloc, items)?;
        changes.insert(1, root)?;
    }
    Ok(())
}

/// Puts the records of these items among the changes.
pub fn put_items(
    alloc: Global,
    changes: &mut BTreeMap<u64, Item>,
    items: &Index,
    changed: &[&LiveItem],
) -> Result<(), NoMemory>
    requires { All (λ item. live_at item.now.number items.now ≡ Some item.now) changed.now }
    ensures { OnOk result (changes.new.entries ≡ in_change_order_from changes.old.entries (map (λ item. live_entry items.now item.now) changed.now)) }
{
    for item in changed {
        let record = make_record(alloc, items, *item)?;
        changes.insert(item.change, record)?;
    }
    Ok(())
}

/// Puts the records of these removed items among the changes.
pub fn put_stones(
    alloc: Global,
    changes: &mut BTreeMap<u64, Item>,
    stones: &[Tombstone],
) -> Result<(), NoMemory>
    ensures { OnOk result (changes.new.entries ≡ in_change_order_from changes.old.entries (map stone_entry stones.now)) }
{
    for stone in stones {
        let record = make_deleted_record(alloc, stone)?;
        changes.insert(stone.change, record)?;
    }
    Ok(())
}

/// The first removed items past both numbers, at most so many, of some in order of change.
pub fn first_stones(
    stones: &[Tombstone],
    position: u64,
    removed_after: u64,
    most: usize,
) -> &[Tombstone]
    requires { AllPairs (λ (x y : Tombstone). x.change < y.change) stones.now }
    ensures { result.now ≡ take most (stones_past position removed_after stones.now) }
{
    let last = position.max(removed_after);
    let start = stones.partition_point(|stone| stone.change <= last);
    let (_, past) = stones.split_at(start);
    let (first, _) = past.split_at(past.len().min(most));
    first
}

/// How many of some removed items in order of change stand up to a floor.
fn count_expired(stones: &[Tombstone], floor: u64) -> usize
    requires { AllPairs (λ (x y : Tombstone). x.change < y.change) stones.now }
    ensures within { result ≤ length stones.now }
    ensures rest { drop result stones.now ≡ filter (λ (stone : Tombstone). nat_lt floor stone.change) stones.now }
{
    stones.partition_point(|stone| stone.change <= floor)
}

/// Leaves out the first removed items, and moves the others at once.
fn drop_first(stones: &mut Vec<Tombstone>, count: usize)
    requires { count ≤ length stones.old.items }
    ensures { stones.new.items ≡ drop count stones.old.items }
{
    if count == 0 {
        return;
    }
    let rest = stones.len() - count;
    stones.copy_within(count.., 0);
    stones.truncate(rest);
}

/// Leaves out the removed items up to a floor, of some in order of change. Takes no memory.
pub fn drop_stones(stones: &mut Vec<Tombstone>, floor: u64)
    requires { AllPairs (λ (x y : Tombstone). x.change < y.change) stones.old.items }
    ensures { stones.new.items ≡ filter (λ stone. nat_lt floor stone.change) stones.old.items }
{
    let count = count_expired(stones.as_slice(), floor);
    drop_first(stones, count);
}

/// The last of the first numbers, at most so many, where more follow.
fn last_number(numbers: &[u64], most: u64) -> Option<u64>
    requires { 0 < most }
    ensures last { result ≡ cond (nat_lt most (length numbers.now)) (Some (slice_index numbers.now (most - 1))) None }
    ensures whole { most ≡ 2 ^ 64 - 1 → result ≡ None }
{
    if most < numbers.len() as u64 {
        Some(numbers[(most - 1) as usize])
    } else {
        None
    }
}

/// The first records, at most so many.
fn first_items(
    alloc: Global,
    changes: BTreeMap<u64, Item>,
    most: u64,
) -> Result<List<Item>, NoMemory>
    ensures { IfOk result (λ items. items ≡ first_of most changes.entries) }
{
    let mut items: Vec<Item> = changes.into_values().collect(alloc)?;
    items.truncate(most as usize);
    Ok(List::from_vec(items))
}

/// The numbers of all changes, in order.
fn all_numbers(alloc: Global, changes: &BTreeMap<u64, Item>) -> Result<Vec<u64>, NoMemory>
    ensures { IfOk result (λ numbers. numbers.items ≡ keys_of changes.now.entries) }
{
    let numbers: Vec<u64> = changes.keys().copied().collect(alloc)?;
    Ok(numbers)
}

/// The first changes, at most so many, and the change number of the last of them where more follow.
pub fn first_changes(
    alloc: Global,
    changes: BTreeMap<u64, Item>,
    most: u64,
) -> Result<(List<Item>, Option<u64>), NoMemory>
    requires { 0 < most }
    ensures found { IfOk result (λ found. (found.0 ≡ first_of most changes.entries) × (found.1 ≡ last_of most changes.entries)) }
    ensures whole { IfOk result (λ found. most ≡ 2 ^ 64 - 1 → found.1 ≡ None) }
{
    let numbers = all_numbers(alloc, &changes)?;
    let last = last_number(numbers.as_slice(), most);
    let items = first_items(alloc, changes, most)?;
    Ok((items, last))
}
