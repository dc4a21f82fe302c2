// What is done to the three maps together.
ghost use Rattle.std.specs.Prelude.{◌≡◌, ◌≢◌, ◌<◌, ℕ, List, [], ◌∷◌, ◌++◌, None, Some, not, map, filter, nat_eq, option_to_list, OnOk, IfOk, OnErr};
ghost use Rattle.std.specs.List.{All, AllByRecursion};
ghost use Rattle.std.specs.Ordering.{nat_cmp};
ghost use Rattle.gd_names.specs.Caseless.{lower_case};
ghost use Rattle.gd_item.specs.Inventory.{live_at, changed, with_place, with_bytes, version_in, version_of};
ghost use Rattle.gd_index.specs.declared.row.Row.{Row};
ghost use Rattle.gd_index.specs.Indexed.{IsIndexed, IsRow, Puts, Same, Moves, at, spot_cmp, spot_of, items_in, placed_row, filled_row, rewritten};

use crate::row::{Row, digest_of_bytes};
use crate::spot::Spot;
use gd_item::{LiveItem, Version, digest_of};
use gd_names::{Bytes, NoMemory, Text};
use std::collections::BTreeMap;

/// Puts the number of an item at both its keys.
fn add_keys(
    names: &mut BTreeMap<Spot, u64>,
    changes: &mut BTreeMap<u64, u64>,
    spot: Spot,
    change: u64,
    number: u64,
) -> Result<(), NoMemory>
    requires fresh { at nat_cmp changes.old.entries change ≡ None }
    ensures names { OnOk result (Puts spot_cmp spot (Some number) names.old.entries names.new.entries) }
    ensures changes { OnOk result (Puts nat_cmp change (Some number) changes.old.entries changes.new.entries) }
    ensures kept_names { OnErr result (Same spot_cmp names.old.entries names.new.entries) }
    ensures kept_changes { OnErr result (Same nat_cmp changes.old.entries changes.new.entries) }
{
    changes.insert(change, number)?;
    match names.insert(spot, number) {
        Ok(_) => Ok(()),
        Err(_) => {
            changes.remove(&change);
            Err(NoMemory)
        }
    }
}

/// Takes out what stands at two keys.
fn drop_keys(
    names: &mut BTreeMap<Spot, u64>,
    changes: &mut BTreeMap<u64, u64>,
    spot: &Spot,
    change: u64,
)
    ensures names { Puts spot_cmp spot.now None names.old.entries names.new.entries }
    ensures changes { Puts nat_cmp change None changes.old.entries changes.new.entries }
{
    names.remove(spot);
    changes.remove(&change);
}

/// Puts an item behind the others.
pub fn insert_row(
    rows: &mut BTreeMap<u64, Row>,
    names: &mut BTreeMap<Spot, u64>,
    changes: &mut BTreeMap<u64, u64>,
    item: LiveItem,
    key: Spot,
    spot: Spot,
) -> Result<(), NoMemory>
    requires indexed { IsIndexed rows.old.entries names.old.entries changes.old.entries }
    requires above { All (λ (x : LiveItem). x.number < item.number) (items_in rows.old.entries) }
    requires fresh { at nat_cmp changes.old.entries item.change ≡ None }
    requires free { at spot_cmp names.old.entries (spot_of item) ≡ None }
    requires key { key ≡ spot_of item }
    requires spot { spot ≡ spot_of item }
    ensures indexed { IsIndexed rows.new.entries names.new.entries changes.new.entries }
    ensures ok { OnOk result (items_in rows.new.entries ≡ items_in rows.old.entries ++ item ∷ []) }
    ensures kept { OnErr result (rows.new.entries ≡ rows.old.entries) }
{
    let number = item.number;
    let change = item.change;
    let digest = digest_of_bytes(&item.bytes);
    add_keys(names, changes, key, change, number)?;
    let row = Row { item, spot, digest };
    match rows.insert(number, row) {
        Ok(_) => Ok(()),
        Err(failed) => {
            let (_, row) = failed.value;
            drop_keys(names, changes, &row.spot, change);
            Err(NoMemory)
        }
    }
}

/// Takes out the item of a number.
pub fn remove_row(
    rows: &mut BTreeMap<u64, Row>,
    names: &mut BTreeMap<Spot, u64>,
    changes: &mut BTreeMap<u64, u64>,
    number: u64,
) -> Option<LiveItem>
    requires indexed { IsIndexed rows.old.entries names.old.entries changes.old.entries }
    ensures indexed { IsIndexed rows.new.entries names.new.entries changes.new.entries }
    ensures item { result ≡ live_at number (items_in rows.old.entries) }
    ensures others { items_in rows.new.entries ≡ filter (λ (item : LiveItem). not (nat_eq item.number number)) (items_in rows.old.entries) }
{
    match rows.remove(&number) {
        None => None,
        Some(row) => {
            let Row {
                item,
                spot,
                digest: _,
            } = row;
            drop_keys(names, changes, &spot, item.change);
            Some(item)
        }
    }
}

/// Puts the number of an item at two new keys, and takes it from its old ones.
fn change_keys(
    names: &mut BTreeMap<Spot, u64>,
    changes: &mut BTreeMap<u64, u64>,
    from: &Spot,
    was: u64,
    to: Spot,
    change: u64,
    number: u64,
) -> Result<(), NoMemory>
    requires fresh { at nat_cmp changes.old.entries change ≡ None }
    requires stood { at nat_cmp changes.old.entries was ≡ Some number }
    ensures names { OnOk result (Moves spot_cmp number from.now to names.old.entries names.new.entries) }
    ensures changes { OnOk result (Moves nat_cmp number was change changes.old.entries changes.new.entries) }
    ensures kept_names { OnErr result (Same spot_cmp names.old.entries names.new.entries) }
    ensures kept_changes { OnErr result (Same nat_cmp changes.old.entries changes.new.entries) }
{
    let stays = *from == to;
    add_keys(names, changes, to, change, number)?;
    changes.remove(&was);
    if stays {
        return Ok(());
    }
    names.remove(from);
    Ok(())
}

/// Gives the row of a number another place.
fn place_row(rows: &mut BTreeMap<u64, Row>, number: u64, change: u64, name: Text, spot: Spot)
    requires { spot.1 ≡ lower_case name }
    ensures rows { rows.new.entries ≡ rewritten number (placed_row change spot.0 name) rows.old.entries }
    ensures row { (row : Row) → at nat_cmp rows.old.entries number ≡ Some row
        → Puts nat_cmp number (Some (placed_row change spot.0 name row)) rows.old.entries rows.new.entries }
{
    match rows.get_mut(&number) {
        None => {}
        Some(row) => {
            row.item.parent = spot.0;
            row.item.name = name;
            row.item.change = change;
            row.spot = spot;
        }
    }
}

/// Gives the item of a number another folder and another name.
pub fn move_row(
    rows: &mut BTreeMap<u64, Row>,
    names: &mut BTreeMap<Spot, u64>,
    changes: &mut BTreeMap<u64, u64>,
    number: u64,
    change: u64,
    name: Text,
    key: Spot,
    spot: Spot,
) -> Result<(), NoMemory>
    requires indexed { IsIndexed rows.old.entries names.old.entries changes.old.entries }
    requires fresh { at nat_cmp changes.old.entries change ≡ None }
    requires free { (n : ℕ) → at spot_cmp names.old.entries spot ≡ Some n → n ≡ number }
    requires key { key ≡ spot }
    requires spot { spot.1 ≡ lower_case name }
    ensures indexed { IsIndexed rows.new.entries names.new.entries changes.new.entries }
    ensures ok { OnOk result (items_in rows.new.entries ≡ changed number (with_place change spot.0 name) (items_in rows.old.entries)) }
    ensures kept { OnErr result (rows.new.entries ≡ rows.old.entries) }
{
    let Some(row) = rows.get(&number) else {
        return Ok(());
    };
    change_keys(
        names,
        changes,
        &row.spot,
        row.item.change,
        key,
        change,
        number,
    )?;
    place_row(rows, number, change, name, spot);
    Ok(())
}

/// Gives a row other bytes, and takes out the version that stood in it.
fn refill(row: &mut Row, change: u64, bytes: Bytes) -> Option<Version>
    ensures row { row.new ≡ filled_row change bytes row.old }
    ensures version { option_to_list result ≡ version_in row.old.item row.old.item.bytes }
{
    row.digest = Some(digest_of(bytes.as_slice()));
    let content = row.item.content;
    let stood = row.item.bytes.replace(bytes);
    row.item.change = change;
    row.item.content = change;
    match stood {
        None => None,
        Some(bytes) => Some(Version {
            item: row.item.number,
            content,
            bytes,
        }),
    }
}

/// Gives the row of a number other bytes, and takes out the version that stood in it.
fn refill_row(
    rows: &mut BTreeMap<u64, Row>,
    number: u64,
    change: u64,
    bytes: Bytes,
) -> Option<Version>
    requires lined { AllByRecursion IsRow rows.old.entries }
    ensures rows { rows.new.entries ≡ rewritten number (filled_row change bytes) rows.old.entries }
    ensures row { (row : Row) → at nat_cmp rows.old.entries number ≡ Some row
        → Puts nat_cmp number (Some (filled_row change bytes row)) rows.old.entries rows.new.entries }
    ensures version { option_to_list result ≡ version_of (live_at number (items_in rows.old.entries)) }
{
    match rows.get_mut(&number) {
        None => None,
        Some(row) => refill(row, change, bytes),
    }
}

/// Gives other bytes to the item of a number, and takes out the version that stood in it.
pub fn fill_row(
    rows: &mut BTreeMap<u64, Row>,
    changes: &mut BTreeMap<u64, u64>,
    number: u64,
    change: u64,
    bytes: Bytes,
) -> Result<Option<Version>, NoMemory>
    requires lined { AllByRecursion IsRow rows.old.entries }
    requires fresh { at nat_cmp changes.old.entries change ≡ None }
    requires stood { (row : Row) → at nat_cmp rows.old.entries number ≡ Some row → at nat_cmp changes.old.entries row.item.change ≡ Some number }
    ensures rows { OnOk result (rows.new.entries ≡ rewritten number (filled_row change bytes) rows.old.entries) }
    ensures row { OnOk result ((row : Row) → at nat_cmp rows.old.entries number ≡ Some row
        → Puts nat_cmp number (Some (filled_row change bytes row)) rows.old.entries rows.new.entries
        × Moves nat_cmp number row.item.change change changes.old.entries changes.new.entries) }
    ensures none { OnOk result (at nat_cmp rows.old.entries number ≡ None → changes.new.entries ≡ changes.old.entries) }
    ensures version { IfOk result (λ version. option_to_list version ≡ version_of (live_at number (items_in rows.old.entries))) }
    ensures kept_rows { OnErr result (rows.new.entries ≡ rows.old.entries) }
    ensures kept_changes { OnErr result (Same nat_cmp changes.old.entries changes.new.entries) }
{
    let Some(row) = rows.get(&number) else {
        return Ok(None);
    };
    let was = row.item.change;
    changes.insert(change, number)?;
    changes.remove(&was);
    let version = refill_row(rows, number, change, bytes);
    Ok(version)
}
