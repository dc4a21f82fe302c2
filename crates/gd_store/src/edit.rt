ghost use Rattle.std.specs.Prelude.{◌≡◌, ◌≢◌, ◌++◌, ◌<◌, [], ◌∷◌, map, nat_eq, true, false, Some, None, IfOk, OnErr};
ghost use Rattle.std.specs.List.{All};
ghost use Rattle.std.specs.Option.{option_map, option_to_list};
ghost use Rattle.std.specs.Vec.{vec_len, vec_capacity};
ghost use Rattle.gd_item.specs.Inventory.{changed, with_bytes, with_place, live_at, version_of};
ghost use Rattle.gd_item.specs.Moves.{is_taken_by_other};
ghost use Rattle.gd_item.specs.Nodes.{live_node, child_at, is_folder, path_of};
ghost use Rattle.gd_item.specs.Records.{parent_path_text};
ghost use Rattle.gd_item.specs.Refusals.{is_there};
ghost use Rattle.gd_item.specs.declared.live.LiveItem.{LiveItem};
ghost use Rattle.gd_store.specs.Recorded.{record_in, recorded_at, without_kind};

use crate::moving::moved_path;
use crate::record::{content_tag_of, folder_text, kind_of, length_of, parent_path_of, record_at};
use gd_index::Index;
use gd_item::{Item, ItemId, Kind, LiveItem, Version, ctag_of, etag_of};
use gd_names::{Bytes, NoMemory, Text};
use std::alloc::Global;

/// Keeps a version, if there is one. Takes no memory.
pub fn keep_version(replaced: &mut Vec<Version>, version: Option<Version>)
    requires { vec_len replaced.old < vec_capacity replaced.old }
    ensures { replaced.new.items ≡ replaced.old.items ++ option_to_list version }
{
    match version {
        None => {}
        Some(version) => replaced.push_reserved(version),
    }
}

/// Adds an item, and gives its record with the path of its folder. Where memory is wanting the item is taken out again.
pub fn push_and_get(alloc: Global, items: &mut Index, item: LiveItem) -> Result<Item, NoMemory>
    requires above { All (λ (x : LiveItem). x.number < item.number) items.old }
    requires fresh { All (λ (x : LiveItem). x.change ≢ item.change) items.old }
    requires free { child_at item.parent item.name (map live_node items.old) ≡ None }
    ensures ok { IfOk result (λ made. (recorded_at item.number true (items.old ++ item ∷ []) ≡ Some made) × (items.new ≡ items.old ++ item ∷ [])) }
    ensures kept { OnErr result (items.new ≡ items.old) }
{
    let number = item.number;
    items.push(item)?;
    match record_at(alloc, items, number, true) {
        Ok(Some(made)) => Ok(made),
        // The item was just added.
        Ok(None) => unreachable!(),
        Err(NoMemory) => {
            items.remove(number);
            Err(NoMemory)
        }
    }
}

/// The path of the folder of a file that gets other bytes.
fn written_path(
    alloc: Global,
    items: &Index,
    item: &LiveItem,
    change: u64,
    bytes: &Bytes,
) -> Result<Option<Text>, NoMemory>
    requires file { is_folder item.now.number (map live_node items.now) ≡ false }
    ensures { IfOk result (λ text. text ≡ option_map parent_path_text (path_of (map live_node (changed item.now.number (with_bytes change bytes.now) items.now)) item.now.parent)) }
{
    let text = parent_path_of(alloc, items, item.parent)?;
    Ok(text)
}

/// The record that a file gets by other bytes, but for what it is.
fn written_record(
    alloc: Global,
    items: &Index,
    item: &LiveItem,
    change: u64,
    bytes: &Bytes,
) -> Result<Item, NoMemory>
    requires file { is_folder item.now.number (map live_node items.now) ≡ false }
    ensures { IfOk result (λ made. made ≡ without_kind (record_in true (changed item.now.number (with_bytes change bytes.now) items.now) (with_bytes change bytes.now item.now))) }
{
    Ok(Item {
        id: ItemId(item.number),
        parent: Some(ItemId(item.parent)),
        parent_path: written_path(alloc, items, item, change, bytes)?,
        name: item.name.clone()?,
        size: bytes.as_slice().len() as u64,
        etag: etag_of(alloc, change)?,
        ctag: Some(ctag_of(alloc, change)?),
        kind: Kind::Bare,
    })
}

/// Gives a file new bytes, and gives its record with the path of its folder, and the version that stood in it.
pub fn overwrite_and_get(
    alloc: Global,
    items: &mut Index,
    number: u64,
    change: u64,
    bytes: Bytes,
) -> Result<(Item, Option<Version>), NoMemory>
    requires there { is_there number (map live_node items.old) ≡ true }
    requires file { is_folder number (map live_node items.old) ≡ false }
    requires fresh { All (λ (x : LiveItem). x.change ≢ change) items.old }
    ensures made { IfOk result (λ put. recorded_at number true (changed number (with_bytes change bytes) items.old) ≡ Some put.0) }
    ensures version { IfOk result (λ put. option_to_list put.1 ≡ version_of (live_at number items.old)) }
    ensures items { IfOk result (λ put. items.new ≡ changed number (with_bytes change bytes) items.old) }
    ensures kept { OnErr result (items.new ≡ items.old) }
{
    let Some(item) = items.get(number) else {
        // The file is there.
        unreachable!();
    };
    let mut made = written_record(alloc, items, item, change, &bytes)?;
    let version = items.overwrite(number, change, bytes)?;
    made.kind = kind_of(items, number);
    Ok((made, version))
}

/// The path of the folder of an item that is moved.
fn placed_path(
    alloc: Global,
    items: &Index,
    number: u64,
    change: u64,
    parent: u64,
    name: &Text,
) -> Result<Option<Text>, NoMemory>
    ensures { IfOk result (λ text. text ≡ option_map parent_path_text (path_of (map live_node (changed number (with_place change parent name.now) items.now)) parent)) }
{
    let path = moved_path(alloc, items, number, parent, name, parent)?;
    let text = folder_text(alloc, path)?;
    Ok(text)
}

/// The record that an item gets which is moved so, but for what it is.
fn placed_record(
    alloc: Global,
    items: &Index,
    item: &LiveItem,
    change: u64,
    parent: u64,
    name: &Text,
) -> Result<Item, NoMemory>
    ensures { IfOk result (λ made. made ≡ without_kind (record_in true (changed item.now.number (with_place change parent name.now) items.now) (with_place change parent name.now item.now))) }
{
    Ok(Item {
        id: ItemId(item.number),
        parent: Some(ItemId(parent)),
        parent_path: placed_path(alloc, items, item.number, change, parent, name)?,
        name: name.clone()?,
        size: length_of(&item.bytes),
        etag: etag_of(alloc, change)?,
        ctag: content_tag_of(alloc, item)?,
        kind: Kind::Bare,
    })
}

/// Moves an item, and gives its record with the path of its new folder.
pub fn place_and_get(
    alloc: Global,
    items: &mut Index,
    number: u64,
    change: u64,
    parent: u64,
    name: Text,
) -> Result<Item, NoMemory>
    requires there { is_there number (map live_node items.old) ≡ true }
    requires not_root { nat_eq number 1 ≡ false }
    requires fresh { All (λ (x : LiveItem). x.change ≢ change) items.old }
    requires free { is_taken_by_other number parent name items.old ≡ false }
    ensures ok { IfOk result (λ made. (recorded_at number true (changed number (with_place change parent name) items.old) ≡ Some made)
        × (items.new ≡ changed number (with_place change parent name) items.old)) }
    ensures kept { OnErr result (items.new ≡ items.old) }
{
    let Some(item) = items.get(number) else {
        // The item is there.
        unreachable!();
    };
    let mut made = placed_record(alloc, items, item, change, parent, &name)?;
    items.place(number, change, parent, name)?;
    made.kind = kind_of(items, number);
    Ok(made)
}
