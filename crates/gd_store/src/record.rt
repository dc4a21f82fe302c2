ghost use Rattle.std.specs.Prelude.{◌≡◌, map, Some, IfOk};
ghost use Rattle.std.specs.Option.{option_map};
ghost use Rattle.gd_item.specs.Inventory.{live_at};
ghost use Rattle.gd_item.specs.Records.{content_tag, kind_at, size_of, record_of as record_of_item, root_record, deleted_record, parent_path_text};
ghost use Rattle.gd_item.specs.Nodes.{live_node, path_of};
ghost use Rattle.gd_item.specs.declared.live.LiveItem.{LiveItem};
ghost use Rattle.gd_store.specs.Recorded.{record_in, recorded_at};

use crate::path::path_to;
use gd_index::Index;
use gd_item::{Item, ItemId, Kind, LiveItem, Tag, Tombstone, ctag_of, etag_of};
use gd_names::{Bytes, NoMemory, Path, Text};
use std::alloc::Global;

/// The length of a file, and 0 for a folder.
pub fn length_of(bytes: &Option<Bytes>) -> u64
    ensures { result ≡ size_of bytes.now }
{
    match bytes {
        None => 0,
        Some(bytes) => bytes.as_slice().len() as u64,
    }
}

/// The `cTag` of a file, and none for a folder.
pub fn content_tag_of(alloc: Global, item: &LiveItem) -> Result<Option<Tag>, NoMemory>
    ensures { IfOk result (λ tag. tag ≡ content_tag item.now.bytes item.now.content) }
{
    match &item.bytes {
        None => Ok(None),
        Some(_) => {
            let tag = ctag_of(alloc, item.content)?;
            Ok(Some(tag))
        }
    }
}

/// What the item of a number is: a folder with so many children, or a file with the digest that the index has of it.
pub fn kind_of(items: &Index, number: u64) -> Kind
    ensures { (item : LiveItem) → live_at number items.now ≡ Some item → result ≡ kind_at item.bytes number items.now }
{
    match items.digest(number) {
        Some(digest) => Kind::File { digest },
        None => Kind::Folder {
            child_count: items.child_count(number),
        },
    }
}

/// The record of a living item, as the feed has it.
pub fn make_record(alloc: Global, items: &Index, item: &LiveItem) -> Result<Item, NoMemory>
    requires { live_at item.now.number items.now ≡ Some item.now }
    ensures { IfOk result (λ made. made ≡ record_of_item items.now item.now) }
{
    Ok(Item {
        id: ItemId(item.number),
        parent: Some(ItemId(item.parent)),
        parent_path: None,
        name: item.name.clone()?,
        size: length_of(&item.bytes),
        etag: etag_of(alloc, item.change)?,
        ctag: content_tag_of(alloc, item)?,
        kind: kind_of(items, item.number),
    })
}

/// The record of the root.
pub fn make_root_record(alloc: Global, items: &Index) -> Result<Item, NoMemory>
    ensures { IfOk result (λ made. made ≡ root_record items.now) }
{
    Ok(Item {
        id: ItemId(1),
        parent: None,
        parent_path: None,
        name: Text::from_str(alloc, "root")?,
        size: 0,
        etag: etag_of(alloc, 1)?,
        ctag: None,
        kind: Kind::Folder {
            child_count: items.child_count(1),
        },
    })
}

/// The record of a removed item.
pub fn make_deleted_record(alloc: Global, stone: &Tombstone) -> Result<Item, NoMemory>
    ensures { IfOk result (λ made. made ≡ deleted_record stone.now) }
{
    Ok(Item {
        id: ItemId(stone.number),
        parent: Some(ItemId(stone.parent)),
        parent_path: None,
        name: Text::from_str(alloc, "")?,
        size: 0,
        etag: etag_of(alloc, stone.change)?,
        ctag: None,
        kind: Kind::Deleted,
    })
}

/// The text of the path of a folder, as the items in it have it.
fn drive_path(alloc: Global, path: &Path) -> Result<Text, NoMemory>
    ensures { IfOk result (λ text. text ≡ parent_path_text path.now) }
{
    if path.is_root() {
        return Text::from_str(alloc, "/drive/root:");
    }
    let names = path.write(alloc)?;
    let mut text = String::from_str(alloc, "/drive/root:")?;
    text.push_str(names.as_str())?;
    Ok(Text::from_string(text))
}

/// The text of the path of a folder, if there is one.
pub fn folder_text(alloc: Global, path: Option<Path>) -> Result<Option<Text>, NoMemory>
    ensures { IfOk result (λ text. text ≡ option_map parent_path_text path) }
{
    match path {
        None => Ok(None),
        Some(path) => {
            let text = drive_path(alloc, &path)?;
            Ok(Some(text))
        }
    }
}

/// The text of the path of the folder of a number, if its folders lead up to the root.
pub fn parent_path_of(alloc: Global, items: &Index, parent: u64) -> Result<Option<Text>, NoMemory>
    ensures { IfOk result (λ text. text ≡ option_map parent_path_text (path_of (map live_node items.now) parent)) }
{
    let path = path_to(alloc, items, parent)?;
    folder_text(alloc, path)
}

/// The record of a living item, with the path of its folder if it is asked for.
pub fn record_of(
    alloc: Global,
    items: &Index,
    item: &LiveItem,
    with_path: bool,
) -> Result<Item, NoMemory>
    requires { live_at item.now.number items.now ≡ Some item.now }
    ensures { IfOk result (λ made. made ≡ record_in with_path items.now item.now) }
{
    let mut made = make_record(alloc, items, item)?;
    if with_path {
        made.parent_path = parent_path_of(alloc, items, item.parent)?;
    }
    Ok(made)
}

/// The record of a number, if it is that of the root or of a living item.
pub fn record_at(
    alloc: Global,
    items: &Index,
    number: u64,
    with_path: bool,
) -> Result<Option<Item>, NoMemory>
    ensures { IfOk result (λ found. found ≡ recorded_at number with_path items.now) }
{
    if number == 1 {
        let root = make_root_record(alloc, items)?;
        return Ok(Some(root));
    }
    match items.get(number) {
        None => Ok(None),
        Some(item) => {
            let made = record_of(alloc, items, item, with_path)?;
            Ok(Some(made))
        }
    }
}
