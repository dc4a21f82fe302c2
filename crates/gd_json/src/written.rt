//! Writing an item.
ghost use Rattle.std.specs.Prelude.{◌≡◌, ◌<◌, ◌^◌, [], Some, codes, length, IfOk, OnOk, option_map};
ghost use Rattle.gd_item.specs.declared.id.ItemId.{ItemId};
ghost use Rattle.hex.specs.Hex.{IsBytes};
ghost use Rattle.serde_json.specs.Data.{put, string};
ghost use Rattle.serde_json.specs.View.{view, members_view};
ghost use Rattle.serde_json.specs.Written.{compact_text};
ghost use Rattle.gd_json.specs.Bodies.{JsonBody};
ghost use Rattle.gd_json.specs.Writing.{put_optional};
ghost use Rattle.gd_json.specs.Items.{item_at, digest_text, id_data, parent_data, reference_data, kind_name, kind_data, root_data, common_members, tag_data, living_members, item_data, IsKnownKind, IsKnown, IsWritable};

use crate::member::{empty, only, put_optional_text, put_text, put_value, text_value};
use crate::number::id_text;
use crate::text::print;
use gd_item::{Digest, Item, ItemId, Kind, Tag};
use gd_names::{Bytes, NoMemory, Text};
use serde_json::{Map, Value};
use std::alloc::Global;

pub fn put_id(alloc: Global, map: &mut Map<String, Value>, id: ItemId) -> Result<(), NoMemory>
    ensures { OnOk result (members_view map.new.entries ≡ put (codes "id") (id_data id) (members_view map.old.entries)) }
{
    let text = id_text(alloc, id)?;
    put_text(alloc, map, "id", text.as_str())
}

fn parent_value(alloc: Global, id: ItemId, path: &Option<Text>) -> Result<Value, NoMemory>
    ensures { IfOk result (λ v. view v ≡ parent_data id path.now) }
{
    let mut map = Map::new(alloc);
    put_text(alloc, &mut map, "driveId", "gd1")?;
    put_id(alloc, &mut map, id)?;
    put_optional_text(alloc, &mut map, "path", path)?;
    Ok(Value::Object(map))
}

fn put_parent(
    alloc: Global,
    map: &mut Map<String, Value>,
    parent: Option<ItemId>,
    path: &Option<Text>,
) -> Result<(), NoMemory>
    ensures { OnOk result (members_view map.new.entries ≡ put_optional (codes "parentReference") (reference_data parent path.now) (members_view map.old.entries)) }
{
    match parent {
        None => Ok(()),
        Some(id) => {
            let value = parent_value(alloc, id, path)?;
            put_value(alloc, map, "parentReference", value)
        }
    }
}

#[tactic(auto, unfolding(crate::specs::Items::digest_text))]
fn digest_value(alloc: Global, digest: &Digest) -> Result<Value, NoMemory>
    ensures { IfOk result (λ v. view v ≡ string (digest_text digest.now)) }
{
    let text = hex::encode_upper(alloc, &digest.0)?;
    text_value(alloc, text.as_str())
}

fn kind_value(alloc: Global, kind: &Kind) -> Result<Value, NoMemory>
    ensures { IfOk result (λ v. view v ≡ kind_data kind.now) }
{
    match kind {
        Kind::Folder { child_count } => only(alloc, "childCount", Value::from(*child_count)),
        Kind::File { digest } => {
            let hash = digest_value(alloc, digest)?;
            let hashes = only(alloc, "sha256Hash", hash)?;
            only(alloc, "hashes", hashes)
        }
        Kind::Bare => Ok(empty(alloc)),
        Kind::Deleted => {
            let state = text_value(alloc, "deleted")?;
            only(alloc, "state", state)
        }
    }
}

fn kind_name(kind: &Kind) -> &'static str
    ensures { result.now ≡ kind_name kind.now }
{
    match kind {
        Kind::Folder { .. } => "folder",
        Kind::File { .. } => "file",
        Kind::Bare => "file",
        Kind::Deleted => "deleted",
    }
}

/// What deleted items have too.
fn put_common(alloc: Global, map: &mut Map<String, Value>, item: &Item) -> Result<(), NoMemory>
    requires { map.old.entries ≡ [] }
    ensures { OnOk result (members_view map.new.entries ≡ common_members item.now) }
{
    put_text(alloc, map, "eTag", item.etag.0.as_str())?;
    put_id(alloc, map, item.id)?;
    let kind = kind_value(alloc, &item.kind)?;
    put_value(alloc, map, kind_name(&item.kind), kind)?;
    put_parent(alloc, map, item.parent, &item.parent_path)
}

fn put_ctag(alloc: Global, map: &mut Map<String, Value>, ctag: &Option<Tag>) -> Result<(), NoMemory>
    ensures { OnOk result (members_view map.new.entries ≡ put_optional (codes "cTag") (option_map tag_data ctag.now) (members_view map.old.entries)) }
{
    match ctag {
        None => Ok(()),
        Some(tag) => put_text(alloc, map, "cTag", tag.0.as_str()),
    }
}

fn put_root(alloc: Global, map: &mut Map<String, Value>, id: ItemId) -> Result<(), NoMemory>
    ensures { OnOk result (members_view map.new.entries ≡ put_optional (codes "root") (root_data id) (members_view map.old.entries)) }
{
    if id.0 == 1 {
        put_value(alloc, map, "root", empty(alloc))?;
    }
    Ok(())
}

/// What only living items have.
fn put_living(alloc: Global, map: &mut Map<String, Value>, item: &Item) -> Result<(), NoMemory>
    requires { members_view map.old.entries ≡ common_members item.now }
    ensures { OnOk result (members_view map.new.entries ≡ living_members item.now) }
{
    put_ctag(alloc, map, &item.ctag)?;
    put_text(alloc, map, "name", item.name.as_str())?;
    put_value(alloc, map, "size", Value::from(item.size))?;
    put_root(alloc, map, item.id)
}

#[tactic(auto, unfolding(crate::specs::Items::item_data))]
pub fn item_value(alloc: Global, item: &Item) -> Result<Value, NoMemory>
    ensures { IfOk result (λ v. view v ≡ item_data item.now) }
{
    let mut map = Map::new(alloc);
    put_common(alloc, &mut map, item)?;
    match item.kind {
        Kind::Deleted => {}
        _ => put_living(alloc, &mut map, item)?,
    }
    Ok(Value::Object(map))
}

fn known_bytes(bytes: &[u8])
    ensures { IsBytes bytes.now }
{}

fn known_digest(digest: &[u8; 32])
    ensures { (length digest.now ≡ 32) × IsBytes digest.now }
{
    let _value = *digest;
    known_bytes(digest);
}

fn known_kind(kind: &Kind)
    ensures { IsKnownKind kind.now }
{
    match kind {
        Kind::File { digest } => known_digest(&digest.0),
        _ => {}
    }
}

pub fn known_number(number: u64)
    ensures { number < 2 ^ 64 }
{}

pub fn known_parent(parent: Option<ItemId>)
    ensures { (id : ItemId) → parent ≡ Some id → id.0 < 2 ^ 64 }
{
    match parent {
        Some(id) => known_number(id.0),
        None => {}
    }
}

/// What the types say of an item: it takes no step.
pub fn known_item(item: &Item)
    ensures { IsKnown item.now }
{
    known_kind(&item.kind);
    known_number(item.id.0);
    known_parent(item.parent);
}

/// Writes an item.
pub fn write_item(alloc: Global, item: &Item) -> Result<Bytes, NoMemory>
    ensures text { IfOk result (λ b. b ≡ compact_text (item_data item.now)) }
    ensures read_again { IfOk result (λ b. IsWritable item.now → JsonBody item_at item.now b) }
{
    known_item(item);
    let value = item_value(alloc, item)?;
    print(alloc, &value)
}
