//! Reading an item.
ghost use Rattle.std.specs.Prelude.{◌≡◌, None, Some, cond, IfOk, nat_eq, codes};
ghost use Rattle.serde_json.specs.Find.{get};
ghost use Rattle.serde_json.specs.View.{view};
ghost use Rattle.gd_json.specs.Bodies.{body};
ghost use Rattle.gd_json.specs.Faults.{Gives, ok_or};
ghost use Rattle.gd_json.specs.Members.{text_as, optional_as};
ghost use Rattle.gd_json.specs.Numbers.{item_id_of};
ghost use Rattle.gd_json.specs.Items.{id_in, path_in, tag_or_empty, drive_of, may_name, name_for, digest_of_text, reference_at, parent_at, digest_at, file_kind, file_at, folder_at, kind_at, deleted_at, living_at, item_at};

use crate::fault::{JsonFault, Member};
use crate::member::{
    needed_count, needed_object, needed_text, object, optional_object, optional_text,
};
use crate::number::item_id_of;
use crate::text::parse;
use gd_item::{Digest, Item, ItemId, Kind, Tag};
use gd_names::{NoMemory, Text, check_name};
use hex::FromHex;
use serde_json::Value;
use std::alloc::Global;

/// What `parentReference` tells of the parent.
#[derive(Debug, Drop)]
pub struct Reference {
    pub id: ItemId,
    pub path: Option<Text>,
}

pub fn needed_id(value: &Value, name: &str, member: Member) -> Result<ItemId, JsonFault>
    ensures { Gives (λ id. id) result (text_as member item_id_of (get name.now (view value.now))) }
{
    let text = needed_text(value, name, member)?;
    item_id_of(text).ok_or(JsonFault::BadMember(member))
}

/// Whether the drive is told. There is one, and a parent on another one is none.
fn tells_drive(value: &Value) -> Result<bool, JsonFault>
    ensures { Gives (λ told. cond told (Some (codes "gd1")) None) result (optional_as Member.DriveId drive_of (get (codes "driveId") (view value.now))) }
{
    match value.get("driveId") {
        None => Ok(false),
        Some(found) => match found.as_str() {
            Some(text) if text == "gd1" => Ok(true),
            _ => Err(JsonFault::BadMember(Member::DriveId)),
        },
    }
}

#[tactic(auto, unfolding(crate::specs::Items::reference_at))]
fn reference_of(alloc: Global, value: &Value) -> Result<Reference, JsonFault>
    ensures { Gives (λ x. x) result (reference_at (view value.now)) }
{
    let reference = object(value, Member::ParentReference)?;
    tells_drive(reference)?;
    let id = needed_id(reference, "id", Member::ParentId)?;
    let path = optional_text(alloc, reference, "path", Member::ParentPath)?;
    Ok(Reference { id, path })
}

fn parent_of(alloc: Global, value: &Value, may_lack: bool) -> Result<Option<Reference>, JsonFault>
    ensures { Gives (λ x. x) result (parent_at may_lack (get (codes "parentReference") (view value.now))) }
{
    match value.get("parentReference") {
        None => {
            if may_lack {
                Ok(None)
            } else {
                Err(JsonFault::Lacks(Member::ParentReference))
            }
        }
        Some(found) => Ok(Some(reference_of(alloc, found)?)),
    }
}

#[tactic(auto, unfolding(crate::specs::Items::may_name))]
fn may_name(id: ItemId, name: &Text) -> bool
    ensures { result ≡ may_name id name.now }
{
    id.0 == 1 || check_name(name).is_ok()
}

fn name_of(alloc: Global, value: &Value, id: ItemId) -> Result<Text, JsonFault>
    ensures { Gives (λ t. t) result (text_as Member.Name (name_for id) (get (codes "name") (view value.now))) }
{
    let text = needed_text(value, "name", Member::Name)?;
    let name = Text::from_str(alloc, text)?;
    if may_name(id, &name) {
        Ok(name)
    } else {
        Err(JsonFault::BadMember(Member::Name))
    }
}

#[tactic(auto, unfolding(crate::specs::Items::digest_of_text))]
fn digest_of(text: &str) -> Option<Digest>
    ensures { result ≡ digest_of_text text.now }
{
    match <[u8; 32] as FromHex>::from_hex(text) {
        Ok(bytes) => Some(Digest(bytes)),
        Err(_) => None,
    }
}

fn hash_of(hashes: &Value) -> Result<Option<Digest>, JsonFault>
    ensures { Gives (λ x. x) result (optional_as Member.Sha256Hash digest_of_text (get (codes "sha256Hash") (view hashes.now))) }
{
    match hashes.get("sha256Hash") {
        None => Ok(None),
        Some(found) => match found.as_str() {
            None => Err(JsonFault::BadMember(Member::Sha256Hash)),
            Some(text) => {
                let digest = digest_of(text).ok_or(JsonFault::BadMember(Member::Sha256Hash))?;
                Ok(Some(digest))
            }
        },
    }
}

#[tactic(auto, unfolding(crate::specs::Items::digest_at))]
fn digest_in(file: &Value) -> Result<Option<Digest>, JsonFault>
    ensures { Gives (λ x. x) result (digest_at (get (codes "hashes") (view file.now))) }
{
    match file.get("hashes") {
        None => Ok(None),
        Some(found) => {
            let hashes = object(found, Member::Sha256Hash)?;
            hash_of(hashes)
        }
    }
}

#[tactic(auto, unfolding(crate::specs::Items::file_at))]
fn file_of(value: &Value) -> Result<Kind, JsonFault>
    ensures { Gives (λ x. x) result (file_at (view value.now)) }
{
    let file = object(value, Member::File)?;
    match digest_in(file)? {
        Some(digest) => Ok(Kind::File { digest }),
        None => Ok(Kind::Bare),
    }
}

#[tactic(auto, unfolding(crate::specs::Items::folder_at))]
fn folder_of(value: &Value) -> Result<Kind, JsonFault>
    ensures { Gives (λ x. x) result (folder_at (view value.now)) }
{
    let folder = object(value, Member::Folder)?;
    let child_count = needed_count(folder, "childCount", Member::ChildCount)?;
    Ok(Kind::Folder { child_count })
}

fn kind_of(value: &Value) -> Result<Kind, JsonFault>
    ensures { Gives (λ x. x) result (kind_at (get (codes "file") (view value.now)) (get (codes "folder") (view value.now))) }
{
    match (value.get("file"), value.get("folder")) {
        (None, None) => Err(JsonFault::Lacks(Member::File)),
        (Some(file), None) => file_of(file),
        (None, Some(folder)) => folder_of(folder),
        (Some(_), Some(_)) => Err(JsonFault::BadMember(Member::Folder)),
    }
}

/// The two members of an item that tell of its parent.
fn split(reference: Option<Reference>) -> (Option<ItemId>, Option<Text>)
    ensures id { result.0 ≡ id_in reference }
    ensures path { result.1 ≡ path_in reference }
{
    match reference {
        Some(Reference { id, path }) => (Some(id), path),
        None => (None, None),
    }
}

fn tag_or_empty(alloc: Global, text: Option<Text>) -> Result<Tag, NoMemory>
    ensures { IfOk result (λ tag. tag ≡ tag_or_empty text) }
{
    match text {
        Some(text) => Ok(Tag(text)),
        None => Ok(Tag(Text::from_str(alloc, "")?)),
    }
}

#[tactic(auto, unfolding(crate::specs::Items::deleted_at))]
fn deleted_item(alloc: Global, value: &Value, id: ItemId) -> Result<Item, JsonFault>
    ensures { Gives (λ x. x) result (deleted_at id (view value.now)) }
{
    let etag = optional_text(alloc, value, "eTag", Member::ETag)?;
    let reference = parent_of(alloc, value, true)?;
    let (parent, parent_path) = split(reference);
    Ok(Item {
        id,
        parent,
        parent_path,
        name: Text::from_str(alloc, "")?,
        size: 0,
        etag: tag_or_empty(alloc, etag)?,
        ctag: None,
        kind: Kind::Deleted,
    })
}

#[tactic(auto, unfolding(crate::specs::Items::living_at))]
fn living_item(alloc: Global, value: &Value, id: ItemId) -> Result<Item, JsonFault>
    ensures { Gives (λ x. x) result (living_at id (view value.now)) }
{
    let name = name_of(alloc, value, id)?;
    let etag = Text::from_str(alloc, needed_text(value, "eTag", Member::ETag)?)?;
    let ctag = optional_text(alloc, value, "cTag", Member::CTag)?;
    let size = needed_count(value, "size", Member::Size)?;
    let reference = parent_of(alloc, value, id.0 == 1)?;
    let kind = kind_of(value)?;
    optional_object(value, "root", Member::Root)?;
    let (parent, parent_path) = split(reference);
    Ok(Item {
        id,
        parent,
        parent_path,
        name,
        size,
        etag: Tag(etag),
        ctag: ctag.map(Tag),
        kind,
    })
}

#[tactic(auto, unfolding(crate::specs::Items::item_at))]
pub fn item_of(alloc: Global, value: &Value) -> Result<Item, JsonFault>
    ensures { Gives (λ x. x) result (item_at (view value.now)) }
{
    let id = needed_id(value, "id", Member::Id)?;
    match optional_object(value, "deleted", Member::Deleted)? {
        Some(_) => deleted_item(alloc, value, id),
        None => living_item(alloc, value, id),
    }
}

/// Reads an item. What it does not know it ignores, also in a deleted item what is not read there.
pub fn read_item(alloc: Global, bytes: &[u8]) -> Result<Item, JsonFault>
    ensures { Gives (λ x. x) result (body item_at bytes.now) }
{
    let value = parse(alloc, bytes)?;
    item_of(alloc, &value)
}
