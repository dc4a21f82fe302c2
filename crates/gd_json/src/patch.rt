//! A change of an item.
ghost use Rattle.std.specs.Prelude.{◌≡◌, codes, IfOk, OnOk, option_map};
ghost use Rattle.serde_json.specs.Find.{get};
ghost use Rattle.serde_json.specs.View.{view, members_view};
ghost use Rattle.serde_json.specs.Written.{compact_text};
ghost use Rattle.gd_json.specs.Bodies.{body, JsonBody};
ghost use Rattle.gd_json.specs.Faults.{Gives, ok_or};
ghost use Rattle.gd_json.specs.Items.{id_data};
ghost use Rattle.gd_json.specs.Members.{optional_as};
ghost use Rattle.gd_json.specs.Numbers.{item_id_of};
ghost use Rattle.gd_json.specs.Values.{object_of};
ghost use Rattle.gd_json.specs.Writing.{put_optional, only};
ghost use Rattle.gd_json.specs.Changes.{new_parent_at, patch_at, patch_data, IsWritablePatch};

use crate::fault::{JsonFault, Member};
use crate::member::{object, optional_text, put_optional_text, put_value};
use crate::number::item_id_of;
use crate::text::{parse, print};
use crate::written::{known_parent, put_id};
use gd_item::ItemId;
use gd_names::{Bytes, NoMemory, Text};
use serde_json::{Map, Value};
use std::alloc::Global;

/// A new name of an item, or a new parent, or both.
#[derive(Debug, PartialEq, Eq, Drop)]
pub struct PatchBody {
    pub name: Option<Text>,
    pub parent: Option<ItemId>,
}

/// A body without a member that has to be there: a text that is no object is no such body.
pub fn object_or_none(value: &Value) -> Result<&Value, JsonFault>
    ensures { Gives (λ v. view v.now) result (ok_or JsonFault.NotJson (object_of (view value.now))) }
{
    if value.is_object() {
        Ok(value)
    } else {
        Err(JsonFault::NotJson)
    }
}

fn id_in(reference: &Value) -> Result<Option<ItemId>, JsonFault>
    ensures { Gives (λ o. o) result (optional_as Member.ParentId item_id_of (get (codes "id") (view reference.now))) }
{
    match reference.get("id") {
        None => Ok(None),
        Some(found) => match found.as_str() {
            None => Err(JsonFault::BadMember(Member::ParentId)),
            Some(text) => {
                let id = item_id_of(text).ok_or(JsonFault::BadMember(Member::ParentId))?;
                Ok(Some(id))
            }
        },
    }
}

#[tactic(auto, unfolding(crate::specs::Changes::new_parent_at))]
fn new_parent(value: &Value) -> Result<Option<ItemId>, JsonFault>
    ensures { Gives (λ o. o) result (new_parent_at (get (codes "parentReference") (view value.now))) }
{
    match value.get("parentReference") {
        None => Ok(None),
        Some(found) => {
            let reference = object(found, Member::ParentId)?;
            id_in(reference)
        }
    }
}

#[tactic(auto, unfolding(crate::specs::Changes::patch_at))]
fn patch_of(alloc: Global, value: &Value) -> Result<PatchBody, JsonFault>
    ensures { Gives (λ x. x) result (patch_at (view value.now)) }
{
    let patch = object_or_none(value)?;
    let name = optional_text(alloc, patch, "name", Member::Name)?;
    let parent = new_parent(patch)?;
    Ok(PatchBody { name, parent })
}

/// Reads a change. Neither member need be there.
pub fn read_patch(alloc: Global, bytes: &[u8]) -> Result<PatchBody, JsonFault>
    ensures { Gives (λ x. x) result (body patch_at bytes.now) }
{
    let value = parse(alloc, bytes)?;
    patch_of(alloc, &value)
}

fn put_parent(
    alloc: Global,
    map: &mut Map<String, Value>,
    parent: Option<ItemId>,
) -> Result<(), NoMemory>
    ensures { OnOk result (members_view map.new.entries ≡ put_optional (codes "parentReference") (option_map (λ id. only (codes "id") (id_data id)) parent) (members_view map.old.entries)) }
{
    match parent {
        None => Ok(()),
        Some(id) => {
            let mut reference = Map::new(alloc);
            put_id(alloc, &mut reference, id)?;
            put_value(alloc, map, "parentReference", Value::Object(reference))
        }
    }
}

fn patch_value(alloc: Global, body: &PatchBody) -> Result<Value, NoMemory>
    ensures { IfOk result (λ v. view v ≡ patch_data body.now) }
{
    let mut map = Map::new(alloc);
    put_optional_text(alloc, &mut map, "name", &body.name)?;
    put_parent(alloc, &mut map, body.parent)?;
    Ok(Value::Object(map))
}

/// Writes a change.
pub fn write_patch(alloc: Global, body: &PatchBody) -> Result<Bytes, NoMemory>
    ensures text { IfOk result (λ b. b ≡ compact_text (patch_data body.now)) }
    ensures read_again { IfOk result (λ b. IsWritablePatch body.now → JsonBody patch_at body.now b) }
{
    known_parent(body.parent);
    let value = patch_value(alloc, body)?;
    print(alloc, &value)
}
