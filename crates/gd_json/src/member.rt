//! The members of a value, each read and put by one function.
ghost use Rattle.std.specs.Prelude.{◌≡◌, Some, IfOk, OnOk, option_map};
ghost use Rattle.serde_json.specs.Data.{put, string, object, no_members};
ghost use Rattle.serde_json.specs.Find.{get, as_str, as_array, as_bool};
ghost use Rattle.serde_json.specs.View.{view, items_view, members_view};
ghost use Rattle.gd_json.specs.Faults.{Gives};
ghost use Rattle.gd_json.specs.Values.{number_of, object_of};
ghost use Rattle.gd_json.specs.Members.{needed, optional};
ghost use Rattle.gd_json.specs.Writing.{put_optional, only};

use crate::fault::{JsonFault, Member};
use gd_names::{NoMemory, Text};
use serde_json::{Map, Value};
use std::alloc::Global;

pub fn needed_text<'v>(value: &'v Value, name: &str, member: Member) -> Result<&'v str, JsonFault>
    ensures { Gives (λ s. s.now) result (needed member as_str (get name.now (view value.now))) }
{
    match value.get(name) {
        None => Err(JsonFault::Lacks(member)),
        Some(found) => match found.as_str() {
            None => Err(JsonFault::BadMember(member)),
            Some(text) => Ok(text),
        },
    }
}

pub fn optional_text(
    alloc: Global,
    value: &Value,
    name: &str,
    member: Member,
) -> Result<Option<Text>, JsonFault>
    ensures { Gives (λ t. t) result (optional member as_str (get name.now (view value.now))) }
{
    match value.get(name) {
        None => Ok(None),
        Some(found) => match found.as_str() {
            None => Err(JsonFault::BadMember(member)),
            Some(text) => Ok(Some(Text::from_str(alloc, text)?)),
        },
    }
}

pub fn needed_count(value: &Value, name: &str, member: Member) -> Result<u64, JsonFault>
    ensures { Gives (λ n. n) result (needed member number_of (get name.now (view value.now))) }
{
    match value.get(name) {
        None => Err(JsonFault::Lacks(member)),
        Some(found) => found.as_u64().ok_or(JsonFault::BadMember(member)),
    }
}

pub fn optional_flag(value: &Value, name: &str, member: Member) -> Result<Option<bool>, JsonFault>
    ensures { Gives (λ b. b) result (optional member as_bool (get name.now (view value.now))) }
{
    match value.get(name) {
        None => Ok(None),
        Some(found) => match found.as_bool() {
            None => Err(JsonFault::BadMember(member)),
            Some(flag) => Ok(Some(flag)),
        },
    }
}

/// The value itself, which has to be an object.
pub fn object(value: &Value, member: Member) -> Result<&Value, JsonFault>
    ensures { Gives (λ v. view v.now) result (needed member object_of (Some (view value.now))) }
{
    if value.is_object() {
        Ok(value)
    } else {
        Err(JsonFault::BadMember(member))
    }
}

pub fn needed_object<'v>(
    value: &'v Value,
    name: &str,
    member: Member,
) -> Result<&'v Value, JsonFault>
    ensures { Gives (λ v. view v.now) result (needed member object_of (get name.now (view value.now))) }
{
    match value.get(name) {
        None => Err(JsonFault::Lacks(member)),
        Some(found) => object(found, member),
    }
}

pub fn optional_object<'v>(
    value: &'v Value,
    name: &str,
    member: Member,
) -> Result<Option<&'v Value>, JsonFault>
    ensures { Gives (λ o. option_map (λ v. view v.now) o) result (optional member object_of (get name.now (view value.now))) }
{
    match value.get(name) {
        None => Ok(None),
        Some(found) => {
            if found.is_object() {
                Ok(Some(found))
            } else {
                Err(JsonFault::BadMember(member))
            }
        }
    }
}

pub fn needed_array<'v>(
    value: &'v Value,
    name: &str,
    member: Member,
) -> Result<&'v [Value], JsonFault>
    ensures { Gives (λ a. items_view a.now) result (needed member as_array (get name.now (view value.now))) }
{
    match value.get(name) {
        None => Err(JsonFault::Lacks(member)),
        Some(found) => match found.as_array() {
            None => Err(JsonFault::BadMember(member)),
            Some(values) => Ok(values.as_slice()),
        },
    }
}

pub fn put_text(
    alloc: Global,
    map: &mut Map<String, Value>,
    name: &str,
    text: &str,
) -> Result<(), NoMemory>
    ensures { OnOk result (members_view map.new.entries ≡ put name.now (string text.now) (members_view map.old.entries)) }
{
    let value = text_value(alloc, text)?;
    put_value(alloc, map, name, value)
}

pub fn put_optional_text(
    alloc: Global,
    map: &mut Map<String, Value>,
    name: &str,
    text: &Option<Text>,
) -> Result<(), NoMemory>
    ensures { OnOk result (members_view map.new.entries ≡ put_optional name.now (option_map string text.now) (members_view map.old.entries)) }
{
    match text {
        None => Ok(()),
        Some(text) => put_text(alloc, map, name, text.as_str()),
    }
}

pub fn put_value(
    alloc: Global,
    map: &mut Map<String, Value>,
    name: &str,
    value: Value,
) -> Result<(), NoMemory>
    ensures { OnOk result (members_view map.new.entries ≡ put name.now (view value) (members_view map.old.entries)) }
{
    serde_json::put(map, alloc, name, value)?;
    Ok(())
}

/// An object with no member.
pub fn empty(alloc: Global) -> Value
    ensures { view result ≡ object no_members }
{
    Value::Object(Map::new(alloc))
}

/// An object with one member.
pub fn only(alloc: Global, name: &str, value: Value) -> Result<Value, NoMemory>
    ensures { IfOk result (λ v. view v ≡ only name.now (view value)) }
{
    let mut map = Map::new(alloc);
    put_value(alloc, &mut map, name, value)?;
    Ok(Value::Object(map))
}

pub fn text_value(alloc: Global, text: &str) -> Result<Value, NoMemory>
    ensures { IfOk result (λ v. view v ≡ string text.now) }
{
    let value = Value::try_from_str(alloc, text)?;
    Ok(value)
}
