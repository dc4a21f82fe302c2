//! The beginning of an upload session.
ghost use Rattle.std.specs.Prelude.{◌≡◌, codes, IfOk, option_map, option_and_then};
ghost use Rattle.serde_json.specs.Data.{put, string, object, no_members};
ghost use Rattle.serde_json.specs.Find.{get, as_str};
ghost use Rattle.serde_json.specs.View.{view};
ghost use Rattle.serde_json.specs.Written.{compact_text};
ghost use Rattle.gd_json.specs.Bodies.{body, JsonBody, or_empty};
ghost use Rattle.gd_json.specs.Faults.{Gives};
ghost use Rattle.gd_json.specs.Members.{optional};
ghost use Rattle.gd_json.specs.Changes.{behaviour_at, begin_at, begin_item_data, begin_data};

use crate::conflict::{behaviour_in, behaviour_text};
use crate::fault::{JsonFault, Member};
use crate::member::{
    optional_flag, optional_object, optional_text, put_optional_text, put_text, put_value,
};
use crate::patch::object_or_none;
use crate::text::{parse, print};
use gd_names::{Bytes, Conflict, NoMemory, Text};
use serde_json::{Map, Value};
use std::alloc::Global;

/// How an upload session begins. The name may be any text: it is for the drive to refuse it.
#[derive(Debug, PartialEq, Eq, Drop)]
pub struct BeginBody {
    pub name: Option<Text>,
    pub behaviour: Conflict,
    /// Whether the file is made by a request of its own, and not by the last fragment (`deferCommit`).
    pub defer: bool,
}

#[tactic(auto, unfolding(crate::specs::Changes::behaviour_at))]
fn behaviour_of(item: Option<&Value>) -> Result<Conflict, JsonFault>
    ensures { Gives (λ x. x) result (behaviour_at (option_and_then (get (codes "@microsoft.graph.conflictBehavior")) (option_map (λ v. view v.now) item.entry))) }
{
    match item {
        None => Ok(Conflict::Fail),
        Some(item) => behaviour_in(item),
    }
}

fn name_of(alloc: Global, item: Option<&Value>) -> Result<Option<Text>, JsonFault>
    ensures { Gives (λ x. x) result (optional Member.Name as_str (option_and_then (get (codes "name")) (option_map (λ v. view v.now) item.entry))) }
{
    match item {
        None => Ok(None),
        Some(item) => optional_text(alloc, item, "name", Member::Name),
    }
}

#[tactic(auto, unfolding(crate::specs::Changes::begin_at))]
fn begin_of(alloc: Global, value: &Value) -> Result<BeginBody, JsonFault>
    ensures { Gives (λ x. x) result (begin_at (view value.now)) }
{
    let begin = object_or_none(value)?;
    let item = optional_object(begin, "item", Member::Item)?;
    let behaviour = behaviour_of(item)?;
    let name = name_of(alloc, item)?;
    let defer = optional_flag(begin, "deferCommit", Member::DeferCommit)?.unwrap_or(false);
    Ok(BeginBody {
        name,
        behaviour,
        defer,
    })
}

/// No bytes stand for an empty object.
fn or_empty(bytes: &[u8]) -> &[u8]
    ensures { result.now ≡ or_empty bytes.now }
{
    match bytes {
        [] => b"{}",
        [..] => bytes,
    }
}

/// Reads the beginning of a session. No member need be there, and an empty body is an empty object.
pub fn read_begin(alloc: Global, bytes: &[u8]) -> Result<BeginBody, JsonFault>
    ensures { Gives (λ x. x) result (body begin_at (or_empty bytes.now)) }
{
    let value = parse(alloc, or_empty(bytes))?;
    begin_of(alloc, &value)
}

fn item_value(alloc: Global, body: &BeginBody) -> Result<Value, NoMemory>
    ensures { IfOk result (λ v. view v ≡ begin_item_data body.now) }
{
    let mut map = Map::new(alloc);
    put_text(
        alloc,
        &mut map,
        "@microsoft.graph.conflictBehavior",
        behaviour_text(body.behaviour),
    )?;
    put_optional_text(alloc, &mut map, "name", &body.name)?;
    Ok(Value::Object(map))
}

fn begin_value(alloc: Global, body: &BeginBody) -> Result<Value, NoMemory>
    ensures { IfOk result (λ v. view v ≡ begin_data body.now) }
{
    let item = item_value(alloc, body)?;
    let mut map = Map::new(alloc);
    put_value(alloc, &mut map, "deferCommit", Value::Bool(body.defer))?;
    put_value(alloc, &mut map, "item", item)?;
    Ok(Value::Object(map))
}

/// Writes the beginning of a session, with its behaviour and whether it is deferred.
pub fn write_begin(alloc: Global, body: &BeginBody) -> Result<Bytes, NoMemory>
    ensures text { IfOk result (λ b. b ≡ compact_text (begin_data body.now)) }
    ensures read_again { IfOk result (λ b. JsonBody begin_at body.now (or_empty b)) }
{
    let value = begin_value(alloc, body)?;
    print(alloc, &value)
}
