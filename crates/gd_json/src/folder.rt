//! A folder that is to be made.
ghost use Rattle.std.specs.Prelude.{◌≡◌, codes, IfOk};
ghost use Rattle.serde_json.specs.View.{view};
ghost use Rattle.serde_json.specs.Written.{compact_text};
ghost use Rattle.gd_json.specs.Bodies.{body, JsonBody};
ghost use Rattle.gd_json.specs.Faults.{Gives};
ghost use Rattle.gd_json.specs.Changes.{folder_body_at, folder_data};

use crate::conflict::{behaviour_in, behaviour_text};
use crate::fault::{JsonFault, Member};
use crate::member::{empty, needed_object, needed_text, put_text, put_value};
use crate::text::{parse, print};
use gd_names::{Bytes, Conflict, NoMemory, Text};
use serde_json::{Map, Value};
use std::alloc::Global;

/// A folder that is to be made. The name may be any text: it is for the drive to refuse it.
#[derive(Debug, PartialEq, Eq, Drop)]
pub struct FolderBody {
    pub name: Text,
    pub behaviour: Conflict,
}

#[tactic(auto, unfolding(crate::specs::Changes::folder_body_at))]
fn folder_body(alloc: Global, value: &Value) -> Result<FolderBody, JsonFault>
    ensures { Gives (λ x. x) result (folder_body_at (view value.now)) }
{
    let name = Text::from_str(alloc, needed_text(value, "name", Member::Name)?)?;
    needed_object(value, "folder", Member::Folder)?;
    let behaviour = behaviour_in(value)?;
    Ok(FolderBody { name, behaviour })
}

/// Reads a folder that is to be made.
pub fn read_folder(alloc: Global, bytes: &[u8]) -> Result<FolderBody, JsonFault>
    ensures { Gives (λ x. x) result (body folder_body_at bytes.now) }
{
    let value = parse(alloc, bytes)?;
    folder_body(alloc, &value)
}

fn folder_value(alloc: Global, body: &FolderBody) -> Result<Value, NoMemory>
    ensures { IfOk result (λ v. view v ≡ folder_data body.now) }
{
    let mut map = Map::new(alloc);
    put_text(
        alloc,
        &mut map,
        "@microsoft.graph.conflictBehavior",
        behaviour_text(body.behaviour),
    )?;
    put_value(alloc, &mut map, "folder", empty(alloc))?;
    put_text(alloc, &mut map, "name", body.name.as_str())?;
    Ok(Value::Object(map))
}

/// Writes a folder that is to be made, with its behaviour.
pub fn write_folder(alloc: Global, body: &FolderBody) -> Result<Bytes, NoMemory>
    ensures text { IfOk result (λ b. b ≡ compact_text (folder_data body.now)) }
    ensures read_again { IfOk result (λ b. JsonBody folder_body_at body.now b) }
{
    let value = folder_value(alloc, body)?;
    print(alloc, &value)
}
