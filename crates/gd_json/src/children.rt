//! A list of children.
ghost use Rattle.std.specs.Prelude.{◌≡◌, IfOk, All, codes};
ghost use Rattle.serde_json.specs.Find.{get};
ghost use Rattle.serde_json.specs.View.{view};
ghost use Rattle.serde_json.specs.Written.{compact_text};
ghost use Rattle.gd_json.specs.Bodies.{body, JsonBody};
ghost use Rattle.gd_json.specs.Faults.{Gives, ok_or};
ghost use Rattle.gd_json.specs.Members.{optional_as};
ghost use Rattle.gd_json.specs.Items.{IsKnown};
ghost use Rattle.gd_json.specs.Links.{parent_of_first};
ghost use Rattle.gd_json.specs.Lists.{children_at, name_under, children_data, next_link, IsWritableList};

use crate::fault::{JsonFault, Member};
use crate::link::{children_link, name_of};
use crate::list::{value_map, value_of};
use crate::member::put_optional_text;
use crate::text::{parse, print};
use crate::wire::Wire;
use gd_item::{Item, ItemId};
use gd_names::{Bytes, List, NoMemory, Text};
use serde_json::Value;
use std::alloc::Global;

/// Children of one folder.
#[derive(Debug, PartialEq, Eq, Drop)]
pub struct ChildList {
    pub items: List<Item>,
    /// The name of the last item, where more follow. The link names the parent of the first item.
    pub next: Option<Text>,
}

fn parent_of_first(items: &[Item]) -> Option<ItemId>
    ensures { result ≡ parent_of_first items.now }
{
    match items {
        [first, ..] => first.parent,
        [] => None,
    }
}

fn name_under(
    alloc: Global,
    wire: &Wire,
    parent: Option<ItemId>,
    link: &str,
) -> Result<Text, JsonFault>
    ensures { Gives (λ t. t) result (ok_or (JsonFault.BadMember Member.NextLink) (name_under wire.now.base parent link.now)) }
{
    match parent {
        Some(parent) => name_of(alloc, wire, parent, link),
        None => Err(JsonFault::BadMember(Member::NextLink)),
    }
}

fn next_of(
    alloc: Global,
    value: &Value,
    wire: &Wire,
    items: &List<Item>,
) -> Result<Option<Text>, JsonFault>
    ensures { Gives (λ o. o) result (optional_as Member.NextLink (name_under wire.now.base (parent_of_first items.now)) (get (codes "@odata.nextLink") (view value.now))) }
{
    match value.get("@odata.nextLink") {
        None => Ok(None),
        Some(found) => match found.as_str() {
            None => Err(JsonFault::BadMember(Member::NextLink)),
            Some(link) => {
                let parent = parent_of_first(items.as_slice());
                Ok(Some(name_under(alloc, wire, parent, link)?))
            }
        },
    }
}

#[tactic(auto, unfolding(crate::specs::Lists::children_at))]
fn children_of(alloc: Global, value: &Value, wire: &Wire) -> Result<ChildList, JsonFault>
    ensures { Gives (λ x. x) result (children_at wire.now.base (view value.now)) }
{
    let items = value_of(alloc, value)?;
    let next = next_of(alloc, value, wire, &items)?;
    Ok(ChildList { items, next })
}

/// Reads a list. Where one of its items is bad, `value` is.
pub fn read_children(alloc: Global, bytes: &[u8], wire: &Wire) -> Result<ChildList, JsonFault>
    ensures { Gives (λ x. x) result (body (children_at wire.now.base) bytes.now) }
{
    let value = parse(alloc, bytes)?;
    children_of(alloc, &value, wire)
}

fn next_link(
    alloc: Global,
    wire: &Wire,
    parent: Option<ItemId>,
    name: &Option<Text>,
) -> Result<Option<Text>, NoMemory>
    ensures { IfOk result (λ link. link ≡ next_link wire.now.base parent name.now) }
{
    match (parent, name) {
        (Some(parent), Some(name)) => Ok(Some(children_link(alloc, wire, parent, name)?)),
        _ => Ok(None),
    }
}

#[tactic(auto, unfolding(crate::specs::Lists::children_data))]
fn children_value(alloc: Global, list: &ChildList, wire: &Wire) -> Result<Value, NoMemory>
    ensures data { IfOk result (λ v. view v ≡ children_data wire.now.base list.now) }
    ensures known { IfOk result (λ v. All IsKnown list.now.items) }
{
    let items = list.items.as_slice();
    let mut map = value_map(alloc, items)?;
    let next = next_link(alloc, wire, parent_of_first(items), &list.next)?;
    put_optional_text(alloc, &mut map, "@odata.nextLink", &next)?;
    Ok(Value::Object(map))
}

/// Writes a list. It has a link where it goes on and its first item has a parent.
pub fn write_children(alloc: Global, list: &ChildList, wire: &Wire) -> Result<Bytes, NoMemory>
    ensures text { IfOk result (λ b. b ≡ compact_text (children_data wire.now.base list.now)) }
    ensures read_again { IfOk result (λ b. IsWritableList list.now → JsonBody (children_at wire.now.base) list.now b) }
{
    let value = children_value(alloc, list, wire)?;
    print(alloc, &value)
}
