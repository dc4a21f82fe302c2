//! The items of lists and pages.
ghost use Rattle.std.specs.Prelude.{◌≡◌, IfOk, All, codes};
ghost use Rattle.std.specs.Result.{result_ok};
ghost use Rattle.serde_json.specs.Data.{no_items};
ghost use Rattle.serde_json.specs.Find.{get};
ghost use Rattle.serde_json.specs.View.{view, items_view, members_view};
ghost use Rattle.gd_json.specs.Faults.{Gives, ok_or};
ghost use Rattle.gd_json.specs.Items.{item_at, item_data, IsKnown};
ghost use Rattle.gd_json.specs.Members.{items_as};
ghost use Rattle.gd_json.specs.Lists.{items_in, value_members};
ghost use Rattle.gd_json.specs.Writing.{listed};

use crate::fault::{JsonFault, Member};
use crate::item::item_of;
use crate::member::{needed_array, put_value};
use crate::written::{item_value, known_item};
use gd_item::Item;
use gd_names::{List, NoMemory};
use serde_json::{Map, Value};
use std::alloc::Global;

/// A bad item makes the whole list bad.
fn listed_item(alloc: Global, value: &Value) -> Result<Item, JsonFault>
    ensures { Gives (λ x. x) result (ok_or (JsonFault.BadMember Member.Value) (result_ok (item_at (view value.now)))) }
{
    match item_of(alloc, value) {
        Ok(item) => Ok(item),
        Err(JsonFault::Memory) => Err(JsonFault::Memory),
        Err(_) => Err(JsonFault::BadMember(Member::Value)),
    }
}

fn items_in(alloc: Global, values: &[Value]) -> Result<List<Item>, JsonFault>
    ensures { Gives (λ l. l) result (ok_or (JsonFault.BadMember Member.Value) (items_in (items_view values.now))) }
{
    let mut items = List::new(alloc);
    for value in values {
        let item = listed_item(alloc, value)?;
        items.push(item)?;
    }
    Ok(items)
}

pub fn value_of(alloc: Global, value: &Value) -> Result<List<Item>, JsonFault>
    ensures { Gives (λ l. l) result (items_as Member.Value items_in (get (codes "value") (view value.now))) }
{
    let values = needed_array(value, "value", Member::Value)?;
    items_in(alloc, values)
}

fn item_values(alloc: Global, items: &[Item]) -> Result<Vec<Value>, NoMemory>
    ensures values { IfOk result (λ v. items_view v.items ≡ listed item_data items.now no_items) }
    ensures known { IfOk result (λ v. All IsKnown items.now) }
{
    let mut values = Vec::with_capacity(alloc, items.len())?;
    for item in items {
        known_item(item);
        let value = item_value(alloc, item)?;
        values.push(value)?;
    }
    Ok(values)
}

/// An object with the items as its `value`.
pub fn value_map(alloc: Global, items: &[Item]) -> Result<Map<String, Value>, NoMemory>
    ensures members { IfOk result (λ map. members_view map.entries ≡ value_members items.now) }
    ensures known { IfOk result (λ map. All IsKnown items.now) }
{
    let values = item_values(alloc, items)?;
    let mut map = Map::new(alloc);
    put_value(alloc, &mut map, "value", Value::Array(values))?;
    Ok(map)
}
