//! A page of the feed of changes.
ghost use Rattle.std.specs.Prelude.{◌≡◌, Some, IfOk, OnOk, All, codes};
ghost use Rattle.serde_json.specs.Find.{get};
ghost use Rattle.serde_json.specs.View.{view, members_view};
ghost use Rattle.serde_json.specs.Written.{compact_text};
ghost use Rattle.gd_json.specs.Bodies.{body, JsonBody};
ghost use Rattle.gd_json.specs.Faults.{Gives};
ghost use Rattle.gd_json.specs.Members.{text_as};
ghost use Rattle.gd_json.specs.Links.{token_of_link};
ghost use Rattle.gd_json.specs.Items.{IsKnown};
ghost use Rattle.gd_json.specs.Lists.{link_at, page_at, put_link, page_data, IsWritablePage};

use crate::fault::{JsonFault, Member};
use crate::link::{delta_link, token_of};
use crate::list::{value_map, value_of};
use crate::member::put_text;
use crate::text::{parse, print};
use crate::wire::Wire;
use gd_item::{Page, PageLink};
use gd_names::{Bytes, NoMemory, Text};
use serde_json::{Map, Value};
use std::alloc::Global;

fn token_in(alloc: Global, found: &Value, wire: &Wire, member: Member) -> Result<Text, JsonFault>
    ensures { Gives (λ t. t) result (text_as member (token_of_link wire.now.base) (Some (view found.now))) }
{
    match found.as_str() {
        None => Err(JsonFault::BadMember(member)),
        Some(link) => token_of(alloc, wire, link, member),
    }
}

fn link_of(alloc: Global, value: &Value, wire: &Wire) -> Result<PageLink, JsonFault>
    ensures { Gives (λ x. x) result (link_at wire.now.base (get (codes "@odata.nextLink") (view value.now)) (get (codes "@odata.deltaLink") (view value.now))) }
{
    match (value.get("@odata.nextLink"), value.get("@odata.deltaLink")) {
        (None, None) => Err(JsonFault::Lacks(Member::NextLink)),
        (Some(next), None) => Ok(PageLink::Next(token_in(alloc, next, wire, Member::NextLink)?)),
        (None, Some(delta)) => Ok(PageLink::Delta(token_in(
            alloc,
            delta,
            wire,
            Member::DeltaLink,
        )?)),
        (Some(_), Some(_)) => Err(JsonFault::BadMember(Member::DeltaLink)),
    }
}

#[tactic(auto, unfolding(crate::specs::Lists::page_at))]
fn page_of(alloc: Global, value: &Value, wire: &Wire) -> Result<Page, JsonFault>
    ensures { Gives (λ x. x) result (page_at wire.now.base (view value.now)) }
{
    let items = value_of(alloc, value)?;
    let link = link_of(alloc, value, wire)?;
    Ok(Page { items, link })
}

/// Reads a page. Where one of its items is bad, `value` is.
pub fn read_page(alloc: Global, bytes: &[u8], wire: &Wire) -> Result<Page, JsonFault>
    ensures { Gives (λ x. x) result (body (page_at wire.now.base) bytes.now) }
{
    let value = parse(alloc, bytes)?;
    page_of(alloc, &value, wire)
}

fn put_link(
    alloc: Global,
    map: &mut Map<String, Value>,
    link: &PageLink,
    wire: &Wire,
) -> Result<(), NoMemory>
    ensures { OnOk result (members_view map.new.entries ≡ put_link wire.now.base link.now (members_view map.old.entries)) }
{
    match link {
        PageLink::Next(token) => {
            let text = delta_link(alloc, wire, token)?;
            put_text(alloc, map, "@odata.nextLink", text.as_str())
        }
        PageLink::Delta(token) => {
            let text = delta_link(alloc, wire, token)?;
            put_text(alloc, map, "@odata.deltaLink", text.as_str())
        }
    }
}

#[tactic(auto, unfolding(crate::specs::Lists::page_data))]
fn page_value(alloc: Global, page: &Page, wire: &Wire) -> Result<Value, NoMemory>
    ensures data { IfOk result (λ v. view v ≡ page_data wire.now.base page.now) }
    ensures known { IfOk result (λ v. All IsKnown page.now.items) }
{
    let mut map = value_map(alloc, page.items.as_slice())?;
    put_link(alloc, &mut map, &page.link, wire)?;
    Ok(Value::Object(map))
}

/// Writes a page.
pub fn write_page(alloc: Global, page: &Page, wire: &Wire) -> Result<Bytes, NoMemory>
    ensures text { IfOk result (λ b. b ≡ compact_text (page_data wire.now.base page.now)) }
    ensures read_again { IfOk result (λ b. IsWritablePage page.now → JsonBody (page_at wire.now.base) page.now b) }
{
    let value = page_value(alloc, page, wire)?;
    print(alloc, &value)
}
