//! What the bodies and links of replies say.
ghost use Rattle.std.specs.Prelude.{◌≡◌, ◌++◌, None, IfOk, IfErr};
ghost use Rattle.std.specs.Result.{result_ok};
ghost use Rattle.gd_json.specs.Bodies.{body};
ghost use Rattle.gd_json.specs.Lists.{page_at};
ghost use Rattle.gd_target.specs.Targets.{delta_text};
ghost use Rattle.gd_http.specs.Answering.{Tells, TellsAs, item_in, list_in, session_in, expected_in, error_in, location_of, found_at, found_behind, found_below, found_in, is_feed};

use crate::fault::ReplyFault;
use crate::header::header_value;
use gd_frame::Field;
use gd_item::{ErrorCode, Item, Page, Reply};
use gd_json::{
    ChildList, JsonFault, SessionBody, Wire, read_children, read_error, read_item, read_page,
    read_session, read_status,
};
use gd_names::{Bytes, List, NoMemory};
use gd_target::{RequestFault, Resource, download_of, past, put_delta};
use std::alloc::Global;

#[tactic(auto, unfolding(crate::specs::Answering::item_in))]
pub fn item_in(alloc: Global, bytes: &[u8]) -> Result<Item, ReplyFault>
    ensures { Tells result (item_in bytes.now) }
{
    match read_item(alloc, bytes) {
        Ok(item) => Ok(item),
        Err(JsonFault::Memory) => Err(ReplyFault::Memory),
        Err(_) => Err(ReplyFault::Meaning),
    }
}

#[tactic(auto, unfolding(crate::specs::Answering::list_in))]
pub fn list_in(alloc: Global, bytes: &[u8], wire: &Wire) -> Result<ChildList, ReplyFault>
    ensures { Tells result (list_in wire.now.base bytes.now) }
{
    match read_children(alloc, bytes, wire) {
        Ok(list) => Ok(list),
        Err(JsonFault::Memory) => Err(ReplyFault::Memory),
        Err(_) => Err(ReplyFault::Meaning),
    }
}

pub fn page_in(alloc: Global, bytes: &[u8], wire: &Wire) -> Result<Page, ReplyFault>
    ensures { Tells result (result_ok (body (page_at wire.now.base) bytes.now)) }
{
    match read_page(alloc, bytes, wire) {
        Ok(page) => Ok(page),
        Err(JsonFault::Memory) => Err(ReplyFault::Memory),
        Err(_) => Err(ReplyFault::Meaning),
    }
}

#[tactic(auto, unfolding(crate::specs::Answering::session_in))]
pub fn session_in(alloc: Global, bytes: &[u8], wire: &Wire) -> Result<SessionBody, ReplyFault>
    ensures { Tells result (session_in wire.now.base bytes.now) }
{
    match read_session(alloc, bytes, wire) {
        Ok(session) => Ok(session),
        Err(JsonFault::Memory) => Err(ReplyFault::Memory),
        Err(_) => Err(ReplyFault::Meaning),
    }
}

#[tactic(auto, unfolding(crate::specs::Answering::expected_in))]
pub fn expected_in(alloc: Global, bytes: &[u8]) -> Result<u64, ReplyFault>
    ensures { Tells result (expected_in bytes.now) }
{
    match read_status(alloc, bytes) {
        Ok(expected) => Ok(expected),
        Err(JsonFault::Memory) => Err(ReplyFault::Memory),
        Err(_) => Err(ReplyFault::Meaning),
    }
}

#[tactic(auto, unfolding(crate::specs::Answering::error_in))]
pub fn error_in(alloc: Global, bytes: &[u8]) -> Result<ErrorCode, ReplyFault>
    ensures { Tells result (error_in bytes.now) }
{
    match read_error(alloc, bytes) {
        Ok(code) => Ok(code),
        Err(JsonFault::Memory) => Err(ReplyFault::Memory),
        Err(_) => Err(ReplyFault::Meaning),
    }
}

/// The one `Location`.
#[tactic(auto, unfolding(crate::specs::Answering::location_of))]
pub fn location_of(fields: &List<Field>) -> Result<&[u8], ReplyFault>
    ensures { TellsAs (λ l. l.now) result (location_of fields.now) }
{
    match header_value(fields, b"Location") {
        Ok(Some(value)) => Ok(value),
        Err(RequestFault::Memory) => Err(ReplyFault::Memory),
        Ok(None) | Err(_) => Err(ReplyFault::Meaning),
    }
}

fn found_at(resource: Resource) -> Result<Reply, ReplyFault>
    ensures { Tells result (found_at resource) }
{
    match resource {
        Resource::Download(id, version) => Ok(Reply::Found { id, version }),
        _ => Err(ReplyFault::Meaning),
    }
}

#[tactic(auto, unfolding(crate::specs::Answering::found_behind))]
fn found_behind(rest: &[u8]) -> Result<Reply, ReplyFault>
    ensures { Tells result (found_behind rest.now) }
{
    match download_of(rest) {
        Ok(resource) => found_at(resource),
        Err(RequestFault::Memory) => Err(ReplyFault::Memory),
        Err(_) => Err(ReplyFault::Meaning),
    }
}

#[tactic(auto, unfolding(crate::specs::Answering::found_below))]
fn found_below(path: &[u8]) -> Result<Reply, ReplyFault>
    ensures { Tells result (found_below path.now) }
{
    match past(b"/v1.0/download/", path) {
        Some(rest) => found_behind(rest),
        None => Err(ReplyFault::Meaning),
    }
}

/// The version that a link names.
#[tactic(auto, unfolding(crate::specs::Answering::found_in))]
pub fn found_in(wire: &Wire, link: &[u8]) -> Result<Reply, ReplyFault>
    ensures { Tells result (found_in wire.now.base link.now) }
{
    match past(wire.base.as_bytes(), link) {
        Some(path) => found_below(path),
        None => Err(ReplyFault::Meaning),
    }
}

/// Whether a link is that of the feed from its beginning.
#[tactic(auto, unfolding(crate::specs::Answering::is_feed))]
pub fn is_feed(alloc: Global, wire: &Wire, link: &[u8]) -> Result<bool, ReplyFault>
    ensures value { IfOk result (λ b. b ≡ is_feed wire.now.base link.now) }
    ensures memory { IfErr result (λ e. e ≡ ReplyFault.Memory) }
{
    match feed_link(alloc, wire) {
        Ok(feed) => Ok(link == feed.as_slice()),
        Err(_) => Err(ReplyFault::Memory),
    }
}

/// The link of the feed from its beginning.
pub fn feed_link(alloc: Global, wire: &Wire) -> Result<Bytes, NoMemory>
    ensures { IfOk result (λ b. b ≡ wire.now.base ++ delta_text None) }
{
    let mut feed = Bytes::from_slice(alloc, wire.base.as_bytes())?;
    put_delta(&mut feed, &None)?;
    Ok(feed)
}
