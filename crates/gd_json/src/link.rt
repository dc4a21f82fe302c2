//! Links. The front of a link is made in one place, for writing and for reading.
ghost use Rattle.std.specs.Prelude.{◌≡◌, ◌++◌, IfOk, option_map};
ghost use Rattle.std.specs.List.{list_all};
ghost use Rattle.gd_names.specs.Escapes.{unescaped};
ghost use Rattle.gd_json.specs.Faults.{Gives, ok_or};
ghost use Rattle.gd_json.specs.Links.{past, delta_front, is_token_byte, is_token, token_in, delta_link, token_of_link, children_front, children_link, name_of_link, upload_front, upload_link, session_of_link};

use crate::fault::{JsonFault, Member};
use crate::number::{id_text, number_of};
use crate::wire::Wire;
use gd_item::ItemId;
use gd_names::{EscapeFault, NoMemory, Text, TextFault, escape_segment, unescape_segment};
use std::alloc::Global;

/// What follows the front.
#[tactic(auto, unfolding(crate::specs::Links::past))]
fn past<'t>(front: &[u8], text: &'t [u8]) -> Option<&'t [u8]>
    ensures { option_map (λ rest. rest.now) result ≡ past front.now text.now }
{
    if text.starts_with(front) {
        Some(&text[front.len()..])
    } else {
        None
    }
}

#[tactic(auto, unfolding(crate::specs::Links::delta_front))]
fn delta_front(alloc: Global, wire: &Wire) -> Result<Text, NoMemory>
    ensures { IfOk result (λ t. t ≡ delta_front wire.now.base) }
{
    join(alloc, &wire.base, "/v1.0/me/drive/root/delta?token=")
}

#[tactic(auto, unfolding(crate::specs::Links::is_token_byte))]
fn is_token_byte(byte: u8) -> bool
    ensures { result ≡ is_token_byte byte }
{
    matches!(byte, b'0'..=b'9' | b'A'..=b'Z' | b'a'..=b'z' | b'.')
}

fn has_token_bytes(text: &[u8]) -> bool
    ensures { result ≡ list_all is_token_byte text.now }
{
    text.iter().all(|byte| is_token_byte(*byte))
}

#[tactic(auto, unfolding(crate::specs::Links::is_token))]
fn is_token(token: &[u8]) -> bool
    ensures { result ≡ is_token token.now }
{
    !token.is_empty() && has_token_bytes(token)
}

pub fn delta_link(alloc: Global, wire: &Wire, token: &Text) -> Result<Text, NoMemory>
    ensures { IfOk result (λ t. t ≡ delta_link wire.now.base token.now) }
{
    let front = delta_front(alloc, wire)?;
    join(alloc, &front, token.as_str())
}

/// The token of a link to a page.
#[tactic(auto, unfolding(crate::specs::Links::token_of_link))]
pub fn token_of(alloc: Global, wire: &Wire, link: &str, member: Member) -> Result<Text, JsonFault>
    ensures { Gives (λ t. t) result (ok_or (JsonFault.BadMember member) (token_of_link wire.now.base link.now)) }
{
    let front = delta_front(alloc, wire)?;
    match past(front.as_bytes(), link.as_bytes()) {
        Some(rest) => token_in(alloc, rest, member),
        None => Err(JsonFault::BadMember(member)),
    }
}

fn token_in(alloc: Global, rest: &[u8], member: Member) -> Result<Text, JsonFault>
    ensures { Gives (λ t. t) result (ok_or (JsonFault.BadMember member) (token_in rest.now)) }
{
    if !is_token(rest) {
        return Err(JsonFault::BadMember(member));
    }
    match Text::from_bytes(alloc, rest) {
        Ok(token) => Ok(token),
        Err(TextFault::NotUtf8) => Err(JsonFault::BadMember(member)),
        Err(TextFault::Memory) => Err(JsonFault::Memory),
    }
}

/// The front, and what follows it.
fn join(alloc: Global, front: &Text, rest: &str) -> Result<Text, NoMemory>
    ensures { IfOk result (λ t. t ≡ front.now ++ rest.now) }
{
    let front = front.as_str();
    let text = format!(in alloc; "{front}{rest}")?;
    Ok(Text::from_string(text))
}

#[tactic(auto, unfolding(crate::specs::Links::children_front))]
fn children_front(alloc: Global, wire: &Wire, id: ItemId) -> Result<Text, NoMemory>
    ensures { IfOk result (λ t. t ≡ children_front wire.now.base id) }
{
    let id = id_text(alloc, id)?;
    let items = join(alloc, &wire.base, "/v1.0/me/drive/items/")?;
    let item = join(alloc, &items, id.as_str())?;
    join(alloc, &item, "/children?$skiptoken=")
}

pub fn children_link(alloc: Global, wire: &Wire, id: ItemId, name: &Text) -> Result<Text, NoMemory>
    ensures { IfOk result (λ t. t ≡ children_link wire.now.base id name.now) }
{
    let front = children_front(alloc, wire, id)?;
    let segment = escape_segment(alloc, name)?;
    join(alloc, &front, segment.as_str())
}

/// The name past which a link goes on with the children of this folder.
#[tactic(auto, unfolding(crate::specs::Links::name_of_link))]
pub fn name_of(alloc: Global, wire: &Wire, id: ItemId, link: &str) -> Result<Text, JsonFault>
    ensures { Gives (λ t. t) result (ok_or (JsonFault.BadMember Member.NextLink) (name_of_link wire.now.base id link.now)) }
{
    let front = children_front(alloc, wire, id)?;
    match past(front.as_bytes(), link.as_bytes()) {
        Some(segment) => name_in(alloc, segment),
        None => Err(JsonFault::BadMember(Member::NextLink)),
    }
}

fn name_in(alloc: Global, segment: &[u8]) -> Result<Text, JsonFault>
    ensures { Gives (λ t. t) result (ok_or (JsonFault.BadMember Member.NextLink) (unescaped segment.now)) }
{
    match unescape_segment(alloc, segment) {
        Ok(name) => Ok(name),
        Err(EscapeFault::BadEscape) => Err(JsonFault::BadMember(Member::NextLink)),
        Err(EscapeFault::Memory) => Err(JsonFault::Memory),
    }
}

#[tactic(auto, unfolding(crate::specs::Links::upload_front))]
fn upload_front(alloc: Global, wire: &Wire) -> Result<Text, NoMemory>
    ensures { IfOk result (λ t. t ≡ upload_front wire.now.base) }
{
    join(alloc, &wire.base, "/v1.0/upload/")
}

pub fn upload_link(alloc: Global, wire: &Wire, session: u64) -> Result<Text, NoMemory>
    ensures { IfOk result (λ t. t ≡ upload_link wire.now.base session) }
{
    let front = upload_front(alloc, wire)?;
    let front = front.as_str();
    let text = format!(in alloc; "{front}{session}")?;
    Ok(Text::from_string(text))
}

/// The session of a link to upload to.
#[tactic(auto, unfolding(crate::specs::Links::session_of_link))]
pub fn session_of(alloc: Global, wire: &Wire, link: &str) -> Result<u64, JsonFault>
    ensures { Gives (λ n. n) result (ok_or (JsonFault.BadMember Member.UploadUrl) (session_of_link wire.now.base link.now)) }
{
    let front = upload_front(alloc, wire)?;
    match past(front.as_bytes(), link.as_bytes()) {
        Some(digits) => number_of(digits).ok_or(JsonFault::BadMember(Member::UploadUrl)),
        None => Err(JsonFault::BadMember(Member::UploadUrl)),
    }
}
