//! Writing targets.
ghost use Rattle.std.specs.Prelude.{◌≡◌, ◌++◌, OnOk, IfOk};
ghost use Rattle.std.specs.Fmt.{decimal};
ghost use Rattle.gd_json.specs.Changes.{behaviour_text};
ghost use Rattle.gd_json.specs.Numbers.{id_written};
ghost use Rattle.gd_target.specs.Targets.{item_text, name_text, address_text, before_part, part_text, skip_text, children_text, behaviour_query, content_text, downloads_text, version_text, download_text, session_text, delta_text, target_text};

use gd_item::{Address, ItemId, Request};
use gd_names::{Bytes, Conflict, NoMemory, Text, escape_segment};
use std::alloc::Global;

/// Appends two texts.
pub fn put_both(out: &mut Bytes, front: &[u8], rest: &[u8]) -> Result<(), NoMemory>
    ensures { OnOk result (out.new ≡ out.old ++ (front.now ++ rest.now)) }
{
    out.push_slice(front)?;
    out.push_slice(rest)?;
    Ok(())
}

#[tactic(auto, unfolding(gd_json::specs::Numbers::id_written))]
fn id_text(alloc: Global, id: ItemId) -> Result<Text, NoMemory>
    ensures { IfOk result (λ t. t ≡ id_written id) }
{
    id.write(alloc)
}

fn number_text(alloc: Global, number: u64) -> Result<Text, NoMemory>
    ensures { IfOk result (λ t. t ≡ decimal number) }
{
    let text = format!(in alloc; "{number}")?;
    Ok(Text::from_string(text))
}

#[tactic(auto, unfolding(crate::specs::Targets::item_text))]
fn put_item(alloc: Global, out: &mut Bytes, id: ItemId) -> Result<(), NoMemory>
    ensures { OnOk result (out.new ≡ out.old ++ item_text id) }
{
    let id = id_text(alloc, id)?;
    put_both(out, b"/v1.0/me/drive/items/", id.as_bytes())
}

#[tactic(auto, unfolding(crate::specs::Targets::name_text))]
fn put_name(alloc: Global, out: &mut Bytes, name: &Text) -> Result<(), NoMemory>
    ensures { OnOk result (out.new ≡ out.old ++ name_text name.now) }
{
    let segment = escape_segment(alloc, name)?;
    put_both(out, b":/", segment.as_bytes())
}

fn put_child(alloc: Global, out: &mut Bytes, id: ItemId, name: &Text) -> Result<(), NoMemory>
    ensures { OnOk result (out.new ≡ out.old ++ (item_text id ++ name_text name.now)) }
{
    put_item(alloc, out, id)?;
    put_name(alloc, out, name)?;
    Ok(())
}

#[tactic(auto, unfolding(crate::specs::Targets::address_text))]
fn put_address(alloc: Global, out: &mut Bytes, at: &Address) -> Result<(), NoMemory>
    ensures { OnOk result (out.new ≡ out.old ++ address_text at.now) }
{
    match at {
        Address::Id(id) => put_item(alloc, out, *id),
        Address::ByPath(path) => {
            let text = path.write(alloc)?;
            put_both(out, b"/v1.0/me/drive/root:", text.as_bytes())
        }
        Address::Child(id, name) => put_child(alloc, out, *id, name),
    }
}

fn before_part(at: &Address) -> &'static [u8]
    ensures { result.now ≡ before_part at.now }
{
    match at {
        Address::Id(_) => b"/",
        Address::ByPath(_) | Address::Child(_, _) => b":/",
    }
}

#[tactic(auto, unfolding(crate::specs::Targets::part_text))]
fn put_part(alloc: Global, out: &mut Bytes, at: &Address, part: &[u8]) -> Result<(), NoMemory>
    ensures { OnOk result (out.new ≡ out.old ++ part_text at.now part.now) }
{
    put_address(alloc, out, at)?;
    put_both(out, before_part(at), part)?;
    Ok(())
}

#[tactic(auto, unfolding(crate::specs::Targets::skip_text))]
fn put_skip(alloc: Global, out: &mut Bytes, name: &Text) -> Result<(), NoMemory>
    ensures { OnOk result (out.new ≡ out.old ++ skip_text name.now) }
{
    let segment = escape_segment(alloc, name)?;
    put_both(out, b"?$skiptoken=", segment.as_bytes())
}

fn put_children(
    alloc: Global,
    out: &mut Bytes,
    at: &Address,
    after: &Option<Text>,
) -> Result<(), NoMemory>
    ensures { OnOk result (out.new ≡ out.old ++ children_text at.now after.now) }
{
    put_part(alloc, out, at, b"children")?;
    match after {
        None => {}
        Some(name) => put_skip(alloc, out, name)?,
    }
    Ok(())
}

fn behaviour_text(behaviour: Conflict) -> &'static [u8]
    ensures { result.now ≡ behaviour_text behaviour }
{
    match behaviour {
        Conflict::Fail => b"fail",
        Conflict::Replace => b"replace",
        Conflict::Rename => b"rename",
    }
}

#[tactic(auto, unfolding(crate::specs::Targets::behaviour_query))]
fn put_behaviour(out: &mut Bytes, behaviour: Conflict) -> Result<(), NoMemory>
    ensures { OnOk result (out.new ≡ out.old ++ behaviour_query behaviour) }
{
    put_both(
        out,
        b"?@microsoft.graph.conflictBehavior=",
        behaviour_text(behaviour),
    )
}

fn put_content(
    alloc: Global,
    out: &mut Bytes,
    at: &Address,
    behaviour: Conflict,
) -> Result<(), NoMemory>
    ensures { OnOk result (out.new ≡ out.old ++ content_text at.now behaviour) }
{
    put_part(alloc, out, at, b"content")?;
    put_behaviour(out, behaviour)?;
    Ok(())
}

#[tactic(auto, unfolding(crate::specs::Targets::downloads_text))]
fn put_downloads(alloc: Global, out: &mut Bytes, id: ItemId) -> Result<(), NoMemory>
    ensures { OnOk result (out.new ≡ out.old ++ downloads_text id) }
{
    let id = id_text(alloc, id)?;
    put_both(out, b"/v1.0/download/", id.as_bytes())
}

#[tactic(auto, unfolding(crate::specs::Targets::version_text))]
fn put_version(alloc: Global, out: &mut Bytes, version: u64) -> Result<(), NoMemory>
    ensures { OnOk result (out.new ≡ out.old ++ version_text version) }
{
    let version = number_text(alloc, version)?;
    put_both(out, b"/", version.as_bytes())
}

/// Appends where the bytes of a version are.
pub fn put_download(
    alloc: Global,
    out: &mut Bytes,
    id: ItemId,
    version: u64,
) -> Result<(), NoMemory>
    ensures { OnOk result (out.new ≡ out.old ++ download_text id version) }
{
    put_downloads(alloc, out, id)?;
    put_version(alloc, out, version)?;
    Ok(())
}

#[tactic(auto, unfolding(crate::specs::Targets::session_text))]
fn put_session(alloc: Global, out: &mut Bytes, session: u64) -> Result<(), NoMemory>
    ensures { OnOk result (out.new ≡ out.old ++ session_text session) }
{
    let session = number_text(alloc, session)?;
    put_both(out, b"/v1.0/upload/", session.as_bytes())
}

/// Appends where the changes after a token are.
#[tactic(auto, unfolding(crate::specs::Targets::delta_text))]
pub fn put_delta(out: &mut Bytes, token: &Option<Text>) -> Result<(), NoMemory>
    ensures { OnOk result (out.new ≡ out.old ++ delta_text token.now) }
{
    match token {
        None => out.push_slice(b"/v1.0/me/drive/root/delta"),
        Some(token) => put_both(out, b"/v1.0/me/drive/root/delta?token=", token.as_bytes()),
    }
}

/// Appends the target of a request.
#[tactic(auto, unfolding(crate::specs::Targets::target_text))]
pub fn put_target(alloc: Global, out: &mut Bytes, request: &Request) -> Result<(), NoMemory>
    ensures { OnOk result (out.new ≡ out.old ++ target_text request.now) }
{
    match request {
        Request::Get { at } | Request::Patch { at, .. } | Request::Delete { at, .. } => {
            put_address(alloc, out, at)
        }
        Request::Children { at, after } => put_children(alloc, out, at, after),
        Request::MakeFolder { at, .. } => put_part(alloc, out, at, b"children"),
        Request::Put { at, behaviour, .. } => put_content(alloc, out, at, *behaviour),
        Request::Content { at } => put_part(alloc, out, at, b"content"),
        Request::Download { id, version } => put_download(alloc, out, *id, *version),
        Request::OpenSession { at, .. } => put_part(alloc, out, at, b"createUploadSession"),
        Request::Fragment { session, .. }
        | Request::SessionStatus { session }
        | Request::CancelSession { session }
        | Request::Finish { session } => put_session(alloc, out, *session),
        Request::Delta { token } => put_delta(out, token),
    }
}
