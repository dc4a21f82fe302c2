//! What targets name.
ghost use Rattle.std.specs.Prelude.{◌≡◌, [], option_map};
ghost use Rattle.gd_target.specs.Faults.{Gives, ok_or};
ghost use Rattle.gd_target.specs.Resources.{part_of, under, address_of, by_path, at_root, by_name, restored, versions_of, of_item, id_and_rest, at_item, in_drive, of_version, download_of, session_of, beside_drive, resource_of, named_by};
ghost use Rattle.gd_target.specs.declared.fault.RequestFault.TheVariants.{NotFound};
ghost use Rattle.gd_json.specs.Numbers.{item_id_of};
ghost use Rattle.gd_names.specs.Escapes.{unescaped};
ghost use Rattle.gd_names.specs.Paths.{path_of_text};

use crate::cuts::{cut, parts_at, past};
use crate::fault::RequestFault;
use crate::number::number_of;
use gd_item::{Address, ItemId};
use gd_names::{EscapeFault, Path, PathFault, Text, unescape_segment};
use std::alloc::Global;

/// What a target names.
#[derive(Debug, PartialEq, Eq, Drop)]
pub enum Resource {
    Item(Address),
    Children(Address),
    Content(Address),
    /// Where upload sessions are opened.
    Uploads(Address),
    Versions(ItemId),
    /// A version that is to be restored.
    Version(ItemId, u64),
    /// The feed of changes.
    Changes,
    Download(ItemId, u64),
    Session(u64),
    Batch,
}

#[tactic(auto, unfolding(crate::specs::Resources::under))]
fn under(at: Address, rest: &[u8]) -> Result<Resource, RequestFault>
    ensures { Gives (λ x. x) result (ok_or NotFound (under at rest.now)) }
{
    match rest {
        [] => Ok(Resource::Item(at)),
        [b'/', name @ ..] => part_of(at, name),
        _ => Err(RequestFault::NotFound),
    }
}

fn part_of(at: Address, name: &[u8]) -> Result<Resource, RequestFault>
    ensures { Gives (λ x. x) result (ok_or NotFound (part_of at name.now)) }
{
    if name == b"children".as_slice() {
        Ok(Resource::Children(at))
    } else if name == b"content".as_slice() {
        Ok(Resource::Content(at))
    } else if name == b"createUploadSession".as_slice() {
        Ok(Resource::Uploads(at))
    } else {
        Err(RequestFault::NotFound)
    }
}

fn root() -> Address
    ensures { result ≡ address_of [] }
{
    Address::Id(ItemId(1))
}

/// A path without names is the root.
fn address_of(path: Path) -> Address
    ensures { result ≡ address_of path }
{
    if path.is_root() {
        root()
    } else {
        Address::ByPath(path)
    }
}

fn path_of(alloc: Global, text: &[u8]) -> Result<Path, RequestFault>
    ensures { Gives (λ x. x) result (ok_or NotFound (path_of_text text.now)) }
{
    match Path::read(alloc, text) {
        Ok(path) => Ok(path),
        Err(PathFault::BadPath) => Err(RequestFault::NotFound),
        Err(PathFault::Memory) => Err(RequestFault::Memory),
    }
}

fn name_of(alloc: Global, segment: &[u8]) -> Result<Text, RequestFault>
    ensures { Gives (λ x. x) result (ok_or NotFound (unescaped segment.now)) }
{
    match unescape_segment(alloc, segment) {
        Ok(name) => Ok(name),
        Err(EscapeFault::BadEscape) => Err(RequestFault::NotFound),
        Err(EscapeFault::Memory) => Err(RequestFault::Memory),
    }
}

/// The path stands before the next colon.
#[tactic(auto, unfolding(crate::specs::Resources::by_path))]
fn by_path(alloc: Global, text: &[u8]) -> Result<Resource, RequestFault>
    ensures { Gives (λ x. x) result (ok_or NotFound (by_path text.now)) }
{
    let (front, rest) = parts_at(text, b':');
    let path = path_of(alloc, front)?;
    under(address_of(path), rest)
}

#[tactic(auto, unfolding(crate::specs::Resources::at_root))]
fn at_root(alloc: Global, rest: &[u8]) -> Result<Resource, RequestFault>
    ensures { Gives (λ x. x) result (ok_or NotFound (at_root rest.now)) }
{
    match past(b":", rest) {
        Some(text) => by_path(alloc, text),
        None => {
            if rest == b"/delta".as_slice() {
                Ok(Resource::Changes)
            } else {
                under(root(), rest)
            }
        }
    }
}

/// A `/` and the name's segment stand before the next colon.
#[tactic(auto, unfolding(crate::specs::Resources::by_name))]
fn by_name(alloc: Global, id: ItemId, text: &[u8]) -> Result<Resource, RequestFault>
    ensures { Gives (λ x. x) result (ok_or NotFound (by_name id text.now)) }
{
    let (front, rest) = parts_at(text, b':');
    match past(b"/", front) {
        Some(segment) => {
            let name = name_of(alloc, segment)?;
            under(Address::Child(id, name), rest)
        }
        None => Err(RequestFault::NotFound),
    }
}

#[tactic(auto, unfolding(crate::specs::Resources::restored))]
fn restored(id: ItemId, number: &[u8], action: Option<&[u8]>) -> Result<Resource, RequestFault>
    ensures { Gives (λ x. x) result (ok_or NotFound (restored id (number.now, option_map (λ a. a.now) action.entry))) }
{
    match action {
        None => Err(RequestFault::NotFound),
        Some(action) => {
            if action == b"restoreVersion".as_slice() {
                let version = number_of(number).ok_or(RequestFault::NotFound)?;
                Ok(Resource::Version(id, version))
            } else {
                Err(RequestFault::NotFound)
            }
        }
    }
}

#[tactic(auto, unfolding(crate::specs::Resources::versions_of))]
fn versions_of(id: ItemId, rest: &[u8]) -> Result<Resource, RequestFault>
    ensures { Gives (λ x. x) result (ok_or NotFound (versions_of id rest.now)) }
{
    match rest {
        [] => Ok(Resource::Versions(id)),
        [b'/', text @ ..] => {
            let (number, action) = cut(text, b'/');
            restored(id, number, action)
        }
        _ => Err(RequestFault::NotFound),
    }
}

#[tactic(auto, unfolding(crate::specs::Resources::of_item))]
fn of_item(alloc: Global, id: ItemId, rest: &[u8]) -> Result<Resource, RequestFault>
    ensures { Gives (λ x. x) result (ok_or NotFound (of_item id rest.now)) }
{
    match past(b":", rest) {
        Some(text) => by_name(alloc, id, text),
        None => match past(b"/versions", rest) {
            Some(text) => versions_of(id, text),
            None => under(Address::Id(id), rest),
        },
    }
}

#[tactic(auto, unfolding(gd_json::specs::Numbers::item_id_of))]
fn id_of(text: &[u8]) -> Option<ItemId>
    ensures { result ≡ item_id_of text.now }
{
    ItemId::read(text)
}

/// An id, which has twenty bytes, and what follows it.
#[tactic(auto, using(crate::proofs::Cutting::short_id))]
fn id_and_rest(text: &[u8]) -> Result<(ItemId, &[u8]), RequestFault>
    ensures { Gives (λ p. (p.0, p.1.now)) result (ok_or NotFound (id_and_rest text.now)) }
{
    if text.len() < 20 {
        return Err(RequestFault::NotFound);
    }
    let id = id_of(&text[..20]).ok_or(RequestFault::NotFound)?;
    Ok((id, &text[20..]))
}

#[tactic(auto, unfolding(crate::specs::Resources::at_item))]
fn at_item(alloc: Global, text: &[u8]) -> Result<Resource, RequestFault>
    ensures { Gives (λ x. x) result (ok_or NotFound (at_item text.now)) }
{
    let (id, rest) = id_and_rest(text)?;
    of_item(alloc, id, rest)
}

#[tactic(auto, unfolding(crate::specs::Resources::in_drive))]
fn in_drive(alloc: Global, rest: &[u8]) -> Result<Resource, RequestFault>
    ensures { Gives (λ x. x) result (ok_or NotFound (in_drive rest.now)) }
{
    match past(b"root", rest) {
        Some(text) => at_root(alloc, text),
        None => match past(b"items/", rest) {
            Some(text) => at_item(alloc, text),
            None => Err(RequestFault::NotFound),
        },
    }
}

#[tactic(auto, unfolding(crate::specs::Resources::of_version))]
fn of_version(id: ItemId, rest: &[u8]) -> Result<Resource, RequestFault>
    ensures { Gives (λ x. x) result (ok_or NotFound (of_version id rest.now)) }
{
    match past(b"/", rest) {
        Some(digits) => {
            let version = number_of(digits).ok_or(RequestFault::NotFound)?;
            Ok(Resource::Download(id, version))
        }
        None => Err(RequestFault::NotFound),
    }
}

/// The version that the text behind the front of its link names.
#[tactic(auto, unfolding(crate::specs::Resources::download_of))]
pub fn download_of(text: &[u8]) -> Result<Resource, RequestFault>
    ensures { Gives (λ x. x) result (ok_or NotFound (download_of text.now)) }
{
    let (id, rest) = id_and_rest(text)?;
    of_version(id, rest)
}

#[tactic(auto, unfolding(crate::specs::Resources::session_of))]
fn session_of(digits: &[u8]) -> Result<Resource, RequestFault>
    ensures { Gives (λ x. x) result (ok_or NotFound (session_of digits.now)) }
{
    let session = number_of(digits).ok_or(RequestFault::NotFound)?;
    Ok(Resource::Session(session))
}

#[tactic(auto, unfolding(crate::specs::Resources::beside_drive))]
fn beside_drive(path: &[u8]) -> Result<Resource, RequestFault>
    ensures { Gives (λ x. x) result (ok_or NotFound (beside_drive path.now)) }
{
    match past(b"/v1.0/download/", path) {
        Some(rest) => download_of(rest),
        None => match past(b"/v1.0/upload/", path) {
            Some(digits) => session_of(digits),
            None => Err(RequestFault::NotFound),
        },
    }
}

#[tactic(auto, unfolding(crate::specs::Resources::resource_of))]
fn resource_of(alloc: Global, path: &[u8]) -> Result<Resource, RequestFault>
    ensures { Gives (λ x. x) result (ok_or NotFound (resource_of path.now)) }
{
    match past(b"/v1.0/me/drive/", path) {
        Some(rest) => in_drive(alloc, rest),
        None => match past(b"/v1.0/drives/gd1/", path) {
            Some(rest) => in_drive(alloc, rest),
            None => beside_drive(path),
        },
    }
}

/// What a target names, whatever its query is. Else it names nothing, or memory ran out.
#[tactic(auto, unfolding(crate::specs::Resources::named_by))]
pub fn named_by(alloc: Global, target: &[u8]) -> Result<Resource, RequestFault>
    ensures { Gives (λ x. x) result (ok_or NotFound (named_by target.now)) }
{
    if target == b"/v1.0/$batch".as_slice() {
        return Ok(Resource::Batch);
    }
    let (path, _) = cut(target, b'?');
    resource_of(alloc, path)
}
