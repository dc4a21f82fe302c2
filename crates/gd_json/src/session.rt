//! An upload session, and its status.
ghost use Rattle.std.specs.Prelude.{◌≡◌, ℕ, ◌<◌, ◌^◌, ◌++◌, Some, codes, IfOk, OnOk, option_map};
ghost use Rattle.std.specs.Fmt.{decimal};
ghost use Rattle.serde_json.specs.Data.{string, item, no_items, array};
ghost use Rattle.serde_json.specs.Find.{get};
ghost use Rattle.serde_json.specs.View.{view, items_view, members_view};
ghost use Rattle.serde_json.specs.Written.{compact_text};
ghost use Rattle.gd_json.specs.Bodies.{body, JsonBody};
ghost use Rattle.gd_json.specs.Faults.{Gives};
ghost use Rattle.gd_json.specs.Links.{upload_link, session_of_link};
ghost use Rattle.gd_json.specs.Members.{optional_as};
ghost use Rattle.gd_json.specs.Sessions.{expected_in, status_at, session_at, session_data};
ghost use Rattle.gd_json.specs.Writing.{put_optional};

use crate::fault::{JsonFault, Member};
use crate::link::{session_of, upload_link};
use crate::member::{needed_array, put_text, put_value, text_value};
use crate::number::expected_of;
use crate::text::{parse, print};
use crate::wire::Wire;
use crate::written::known_number;
use gd_names::{Bytes, NoMemory};
use serde_json::{Map, Value};
use std::alloc::Global;

/// The state of an upload session. Without the session it is the body of its status.
#[derive(Clone, Copy, Debug, PartialEq, Eq)]
pub struct SessionBody {
    pub session: Option<u64>,
    /// The number of the byte that is expected next.
    pub expected: u64,
}

#[tactic(auto, using(crate::proofs::Spelt::other_count))]
fn expected_in(ranges: &[Value]) -> Option<u64>
    ensures { result ≡ expected_in (items_view ranges.now) }
{
    match ranges {
        [range] => expected_of(range.as_str()?.as_bytes()),
        _ => None,
    }
}

#[tactic(auto, unfolding(crate::specs::Sessions::status_at))]
fn status_of(value: &Value) -> Result<u64, JsonFault>
    ensures { Gives (λ n. n) result (status_at (view value.now)) }
{
    let ranges = needed_array(value, "nextExpectedRanges", Member::NextExpectedRanges)?;
    expected_in(ranges).ok_or(JsonFault::BadMember(Member::NextExpectedRanges))
}

fn session_in(alloc: Global, value: &Value, wire: &Wire) -> Result<Option<u64>, JsonFault>
    ensures { Gives (λ o. o) result (optional_as Member.UploadUrl (session_of_link wire.now.base) (get (codes "uploadUrl") (view value.now))) }
{
    match value.get("uploadUrl") {
        None => Ok(None),
        Some(found) => match found.as_str() {
            None => Err(JsonFault::BadMember(Member::UploadUrl)),
            Some(link) => Ok(Some(session_of(alloc, wire, link)?)),
        },
    }
}

#[tactic(auto, unfolding(crate::specs::Sessions::session_at))]
fn session_body(alloc: Global, value: &Value, wire: &Wire) -> Result<SessionBody, JsonFault>
    ensures { Gives (λ x. x) result (session_at wire.now.base (view value.now)) }
{
    let session = session_in(alloc, value, wire)?;
    let expected = status_of(value)?;
    Ok(SessionBody { session, expected })
}

/// Reads a session, or its status: the value has a session exactly where the text has `uploadUrl`.
pub fn read_session(alloc: Global, bytes: &[u8], wire: &Wire) -> Result<SessionBody, JsonFault>
    ensures { Gives (λ x. x) result (body (session_at wire.now.base) bytes.now) }
{
    let value = parse(alloc, bytes)?;
    session_body(alloc, &value, wire)
}

/// Reads what a session's status tells, whatever else stands there, an `uploadUrl` that is none too.
pub fn read_status(alloc: Global, bytes: &[u8]) -> Result<u64, JsonFault>
    ensures { Gives (λ n. n) result (body status_at bytes.now) }
{
    let value = parse(alloc, bytes)?;
    status_of(&value)
}

fn ranges_value(alloc: Global, expected: u64) -> Result<Value, NoMemory>
    ensures { IfOk result (λ v. view v ≡ array (item (string (decimal expected ++ codes "-")) no_items)) }
{
    let text = format!(in alloc; "{expected}-")?;
    let range = text_value(alloc, text.as_str())?;
    let ranges = vec![in alloc; range]?;
    Ok(Value::Array(ranges))
}

fn put_session(
    alloc: Global,
    map: &mut Map<String, Value>,
    session: Option<u64>,
    wire: &Wire,
) -> Result<(), NoMemory>
    ensures { OnOk result (members_view map.new.entries ≡ put_optional (codes "uploadUrl") (option_map (λ n. string (upload_link wire.now.base n)) session) (members_view map.old.entries)) }
{
    match session {
        None => Ok(()),
        Some(session) => {
            let link = upload_link(alloc, wire, session)?;
            put_text(alloc, map, "uploadUrl", link.as_str())
        }
    }
}

fn session_value(alloc: Global, body: &SessionBody, wire: &Wire) -> Result<Value, NoMemory>
    ensures { IfOk result (λ v. view v ≡ session_data wire.now.base body.now) }
{
    let mut map = Map::new(alloc);
    put_text(
        alloc,
        &mut map,
        "expirationDateTime",
        "2099-01-01T00:00:00Z",
    )?;
    let ranges = ranges_value(alloc, body.expected)?;
    put_value(alloc, &mut map, "nextExpectedRanges", ranges)?;
    put_session(alloc, &mut map, body.session, wire)?;
    Ok(Value::Object(map))
}

fn known_session(session: Option<u64>)
    ensures { (n : ℕ) → session ≡ Some n → n < 2 ^ 64 }
{
    match session {
        Some(number) => known_number(number),
        None => {}
    }
}

/// Writes a session, or its status.
pub fn write_session(alloc: Global, body: &SessionBody, wire: &Wire) -> Result<Bytes, NoMemory>
    ensures text { IfOk result (λ b. b ≡ compact_text (session_data wire.now.base body.now)) }
    ensures read_again { IfOk result (λ b. JsonBody (session_at wire.now.base) body.now b) }
{
    known_number(body.expected);
    known_session(body.session);
    let value = session_value(alloc, body, wire)?;
    print(alloc, &value)
}
