//! Writing requests.
ghost use Rattle.std.specs.Prelude.{◌≡◌, ◌++◌, length, IfOk, OnOk, option_map, string_bytes};
ghost use Rattle.std.specs.Fmt.{decimal};
ghost use Rattle.gd_http.specs.Written.{field_text, method_text, version_end, line_text, host_text, condition_text, condition_header, range_value, range_header, json_of, bytes_of, or_bytes, type_text, length_text, body_text, first_part, last_part, written_request};
ghost use Rattle.gd_target.specs.Targets.{target_text};
ghost use Rattle.gd_http.specs.Hearing.{RequestBytes};
ghost use Rattle.gd_http.specs.Sending.{IsSendable, HasBody};

use crate::incoming::Incoming;
use crate::known::known_request;
use gd_item::{Condition, Request};
use gd_json::{BeginBody, FolderBody, PatchBody, Wire, write_begin, write_folder, write_patch};
use gd_names::{Bytes, NoMemory};
use gd_target::{put_both, put_target};
use std::alloc::Global;

/// Appends a header.
#[tactic(auto, unfolding(crate::specs::Written::field_text))]
pub fn put_field(out: &mut Bytes, name: &[u8], value: &[u8]) -> Result<(), NoMemory>
    ensures { OnOk result (out.new ≡ out.old ++ field_text name.now value.now) }
{
    put_both(out, name, b": ")?;
    put_both(out, value, b"\r\n")?;
    Ok(())
}

fn method_text(request: &Request) -> &'static [u8]
    ensures { result.now ≡ method_text request.now }
{
    match request {
        Request::Get { .. }
        | Request::Children { .. }
        | Request::Content { .. }
        | Request::Download { .. }
        | Request::SessionStatus { .. }
        | Request::Delta { .. } => b"GET",
        Request::MakeFolder { .. } | Request::OpenSession { .. } | Request::Finish { .. } => {
            b"POST"
        }
        Request::Put { .. } | Request::Fragment { .. } => b"PUT",
        Request::Patch { .. } => b"PATCH",
        Request::Delete { .. } | Request::CancelSession { .. } => b"DELETE",
    }
}

#[tactic(auto, unfolding(crate::specs::Written::version_end))]
fn put_version_end(out: &mut Bytes) -> Result<(), NoMemory>
    ensures { OnOk result (out.new ≡ out.old ++ version_end) }
{
    out.push_slice(b" HTTP/1.1\r\n")
}

#[tactic(auto, unfolding(crate::specs::Written::line_text))]
fn put_line(alloc: Global, out: &mut Bytes, request: &Request) -> Result<(), NoMemory>
    ensures { OnOk result (out.new ≡ out.old ++ line_text request.now) }
{
    put_both(out, method_text(request), b" ")?;
    put_target(alloc, out, request)?;
    put_version_end(out)?;
    Ok(())
}

#[tactic(auto, unfolding(crate::specs::Written::host_text))]
fn put_host(out: &mut Bytes, wire: &Wire) -> Result<(), NoMemory>
    ensures { OnOk result (out.new ≡ out.old ++ host_text wire.now.base) }
{
    let base = wire.base.as_bytes();
    put_field(out, b"Host", &base[base.len().min(7)..])
}

#[tactic(auto, unfolding(crate::specs::Written::condition_text))]
fn put_match(out: &mut Bytes, condition: &Condition) -> Result<(), NoMemory>
    ensures { OnOk result (out.new ≡ out.old ++ condition_text condition.now) }
{
    match condition {
        Condition::Free => Ok(()),
        Condition::Match(text) => put_field(out, b"If-Match", text.as_bytes()),
    }
}

fn put_condition(out: &mut Bytes, request: &Request) -> Result<(), NoMemory>
    ensures { OnOk result (out.new ≡ out.old ++ condition_header request.now) }
{
    match request {
        Request::Put { condition, .. }
        | Request::Patch { condition, .. }
        | Request::Delete { condition, .. }
        | Request::OpenSession { condition, .. } => put_match(out, condition),
        _ => Ok(()),
    }
}

#[tactic(auto, unfolding(crate::specs::Written::range_value))]
fn range_value(alloc: Global, first: u64, last: u64, total: u64) -> Result<String, NoMemory>
    ensures { IfOk result (λ s. string_bytes s ≡ range_value first last total) }
{
    let text = format!(in alloc; "bytes {first}-{last}/{total}")?;
    Ok(text)
}

fn put_range(alloc: Global, out: &mut Bytes, request: &Request) -> Result<(), NoMemory>
    ensures { OnOk result (out.new ≡ out.old ++ range_header request.now) }
{
    match request {
        Request::Fragment {
            first,
            last,
            total,
            ..
        } => {
            let value = range_value(alloc, *first, *last, *total)?;
            put_field(out, b"Content-Range", value.as_bytes())
        }
        _ => Ok(()),
    }
}

/// The body in JSON, of the requests that have one.
fn json_of(alloc: Global, request: &Request) -> Result<Option<Bytes>, NoMemory>
    ensures is { IfOk result (λ json. json ≡ json_of request.now) }
    ensures read_again { OnOk result (HasBody request.now) }
{
    match request {
        Request::MakeFolder {
            name,
            behaviour,
            ..
        } => {
            let body = FolderBody {
                name: name.clone()?,
                behaviour: *behaviour,
            };
            let json = write_folder(alloc, &body)?;
            Ok(Some(json))
        }
        Request::Patch { name, parent, .. } => {
            let body = PatchBody {
                name: name.clone()?,
                parent: *parent,
            };
            let json = write_patch(alloc, &body)?;
            Ok(Some(json))
        }
        Request::OpenSession {
            name,
            behaviour,
            defer,
            ..
        } => {
            let body = BeginBody {
                name: name.clone()?,
                behaviour: *behaviour,
                defer: *defer,
            };
            let json = write_begin(alloc, &body)?;
            Ok(Some(json))
        }
        _ => Ok(None),
    }
}

fn bytes_of(request: &Request) -> &[u8]
    ensures { result.now ≡ bytes_of request.now }
{
    match request {
        Request::Put { bytes, .. } | Request::Fragment { bytes, .. } => bytes.as_slice(),
        _ => &[],
    }
}

#[tactic(auto, unfolding(crate::specs::Written::type_text))]
pub fn put_type(out: &mut Bytes, json: &Option<Bytes>) -> Result<(), NoMemory>
    ensures { OnOk result (out.new ≡ out.old ++ type_text json.now) }
{
    match json {
        None => Ok(()),
        Some(_) => put_field(out, b"Content-Type", b"application/json"),
    }
}

#[tactic(auto, unfolding(crate::specs::Written::length_text))]
pub fn put_length(alloc: Global, out: &mut Bytes, length: usize) -> Result<(), NoMemory>
    ensures { OnOk result (out.new ≡ out.old ++ length_text length) }
{
    let digits = format!(in alloc; "{length}")?;
    put_field(out, b"Content-Length", digits.as_bytes())
}

/// Appends an empty line and the body.
#[tactic(auto, unfolding(crate::specs::Written::body_text))]
pub fn put_body(out: &mut Bytes, body: &[u8]) -> Result<(), NoMemory>
    ensures { OnOk result (out.new ≡ out.old ++ body_text body.now) }
{
    put_both(out, b"\r\n", body)
}

fn put_first(alloc: Global, out: &mut Bytes, request: &Request, wire: &Wire) -> Result<(), NoMemory>
    ensures { OnOk result (out.new ≡ out.old ++ first_part wire.now.base request.now) }
{
    put_line(alloc, out, request)?;
    put_host(out, wire)?;
    put_condition(out, request)?;
    put_range(alloc, out, request)?;
    Ok(())
}

fn put_last(
    alloc: Global,
    out: &mut Bytes,
    json: &Option<Bytes>,
    body: &[u8],
) -> Result<(), NoMemory>
    ensures { OnOk result (out.new ≡ out.old ++ last_part json.now body.now) }
{
    put_type(out, json)?;
    put_length(alloc, out, body.len())?;
    put_body(out, body)?;
    Ok(())
}

pub fn or_bytes<'b>(json: &'b Option<Bytes>, bytes: &'b [u8]) -> &'b [u8]
    ensures { result.now ≡ or_bytes json.now bytes.entry.now }
{
    match json {
        Some(json) => json.as_slice(),
        None => bytes,
    }
}

#[tactic(auto, unfolding(crate::specs::Written::written_request))]
fn spelling(alloc: Global, request: &Request, wire: &Wire) -> Result<Bytes, NoMemory>
    ensures text { IfOk result (λ b. b ≡ written_request wire.now.base request.now) }
    ensures has { OnOk result (HasBody request.now) }
{
    let json = json_of(alloc, request)?;
    let mut out = Bytes::new(alloc);
    put_first(alloc, &mut out, request, wire)?;
    put_last(alloc, &mut out, &json, or_bytes(&json, bytes_of(request)))?;
    Ok(out)
}

/// Writes a request in its one spelling. Within the limits it is read again as what it was.
pub fn write_request(alloc: Global, request: &Request, wire: &Wire) -> Result<Bytes, NoMemory>
    ensures text { IfOk result (λ b. b ≡ written_request wire.now.base request.now) }
    ensures read_again { IfOk result (λ b. IsSendable wire.now.base request.now → RequestBytes b (Incoming.Ask request.now)) }
{
    known_request(request);
    let out = spelling(alloc, request, wire)?;
    Ok(out)
}
