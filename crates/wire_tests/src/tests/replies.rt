use super::requests::kind_name;
use super::wire;
use gd_http::{MessageCause, ReadStep, ReplyReader};
use gd_item::{Reply, RequestKind, Resync};
use std::alloc::Global;
use std::test::Fail;

const FILE: &str =
    "{\"eTag\":\"e2\",\"file\":{},\"id\":\"01GD0000000000000002\",\"name\":\"a\",\"parentReference\":{\"id\":\"01GD0000000000000001\",\"path\":\"/drive/root:\"},\"size\":1}";

const GONE: &str = "410 Gone\r\nLocation: http://127.0.0.1:8080/v1.0/me/drive/root/delta";

const UPLOAD: &str =
    "{\"error\":{\"code\":\"resyncChangesUploadDifferences\",\"message\":\"resyncChangesUploadDifferences\"}}";

const APPLY: &str = "{\"error\":{\"code\":\"resyncChangesApplyDifferences\"}}";

const LACKING: &str = "{\"error\":{\"code\":\"itemNotFound\"}}";

const RANGES: &str = "{\"uploadUrl\":5,\"nextExpectedRanges\":[\"5-\"]}";

fn gone_name(resync: Resync) -> &'static str {
    match resync {
        Resync::ApplyDifferences => "gone, apply",
        Resync::UploadDifferences => "gone, upload",
    }
}

fn reply_name(reply: &Reply) -> &'static str {
    match reply {
        Reply::Made(_) => "made",
        Reply::Is(_) => "is",
        Reply::Listed { .. } => "list",
        Reply::Done => "done",
        Reply::Found { .. } => "found",
        Reply::Content(_) => "bytes",
        Reply::Session { .. } => "session",
        Reply::Status { .. } => "status",
        Reply::More { .. } => "more",
        Reply::Page(_) => "page",
        Reply::Gone(resync) => gone_name(*resync),
        Reply::Refused { .. } => "refused",
    }
}

pub fn cause_name(cause: MessageCause) -> &'static str {
    match cause {
        MessageCause::Head => "Head",
        MessageCause::Coding => "Coding",
        MessageCause::Framing => "Framing",
        MessageCause::Body => "Body",
        MessageCause::Meaning => "Meaning",
    }
}

fn step_name(step: &ReadStep<Reply>) -> &'static str {
    match step {
        ReadStep::Need => "need",
        ReadStep::Done(reply, _) => reply_name(reply),
        ReadStep::Bad { cause, .. } => cause_name(*cause),
    }
}

/// What the bytes say to a request of this kind.
fn said(alloc: Global, kind: RequestKind, bytes: &[u8]) -> Result<&'static str, Fail> {
    let mut reader = ReplyReader::new(alloc, kind, wire(alloc)?)?;
    Ok(step_name(&reader.feed(bytes)?))
}

/// What a reply with a body says.
fn with_body(
    alloc: Global,
    kind: RequestKind,
    front: &str,
    body: &str,
) -> Result<&'static str, Fail> {
    let length = body.len();
    let text = format!(in alloc; "HTTP/1.1 {front}\r\nContent-Length: {length}\r\n\r\n{body}")?;
    said(alloc, kind, text.as_bytes())
}

#[test]
fn an_item_answers_some_kinds(rt: HostRuntime) -> Result<(), Fail> {
    for (kind, front, what) in [
        (RequestKind::Get, "200 OK", "is"),
        (RequestKind::Get, "200 Whatever", "is"),
        (RequestKind::Get, "201 Created", "Meaning"),
        (RequestKind::MakeFolder, "201 Created", "made"),
        (RequestKind::MakeFolder, "200 OK", "Meaning"),
        (RequestKind::Put, "201 Created", "made"),
        (RequestKind::Put, "200 OK", "is"),
        (RequestKind::Patch, "200 OK", "is"),
        (RequestKind::Fragment, "201 Created", "made"),
        (RequestKind::Fragment, "200 OK", "is"),
        (RequestKind::Finish, "201 Created", "made"),
        (RequestKind::Delete, "200 OK", "Meaning"),
        (RequestKind::Download, "200 OK", "bytes"),
        (RequestKind::Children, "200 OK", "Meaning"),
        (RequestKind::Delta, "200 OK", "Meaning"),
    ] {
        assert_eq!(rt;
            with_body(rt.alloc(), kind, front, FILE)?,
            what,
            "{kind:?} {front}"
        );
    }
    Ok(())
}

#[test]
fn errors_have_their_status(rt: HostRuntime) -> Result<(), Fail> {
    for (kind, front, body, what) in [
        (RequestKind::Get, "404 Not Found", LACKING, "refused"),
        (RequestKind::Get, "400 Bad Request", LACKING, "Meaning"),
        (RequestKind::Get, "404 Not Found", "", "Meaning"),
        (RequestKind::Get, "404 Not Found", "{}", "Meaning"),
        (RequestKind::Get, "410 Gone", APPLY, "refused"),
        (RequestKind::Delta, "404 Not Found", LACKING, "refused"),
        (RequestKind::Delta, "410 Gone", UPLOAD, "Meaning"),
        (RequestKind::Delta, GONE, UPLOAD, "gone, upload"),
        (RequestKind::Delta, GONE, APPLY, "gone, apply"),
        (RequestKind::Delta, GONE, LACKING, "Meaning"),
        (RequestKind::Delta, GONE, "", "Meaning"),
    ] {
        assert_eq!(rt;
            with_body(rt.alloc(), kind, front, body)?,
            what,
            "{front} {body}"
        );
    }
    Ok(())
}

#[test]
fn links_say_where_the_bytes_are(rt: HostRuntime) -> Result<(), Fail> {
    for (kind, location, what) in [
        (
            RequestKind::Content,
            "Location: http://127.0.0.1:8080/v1.0/download/01GD0000000000000002/007",
            "found",
        ),
        (
            RequestKind::Content,
            "location: http://127.0.0.1:8080/v1.0/download/01GD0000000000000002/7",
            "found",
        ),
        (
            RequestKind::Content,
            "Location: http://127.0.0.1:8081/v1.0/download/01GD0000000000000002/7",
            "Meaning",
        ),
        (
            RequestKind::Content,
            "Location: http://127.0.0.1:8080/v1.0/upload/7",
            "Meaning",
        ),
        (
            RequestKind::Get,
            "Location: http://127.0.0.1:8080/v1.0/download/01GD0000000000000002/7",
            "Meaning",
        ),
        (RequestKind::Content, "Place: here", "Meaning"),
    ] {
        let front = format!(in rt.alloc(); "302 Found\r\n{location}")?;
        assert_eq!(rt;
            with_body(rt.alloc(), kind, front.as_str(), "hi")?,
            what,
            "{location}"
        );
    }
    Ok(())
}

#[test]
fn sessions_answer_by_what_is_expected(rt: HostRuntime) -> Result<(), Fail> {
    for (kind, front, what) in [
        (RequestKind::SessionStatus, "200 OK", "status"),
        (RequestKind::Fragment, "202 Accepted", "more"),
        (RequestKind::SessionStatus, "202 Accepted", "Meaning"),
        (RequestKind::OpenSession, "200 OK", "Meaning"),
    ] {
        assert_eq!(rt;
            with_body(rt.alloc(), kind, front, RANGES)?,
            what,
            "{front}"
        );
    }
    Ok(())
}

#[test]
fn tokens_of_links_are_plain(rt: HostRuntime) -> Result<(), Fail> {
    for (token, what) in [
        ("x", "page"),
        ("t1.5.5", "page"),
        ("a&b", "Meaning"),
        ("", "Meaning"),
    ] {
        let body = format!(in rt.alloc();
            "{{\"@odata.nextLink\":\"http://127.0.0.1:8080/v1.0/me/drive/root/delta?token={token}\",\"value\":[]}}"
        )?;
        assert_eq!(rt;
            with_body(rt.alloc(), RequestKind::Delta, "200 OK", body.as_str())?,
            what,
            "{token}"
        );
    }
    Ok(())
}

#[test]
fn replies_without_a_length(rt: HostRuntime) -> Result<(), Fail> {
    let plain: &[u8] = b"HTTP/1.1 204 No Content\r\n\r\n";
    let rows: [(RequestKind, &[u8], &str); 6] = [
        (RequestKind::Delete, plain, "done"),
        (RequestKind::CancelSession, plain, "done"),
        (RequestKind::Get, plain, "Meaning"),
        (RequestKind::Get, b"HTTP/1.1 200 OK\r\n\r\n", "Framing"),
        (
            RequestKind::Get,
            b"HTTP/1.1 299 X\r\nContent-Length: 1\r\n\r\n",
            "need",
        ),
        (
            RequestKind::Get,
            b"HTTP/1.1 299 X\r\nContent-Length: 1\r\n\r\nx",
            "Meaning",
        ),
    ];
    for (kind, bytes, what) in rows {
        assert_eq!(rt; said(rt.alloc(), kind, bytes)?, what, "{}", kind_name(kind));
    }
    Ok(())
}
