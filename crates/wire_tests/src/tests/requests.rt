use super::replies::cause_name;
use super::wire;
use gd_http::{Incoming, ReadStep, RequestReader};
use gd_item::RequestKind;
use std::alloc::Global;
use std::test::Fail;

pub fn kind_name(kind: RequestKind) -> &'static str {
    match kind {
        RequestKind::Get => "get",
        RequestKind::Children => "children",
        RequestKind::MakeFolder => "mkdir",
        RequestKind::Put => "put",
        RequestKind::Patch => "patch",
        RequestKind::Delete => "delete",
        RequestKind::Content => "content",
        RequestKind::Download => "download",
        RequestKind::OpenSession => "session",
        RequestKind::Fragment => "fragment",
        RequestKind::SessionStatus => "status",
        RequestKind::CancelSession => "cancel",
        RequestKind::Finish => "finish",
        RequestKind::Delta => "delta",
    }
}

fn refusal_name(status: u16) -> &'static str {
    match status {
        400 => "400",
        404 => "404",
        405 => "405",
        _ => "refused",
    }
}

fn message_name(message: &Incoming) -> &'static str {
    match message {
        Incoming::Ask(request) => kind_name(request.kind()),
        Incoming::Refuse { status, .. } => refusal_name(*status),
        Incoming::Batch(_) => "batch",
        Incoming::Versions(_) => "versions",
        Incoming::Restore(_, _) => "restore",
    }
}

fn step_name(step: &ReadStep<Incoming>) -> &'static str {
    match step {
        ReadStep::Need => "need",
        ReadStep::Done(message, _) => message_name(message),
        ReadStep::Bad { cause, .. } => cause_name(*cause),
    }
}

/// What the bytes are as a request.
fn heard(alloc: Global, bytes: &[u8]) -> Result<&'static str, Fail> {
    let mut reader = RequestReader::new(alloc, wire(alloc)?)?;
    Ok(step_name(&reader.feed(bytes)?))
}

/// What a request is without headers.
fn bare(alloc: Global, line: &str) -> Result<&'static str, Fail> {
    let text = format!(in alloc; "{line} HTTP/1.1\r\n\r\n")?;
    heard(alloc, text.as_bytes())
}

/// What a request is with one header.
fn with_header(alloc: Global, line: &str, header: &str) -> Result<&'static str, Fail> {
    let text = format!(in alloc; "{line} HTTP/1.1\r\n{header}\r\n\r\n")?;
    heard(alloc, text.as_bytes())
}

/// What a request is with a body.
fn with_body(alloc: Global, line: &str, body: &str) -> Result<&'static str, Fail> {
    let length = body.len();
    let text = format!(in alloc; "{line} HTTP/1.1\r\nContent-Length: {length}\r\n\r\n{body}")?;
    heard(alloc, text.as_bytes())
}

#[test]
fn targets_name_what_is_asked(rt: HostRuntime) -> Result<(), Fail> {
    for (line, what) in [
        ("GET /v1.0/me/drive/root", "get"),
        ("GET /v1.0/drives/gd1/root", "get"),
        ("GET /v1.0/drives/gd2/root", "404"),
        ("GET /v1.0/me/drive", "404"),
        ("GET /v1.0/me/drive/root/", "404"),
        ("GET /v1.0/me/drive/root/x", "404"),
        ("GET /v1.0/me/drive/root:", "404"),
        ("GET /v1.0/me/drive/root:/", "get"),
        ("GET /v1.0/me/drive/root:/a%20b/c", "get"),
        ("GET /v1.0/me/drive/root:/a:", "get"),
        ("GET /v1.0/me/drive/root:/a%2Fb", "404"),
        ("GET /v1.0/me/drive/root:/a%00b", "404"),
        ("GET /v1.0/me/drive/root:/a%ffb", "404"),
        ("GET /v1.0/me/drive/root:/a:b", "404"),
        ("GET /v1.0/me/drive/root:/a/", "404"),
        ("GET /v1.0/me/drive/items/01GD0000000000000002", "get"),
        ("GET /v1.0/me/drive/items/01GD000000000000000a", "404"),
        ("GET /v1.0/me/drive/items/01GD0000000000000002:/a", "get"),
        ("GET /v1.0/me/drive/items/01GD0000000000000002:/a/b", "404"),
        ("GET /v1.0/me/drive/root/content", "content"),
        ("GET /v1.0/me/drive/root:/a:/content", "content"),
        ("GET /v1.0/me/drive/root/delta", "delta"),
        ("GET /v1.0/me/drive/root:/a:/delta", "404"),
        (
            "GET /v1.0/me/drive/items/01GD0000000000000002/versions",
            "versions",
        ),
        (
            "POST /v1.0/me/drive/items/01GD0000000000000002/versions/4/restoreVersion",
            "restore",
        ),
        ("GET /v1.0/me/drive/root/versions", "404"),
        ("POST /v1.0/$batch", "batch"),
        ("GET /v1.0/$batch?x", "404"),
        ("GET http://127.0.0.1:8080/v1.0/me/drive/root", "404"),
        ("GET /x", "404"),
    ] {
        assert_eq!(rt; bare(rt.alloc(), line)?, what, "{line}");
    }
    Ok(())
}

#[test]
fn numbers_in_targets_may_begin_with_zeros(rt: HostRuntime) -> Result<(), Fail> {
    for (line, what) in [
        ("GET /v1.0/upload/0000000000000000000000000000001", "status"),
        ("GET /v1.0/upload/18446744073709551615", "status"),
        ("GET /v1.0/upload/18446744073709551616", "404"),
        ("GET /v1.0/upload/", "404"),
        ("GET /v1.0/upload/+1", "404"),
        ("GET /v1.0/download/01GD0000000000000002/007", "download"),
        ("GET /v1.0/download/01GD0000000000000002/", "404"),
    ] {
        assert_eq!(rt; bare(rt.alloc(), line)?, what, "{line}");
    }
    Ok(())
}

#[test]
fn targets_have_their_methods(rt: HostRuntime) -> Result<(), Fail> {
    for (line, what) in [
        ("get /v1.0/me/drive/root", "405"),
        ("PUT /v1.0/me/drive/root", "405"),
        ("HEAD /x", "404"),
        ("DELETE /v1.0/me/drive/root/children", "405"),
        ("POST /v1.0/me/drive/root/content", "405"),
        ("GET /v1.0/me/drive/root/createUploadSession", "405"),
        ("POST /v1.0/me/drive/root/delta", "405"),
        ("POST /v1.0/download/01GD0000000000000002/1", "405"),
        ("PATCH /v1.0/upload/1", "405"),
        ("DELETE /v1.0/upload/1", "cancel"),
        ("POST /v1.0/upload/1", "finish"),
        ("GET /v1.0/$batch", "405"),
        (
            "POST /v1.0/me/drive/items/01GD0000000000000002/versions",
            "405",
        ),
    ] {
        assert_eq!(rt; bare(rt.alloc(), line)?, what, "{line}");
    }
    Ok(())
}

#[test]
fn queries_have_each_member_once(rt: HostRuntime) -> Result<(), Fail> {
    let put = "PUT /v1.0/me/drive/root:/a:/content";
    let list = "GET /v1.0/me/drive/root/children";
    let feed = "GET /v1.0/me/drive/root/delta";
    for (front, query, what) in [
        (put, "@microsoft.graph.conflictBehavior=fail", "put"),
        (put, "%40microsoft.graph.conflictBehavior=rename", "put"),
        (put, "@microsoft.graph.conflictBehavior=Fail", "400"),
        (put, "@Microsoft.graph.conflictBehavior=Fail", "put"),
        (
            put,
            "@microsoft.graph.conflictBehavior=fail&%40microsoft.graph.conflictBehavior=replace",
            "400",
        ),
        (list, "x&$skiptoken=a%20b", "children"),
        (list, "$skiptoken=a%2Fb", "400"),
        (list, "$skiptoken=", "400"),
        (list, "$skiptoken=a&$skiptoken=a", "400"),
        (feed, "token", "delta"),
        (feed, "token=", "delta"),
        (feed, "token=t1%2E1.1", "delta"),
        (feed, "token=a&token=a", "400"),
        (feed, "", "delta"),
    ] {
        let line = format!(in rt.alloc(); "{front}?{query}")?;
        assert_eq!(rt; bare(rt.alloc(), line.as_str())?, what, "{query}");
    }
    Ok(())
}

#[test]
fn headers_are_read(rt: HostRuntime) -> Result<(), Fail> {
    let remove = "DELETE /v1.0/me/drive/items/01GD0000000000000002";
    let send = "PUT /v1.0/upload/1";
    for (line, header, what) in [
        (remove, "If-Match: e1", "delete"),
        (remove, "If-Match:", "delete"),
        (remove, "If-Match: e1\r\nif-match: *", "400"),
        (send, "Content-Range: bytes 00-01/02", "fragment"),
        (send, "content-range: bytes 0-1/2", "fragment"),
        (send, "Content-Range: Bytes 0-1/2", "400"),
        (send, "Content-Range: bytes 0-1/*", "400"),
        (send, "Content-Range: bytes 0-1", "400"),
        (send, "Content-Range: bytes 0-1/18446744073709551616", "400"),
        (
            send,
            "Content-Range: bytes 0-1/2\r\nContent-Range: bytes 0-1/2",
            "400",
        ),
        (send, "Expect: 100-continue", "400"),
        (
            "GET /v1.0/me/drive/root",
            "If-Match: e1\r\nIf-Match: *",
            "get",
        ),
    ] {
        assert_eq!(rt; with_header(rt.alloc(), line, header)?, what, "{header}");
    }
    Ok(())
}

#[test]
fn a_condition_is_text(rt: HostRuntime) -> Result<(), Fail> {
    let bytes: &[u8] =
        b"DELETE /v1.0/me/drive/items/01GD0000000000000002 HTTP/1.1\r\nIf-Match: \xff\r\n\r\n";
    assert_eq!(rt; heard(rt.alloc(), bytes)?, "400");
    Ok(())
}

#[test]
fn bodies_are_read(rt: HostRuntime) -> Result<(), Fail> {
    let make = "POST /v1.0/me/drive/root/children";
    let change = "PATCH /v1.0/me/drive/items/01GD0000000000000002";
    let open = "POST /v1.0/me/drive/root:/a:/createUploadSession";
    for (line, body, what) in [
        (make, "{\"name\":\"con\",\"folder\":{}}", "mkdir"),
        (make, "{\"name\":\"\\u0000\",\"folder\":{}}", "mkdir"),
        (make, "{\"name\":\"a\"}", "400"),
        (make, "", "400"),
        (change, "{\"name\":\"b\",\"parentReference\":{}}", "patch"),
        (change, "{}", "patch"),
        (change, "{\"name\":null}", "400"),
        (change, "[]", "400"),
        (open, "", "session"),
        (open, "{\"item\":{\"name\":\"a\"}}", "session"),
        (open, "{\"item\":null}", "400"),
        (open, "5", "400"),
        ("GET /v1.0/me/drive/root", "hi", "get"),
        ("POST /v1.0/upload/1", "", "finish"),
        ("POST /v1.0/upload/1", "x", "400"),
        ("POST /v1.0/$batch", "5", "batch"),
    ] {
        assert_eq!(rt; with_body(rt.alloc(), line, body)?, what, "{line} {body}");
    }
    Ok(())
}

#[test]
fn hostile_bytes_have_a_cause(rt: HostRuntime) -> Result<(), Fail> {
    let rows: [(&[u8], &str); 12] = [
        (b"GET /x HTTP/1.1\nA: b\n\n", "404"),
        (b"GET /x HTTP/1.1\r\nA: b\r\n c\r\n\r\n", "Head"),
        (b"GET /x HTTP/1.1\r\nA: \0\r\n\r\n", "Head"),
        (b"GET /\0 HTTP/1.1\r\n\r\n", "Head"),
        (b"G@T /x HTTP/1.1\r\n\r\n", "Head"),
        (b"PUT /x HTTP/1.1\r\ncONTENT-lENGTH: 02\r\n\r\nhi", "404"),
        (b"PUT /x HTTP/1.1\r\nContent-Length: -1\r\n\r\n", "Framing"),
        (b"PUT /x HTTP/1.1\r\nContent-Length: 1 1\r\n\r\n", "Framing"),
        (
            b"PUT /x HTTP/1.1\r\nContent-Length: 1\r\ncontent-length: 1\r\n\r\nx",
            "Framing",
        ),
        (
            b"PUT /x HTTP/1.1\r\nContent-Length: 67108864\r\n\r\n",
            "need",
        ),
        (
            b"PUT /x HTTP/1.1\r\nContent-Length: 67108865\r\n\r\n",
            "Body",
        ),
        (
            b"PUT /x HTTP/1.1\r\nContent-Length: 18446744073709551616\r\n\r\n",
            "Framing",
        ),
    ];
    for (bytes, what) in rows {
        assert_eq!(rt; heard(rt.alloc(), bytes)?, what);
    }
    Ok(())
}
