use gd_frame::{MessageCause, ReadStep, ReplyEnd, ReplyFrames, RequestFrames, number, reply_end};
use std::test::Fail;

const GET: &[u8] =
    b"GET /v1.0/me/drive/root/delta HTTP/1.1\r\nHost: 127.0.0.1:8080\r\nContent-Length: 0\r\n\r\n";

const NOT_FOUND: &[u8] =
    b"HTTP/1.1 404 Not Found\r\nContent-Type: application/json\r\nContent-Length: 58\r\n\r\n{\"error\":{\"code\":\"itemNotFound\",\"message\":\"itemNotFound\"}}";

fn cause_name(cause: MessageCause) -> &'static str {
    match cause {
        MessageCause::Head => "Head",
        MessageCause::Coding => "Coding",
        MessageCause::Framing => "Framing",
        MessageCause::Body => "Body",
        MessageCause::Meaning => "Meaning",
    }
}

fn step_name<F>(step: &ReadStep<F>) -> &'static str {
    match step {
        ReadStep::Need => "need",
        ReadStep::Done(_, _) => "done",
        ReadStep::Bad { place: _, cause } => cause_name(*cause),
    }
}

/// What the bytes are as a request, in one piece.
fn request(rt: &HostRuntime, bytes: &[u8]) -> Result<&'static str, Fail> {
    let mut frames = RequestFrames::new(rt.alloc());
    Ok(step_name(&frames.feed(bytes)?))
}

/// What the bytes are as a request that comes byte by byte.
fn request_by_bytes(rt: &HostRuntime, bytes: &[u8]) -> Result<&'static str, Fail> {
    let mut frames = RequestFrames::new(rt.alloc());
    let mut name = "need";
    for byte in bytes {
        name = step_name(&frames.feed(&[*byte])?);
    }
    Ok(name)
}

/// What the bytes are as a reply, in one piece.
fn reply(rt: &HostRuntime, bytes: &[u8]) -> Result<&'static str, Fail> {
    let mut frames = ReplyFrames::new(rt.alloc());
    Ok(step_name(&frames.feed(bytes)?))
}

/// The front, the part so many times, and the end.
fn repeated(
    rt: &HostRuntime,
    front: &[u8],
    part: &[u8],
    count: usize,
    end: &[u8],
) -> Result<Vec<u8>, Fail> {
    let mut bytes = front.to_vec(rt.alloc())?;
    for _ in 0..count {
        bytes.extend_from_slice(part)?;
    }
    bytes.extend_from_slice(end)?;
    Ok(bytes)
}

#[test]
fn single_bytes_make_one_request(rt: HostRuntime) -> Result<(), Fail> {
    let mut frames = RequestFrames::new(rt.alloc());
    let mut needs: usize = 0;
    let mut used: usize = 0;
    for byte in GET {
        match frames.feed(&[*byte])? {
            ReadStep::Need => needs = needs.saturating_add(1),
            ReadStep::Done(_, last) => used = last,
            ReadStep::Bad { place: _, cause: _ } => needs = 0,
        }
    }
    assert_eq!(rt; needs, 82);
    assert_eq!(rt; used, 1);
    assert!(rt; frames.between());
    Ok(())
}

#[test]
fn requests_are_told_apart(rt: HostRuntime) -> Result<(), Fail> {
    let rows: [(&[u8], &str); 18] = [
        (b"GET /x HTTP/1.1\r\n\r\n", "done"),
        (b"GET /x HTTP/1.1\r\nContent-Length: 000\r\n\r\n", "done"),
        (b"PUT /x HTTP/1.1\r\ncontent-LENGTH: 02\r\n\r\nhi", "done"),
        (b"PUT /x HTTP/1.1\r\nContent-Length: 3\r\n\r\nhi", "need"),
        (
            b"PUT /x HTTP/1.1\r\nContent-Length: 67108864\r\n\r\n",
            "need",
        ),
        (
            b"PUT /x HTTP/1.1\r\nContent-Length: 67108865\r\n\r\n",
            "Body",
        ),
        (
            b"PUT /x HTTP/1.1\r\nContent-Length: 18446744073709551615\r\n\r\n",
            "Body",
        ),
        (
            b"PUT /x HTTP/1.1\r\nContent-Length: 18446744073709551616\r\n\r\n",
            "Framing",
        ),
        (
            b"PUT /x HTTP/1.1\r\nContent-Length: +2\r\n\r\nhi",
            "Framing",
        ),
        (
            b"PUT /x HTTP/1.1\r\nContent-Length: 2, 2\r\n\r\nhi",
            "Framing",
        ),
        (b"PUT /x HTTP/1.1\r\nContent-Length:\r\n\r\n", "Framing"),
        (
            b"PUT /x HTTP/1.1\r\nContent-Length: 1\r\nContent-Length: 1\r\n\r\nx",
            "Framing",
        ),
        (b"GET /x HTTP/1.1\r\nTransfer-Encoding: chunked\r\n", "need"),
        (
            b"GET /x HTTP/1.1\r\nTransfer-Encoding: chunked\r\nContent-Length: 1\r\nContent-Length: x\r\n\r\n",
            "Coding",
        ),
        (b"GET /x HTTP/2\r\n", "Head"),
        (b"GET /\xff", "need"),
        (b"GET /\xff HTTP", "Head"),
        (b"\r\n", "need"),
    ];
    for (bytes, want) in rows {
        assert_eq!(rt; request(&rt, bytes)?, want);
    }
    Ok(())
}

#[test]
fn targets_beyond_ascii_come_byte_by_byte(rt: HostRuntime) -> Result<(), Fail> {
    let rows: [(&[u8], &str); 6] = [
        (
            b"GET /\xc3\xa9\xe2\x82\xac\xf0\x9f\x98\x80 HTTP/1.1\r\n\r\n",
            "done",
        ),
        (b"GET \xf4\x8f\xbf\xbf/\xed\x9f\xbf HTTP/1.1\r\n", "need"),
        (b"GET /\xed\xa0\x80", "need"),
        (b"GET /\xed\xa0\x80 ", "Head"),
        (b"GET /\xe2\x82 ", "Head"),
        (b"GET /\xff\n", "Head"),
    ];
    for (bytes, want) in rows {
        assert_eq!(rt; request_by_bytes(&rt, bytes)?, want);
        assert_eq!(rt; request(&rt, bytes)?, want);
    }
    Ok(())
}

#[test]
fn limits_wait_for_the_head(rt: HostRuntime) -> Result<(), Fail> {
    let line: &[u8] = b"GET /x HTTP/1.1\r\n";
    let coding: &[u8] = b"GET /x HTTP/1.1\r\nTransfer-Encoding: x\r\nx: ";
    let rows: [(&[u8], &[u8], usize, &[u8], &str); 7] = [
        (line, b"x: y\r\n", 64, b"\r\n", "done"),
        (line, b"x: y\r\n", 65, b"", "need"),
        (line, b"x: y\r\n", 65, b"\r\n", "Head"),
        (
            b"GET /x HTTP/1.1\r\nTransfer-Encoding: chunked\r\n",
            b"x: y\r\n",
            64,
            b"\r\n",
            "Head",
        ),
        (b"GET /x HTTP/1.1\n", b"a:\n", 65, b"\0", "Head"),
        (coding, b"y", 65480, b"", "need"),
        (coding, b"y", 65494, b"", "Head"),
    ];
    for (front, part, count, end, want) in rows {
        let bytes = repeated(&rt, front, part, count, end)?;
        assert_eq!(rt; request(&rt, bytes.as_slice())?, want);
    }
    Ok(())
}

#[test]
fn a_bad_message_is_told_where_it_begins(rt: HostRuntime) -> Result<(), Fail> {
    let bytes = repeated(
        &rt,
        GET,
        b"GET /x HTTP/1.1\r\nTransfer-Encoding: chunked\r\n\r\n",
        1,
        b"",
    )?;
    let mut frames = RequestFrames::new(rt.alloc());
    let used = match frames.feed(bytes.as_slice())? {
        ReadStep::Done(_, used) => used,
        _ => 0,
    };
    assert_eq!(rt; used, 83);
    for _ in 0..2 {
        let bad = match frames.feed(&bytes.as_slice()[83..])? {
            ReadStep::Bad { place, cause } => (place, cause_name(cause)),
            _ => (0, "none"),
        };
        assert_eq!(rt; bad, (83, "Coding"));
    }
    Ok(())
}

#[test]
fn a_body_comes_in_pieces(rt: HostRuntime) -> Result<(), Fail> {
    let mut frames = RequestFrames::new(rt.alloc());
    assert_eq!(rt; frames.held(), 0);
    assert_eq!(rt;
        step_name(&frames.feed(b"PUT /x HTTP/1.0\r\nA:  b \r\nContent-Length: 5\r\n\r\nh")?),
        "need"
    );
    assert_eq!(rt; step_name(&frames.feed(b"el")?), "need");
    assert_eq!(rt; frames.held(), 49);
    match frames.feed(b"loGET")? {
        ReadStep::Done(frame, used) => {
            assert_eq!(rt; used, 2);
            assert!(rt; frame.method.as_slice() == b"PUT".as_slice());
            assert!(rt; frame.target.as_slice() == b"/x".as_slice());
            assert_eq!(rt; frame.minor, 0);
            assert!(rt; frame.body.as_slice() == b"hello".as_slice());
            assert_eq!(rt; frame.fields.len(), 2);
            assert!(rt; frame.fields.as_slice()[0].name.as_slice() == b"A".as_slice());
            assert!(rt; frame.fields.as_slice()[0].value.as_slice() == b"b".as_slice());
        }
        _ => panic!(rt; "no request"),
    }
    Ok(())
}

#[test]
fn replies_are_told_apart(rt: HostRuntime) -> Result<(), Fail> {
    let rows: [(&[u8], &str); 5] = [
        (NOT_FOUND, "done"),
        (b"HTTP/1.1 204 No Content\r\n\r\n", "done"),
        (b"HTTP/1.1 200 OK\r\n\r\n", "Framing"),
        (b"HTTP/1.1 299 X\r\nContent-Length: 1\r\n\r\n", "need"),
        (b"HTTP/1.1 299 X\r\nContent-Length: 1\r\n\r\nx", "done"),
    ];
    for (bytes, want) in rows {
        assert_eq!(rt; reply(&rt, bytes)?, want);
    }
    Ok(())
}

#[test]
fn a_reply_ends_with_its_body(rt: HostRuntime) -> Result<(), Fail> {
    let more = repeated(&rt, NOT_FOUND, b"H", 1, b"")?;
    assert_eq!(rt; reply_end(more.as_slice()), ReplyEnd::Whole(136));
    assert_eq!(rt; reply_end(&more.as_slice()[..20]), ReplyEnd::Need);
    assert_eq!(rt; reply_end(b"HTTP/1.1 200 OK\r\n\r\n"), ReplyEnd::Bad);
    Ok(())
}

#[test]
fn numbers_have_digits_alone(rt: HostRuntime) {
    assert_eq!(rt; number(b"007"), Some(7));
    assert_eq!(rt; number(b"18446744073709551616"), None);
    assert_eq!(rt; number(b""), None);
}
