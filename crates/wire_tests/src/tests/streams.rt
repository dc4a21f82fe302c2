use super::bytes::{FRESH, NOT_FOUND};
use super::replies::cause_name;
use super::wire;
use gd_http::{Incoming, ReadStep, ReplyEnd, RequestReader, reply_end};
use std::alloc::Global;
use std::test::Fail;

/// How much of the piece was used, where a message was done with it.
fn used_of(step: &ReadStep<Incoming>) -> Option<usize> {
    match step {
        ReadStep::Done(_, used) => Some(*used),
        _ => None,
    }
}

fn is_need(step: &ReadStep<Incoming>) -> bool {
    matches!(step, ReadStep::Need)
}

/// Where a bad message begins, and why it is one.
fn bad_of(step: &ReadStep<Incoming>) -> Option<(u64, &'static str)> {
    match step {
        ReadStep::Bad { place, cause } => Some((*place, cause_name(*cause))),
        _ => None,
    }
}

/// The front, the part so many times, and the end.
fn repeated(
    alloc: Global,
    front: &[u8],
    part: &[u8],
    count: usize,
    end: &[u8],
) -> Result<Vec<u8>, Fail> {
    let mut bytes = front.to_vec(alloc)?;
    for _ in 0..count {
        bytes.extend_from_slice(part)?;
    }
    bytes.extend_from_slice(end)?;
    Ok(bytes)
}

#[test]
fn a_request_may_be_cut_anywhere(rt: HostRuntime) -> Result<(), Fail> {
    for cut in 0..FRESH.len() {
        let (front, rest) = FRESH.split_at(cut);
        let mut reader = RequestReader::new(rt.alloc(), wire(rt.alloc())?)?;
        assert!(rt; is_need(&reader.feed(front)?), "{cut}");
        assert_eq!(rt; used_of(&reader.feed(rest)?), Some(rest.len()), "{cut}");
    }
    Ok(())
}

#[test]
fn a_reply_ends_with_its_body(rt: HostRuntime) -> Result<(), Fail> {
    let more = repeated(rt.alloc(), NOT_FOUND, b"H", 1, b"")?;
    assert_eq!(rt; reply_end(more.as_slice()), ReplyEnd::Whole(136));
    assert_eq!(rt; reply_end(&NOT_FOUND[..20]), ReplyEnd::Need);
    assert_eq!(rt; reply_end(b"HTTP/1.1 200 OK\r\n\r\n"), ReplyEnd::Bad);
    Ok(())
}

#[test]
fn a_bad_message_is_told_where_it_begins(rt: HostRuntime) -> Result<(), Fail> {
    let mut reader = RequestReader::new(rt.alloc(), wire(rt.alloc())?)?;
    assert_eq!(rt; used_of(&reader.feed(FRESH)?), Some(83));
    for _ in 0..2 {
        let step = reader.feed(b"GET /x HTTP/1.1\r\nTransfer-Encoding: chunked\r\n\r\n")?;
        assert_eq!(rt; bad_of(&step), Some((83, "Coding")));
        assert_eq!(rt; reader.held(), 0);
    }
    Ok(())
}

#[test]
fn bytes_of_the_next_message_are_held(rt: HostRuntime) -> Result<(), Fail> {
    let mut reader = RequestReader::new(rt.alloc(), wire(rt.alloc())?)?;
    assert_eq!(rt; reader.held(), 0);
    assert!(rt; is_need(&reader.feed(b"GET /v")?));
    assert_eq!(rt; reader.held(), 6);
    assert!(rt; !reader.between());
    Ok(())
}

#[test]
fn a_head_has_limits(rt: HostRuntime) -> Result<(), Fail> {
    let line: &[u8] = b"GET /x HTTP/1.1\r\n";
    let rows: [(&[u8], &[u8], usize, &[u8], Option<(u64, &str)>); 4] = [
        (line, b"x: y\r\n", 64, b"\r\n", None),
        (line, b"x: y\r\n", 65, b"\r\n", Some((0, "Head"))),
        (b"GET /x HTTP/1.1\r\nx: ", b"y", 65512, b"\r\n\r\n", None),
        (
            b"GET /x HTTP/1.1\r\nx: ",
            b"y",
            65513,
            b"\r\n\r\n",
            Some((0, "Head")),
        ),
    ];
    for (front, part, count, end, want) in rows {
        let bytes = repeated(rt.alloc(), front, part, count, end)?;
        let mut reader = RequestReader::new(rt.alloc(), wire(rt.alloc())?)?;
        assert_eq!(rt; bad_of(&reader.feed(bytes.as_slice())?), want, "{count}");
    }
    Ok(())
}

#[test]
fn a_request_may_ask_to_close(rt: HostRuntime) -> Result<(), Fail> {
    for (version, headers, want) in [
        ("1.1", "", false),
        ("1.1", "Connection: close\r\n", true),
        ("1.1", "connection: Close\r\n", true),
        ("1.1", "Connection: keep-alive, Close\r\n", true),
        ("1.1", "Connection: a,\tclose ,b\r\n", true),
        ("1.1", "Connection: a\r\nConnection: close\r\n", true),
        ("1.1", "Connection: keep-alive\r\n", false),
        ("1.1", "Connection: close-not\r\n", false),
        ("1.1", "Connection: not close\r\n", false),
        ("1.1", "Connexion: close\r\n", false),
        ("1.0", "", true),
    ] {
        let text = format!(in rt.alloc(); "GET /x HTTP/{version}\r\n{headers}\r\n")?;
        let mut reader = RequestReader::new(rt.alloc(), wire(rt.alloc())?)?;
        assert!(rt; !reader.closes());
        assert_eq!(rt; used_of(&reader.feed(text.as_bytes())?), Some(text.len()));
        assert_eq!(rt; reader.closes(), want, "{version} {headers}");
        assert!(rt; is_need(&reader.feed(b"GET")?));
        assert_eq!(rt; reader.closes(), want, "{version} {headers}");
    }
    Ok(())
}
