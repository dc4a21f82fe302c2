use gd_api::Drive;
use gd_http::MessageCause;
use gd_json::Wire;
use gd_names::{Bytes, List, MemorySink, MemorySource};
use gd_server::{ServeEnd, serve_in_memory};
use std::alloc::Global;
use std::test::Fail;

fn numbers(alloc: Global, number: Option<u64>) -> Result<List<u64>, Fail> {
    let mut list = List::new(alloc);
    if let Some(number) = number {
        list.push(number)?;
    }
    Ok(list)
}

/// The statuses of the replies, and how the connection ended, as `200 404 | Ended`.
fn transcript(alloc: Global, written: &[u8], end: ServeEnd) -> Result<String, Fail> {
    let mut text = String::new(alloc);
    for window in written.windows(12) {
        if let [.., hundreds, tens, ones] = window
            && window.starts_with(b"HTTP/1.1 ")
        {
            for digit in [hundreds, tens, ones] {
                text.push(char::from(*digit))?;
            }
            text.push(' ')?;
        }
    }
    let word = match end {
        ServeEnd::Ended => format!(in alloc; "| Ended")?,
        ServeEnd::Cut => format!(in alloc; "| Cut")?,
        ServeEnd::BadMessage { place, cause } => {
            format!(in alloc; "| BadMessage {place} {}", cause_name(cause))?
        }
        ServeEnd::Spent => format!(in alloc; "| Spent")?,
        ServeEnd::ReadFault => format!(in alloc; "| ReadFault")?,
        ServeEnd::WriteFault => format!(in alloc; "| WriteFault")?,
        ServeEnd::Memory => format!(in alloc; "| Memory")?,
    };
    text.push_str(word.as_str())?;
    Ok(text)
}

fn cause_name(cause: MessageCause) -> &'static str {
    match cause {
        MessageCause::Head => "Head",
        MessageCause::Coding => "Coding",
        MessageCause::Framing => "Framing",
        MessageCause::Body => "Body",
        MessageCause::Meaning => "Meaning",
    }
}

/// What a new drive answers to these bytes, that come in such pieces; reads and writes fail at the given calls.
fn served(
    alloc: Global,
    bytes: &[u8],
    piece: usize,
    read_fails: Option<u64>,
    write_fails: Option<u64>,
) -> Result<String, Fail> {
    let wire = Wire::read(alloc, b"http://127.0.0.1:8080")?;
    let mut drive = Drive::new(alloc, 200)?;
    let bytes = Bytes::from_slice(alloc, bytes)?;
    let mut source = MemorySource::new(bytes, piece.max(1), numbers(alloc, read_fails)?);
    let mut sink = MemorySink::new(alloc, numbers(alloc, write_fails)?);
    let end = serve_in_memory(alloc, &mut source, &mut sink, &wire, &mut drive);
    transcript(alloc, sink.written().as_slice(), end)
}

const ROOT: &[u8] = b"GET /v1.0/me/drive/root HTTP/1.1\r\n\r\n";

#[test]
fn messages_are_answered_in_turn(rt: HostRuntime) -> Result<(), Fail> {
    let rows: [(&[u8], &str); 17] = [
        (b"", "| Ended"),
        (b"GET /v", "| Cut"),
        (b"\r\n", "| Cut"),
        (ROOT, "200 | Ended"),
        (
            b"GET /v1.0/me/drive/root HTTP/1.1\r\nTransfer-Encoding: chunked\r\n\r\n",
            "501 | BadMessage 0 Coding",
        ),
        (
            b"PUT /v1.0/me/drive/root:/a:/content HTTP/1.1\r\nContent-Length: 2\r\nContent-Length: 2\r\n\r\nhi",
            "400 | BadMessage 0 Framing",
        ),
        (
            b"PUT /v1.0/upload/1 HTTP/1.1\r\nContent-Length: 67108865\r\n\r\n",
            "413 | BadMessage 0 Body",
        ),
        (b"GET /v1.0/me/drive/root HTTP/1.1\r\n\r\n\r\n", "200 | Cut"),
        (
            b"GET /v1.0/me/drive/root HTTP/1.1\r\n\r\n\r\n\nGET /v1.0/me/drive/root HTTP/2",
            "200 400 | BadMessage 36 Head",
        ),
        (
            b"POST /v1.0/me/drive/items/01GD0000000000000009/children HTTP/1.1\r\nContent-Length: 26\r\n\r\n{\"name\":\"con\",\"folder\":{}}POST /v1.0/me/drive/root/children HTTP/1.1\r\nContent-Length: 26\r\n\r\n{\"name\":\"con\",\"folder\":{}}",
            "404 400 | Ended",
        ),
        (
            b"GET /v1.0/me/drive/root HTTP/1.1\r\nConnection: keep-alive, Close\r\n\r\nGET",
            "200 | Ended",
        ),
        (
            b"GET /v1.0/me/drive/root HTTP/1.0\r\n\r\nGET /v1.0/me/drive/root HTTP/1.1\r\n\r\n",
            "200 | Ended",
        ),
        (
            b"GET /x HTTP/1.1\r\n\r\nGET /v1.0/me/drive/root HTTP/1.1\r\n\r\n",
            "404 200 | Ended",
        ),
        (
            b"POST /v1.0/$batch HTTP/1.1\r\nContent-Length: 2\r\n\r\n{}GET /v1.0/me/drive/root HTTP/1.1\r\n\r\n",
            "404 200 | Ended",
        ),
        (
            b"GET /v1.0/me/drive/items/01GD0000000000000002/versions HTTP/1.1\r\n\r\n",
            "404 | Ended",
        ),
        (
            b"PUT /v1.0/me/drive/root:/a.txt:/content HTTP/1.1\r\nContent-Length: 2\r\n\r\nhiGET /v1.0/me/drive/root:/a.txt:/content HTTP/1.1\r\n\r\nGET /v1.0/download/01GD0000000000000002/2 HTTP/1.1\r\n\r\n",
            "201 302 200 | Ended",
        ),
        (
            b"GET /v1.0/me/drive/root HTTP/1.1\r\n\r\nhello\r\n\r\nGET /v1.0/me/drive/root HTTP/1.1\r\n\r\n",
            "200 400 | BadMessage 36 Head",
        ),
    ];
    for (bytes, expected) in rows {
        for piece in [1, 65_536] {
            let text = served(rt.alloc(), bytes, piece, None, None)?;
            assert_eq!(rt; text.as_str(), expected, "{expected}");
        }
    }
    Ok(())
}

#[test]
fn a_failed_call_ends_the_connection(rt: HostRuntime) -> Result<(), Fail> {
    let twice = b"GET /v1.0/me/drive/root HTTP/1.1\r\n\r\nGET /v1.0/me/drive/root HTTP/1.1\r\n\r\n";
    for (read_fails, write_fails, expected) in [
        (Some(1), None, "| ReadFault"),
        (Some(2), None, "200 | ReadFault"),
        (Some(3), None, "200 200 | ReadFault"),
        (None, Some(1), "| WriteFault"),
        (None, Some(2), "200 | WriteFault"),
    ] {
        let text = served(rt.alloc(), twice, 36, read_fails, write_fails)?;
        assert_eq!(rt; text.as_str(), expected, "{expected}");
    }
    Ok(())
}

/// A file of so many bytes is put, and its bytes are asked for.
fn put_and_download(alloc: Global, count: usize) -> Result<Vec<u8>, Fail> {
    let head = format!(in alloc;
        "PUT /v1.0/me/drive/root:/a.txt:/content HTTP/1.1\r\nContent-Length: {count}\r\n\r\n"
    )?;
    let body = vec![in alloc; b'a'; count]?;
    let mut text = Vec::from_slice(alloc, head.as_bytes())?;
    text.extend_from_slice(body.as_slice())?;
    text.extend_from_slice(b"GET /v1.0/download/01GD0000000000000002/2 HTTP/1.1\r\n\r\n")?;
    Ok(text)
}

#[test]
fn large_bytes_are_written_behind_their_head(rt: HostRuntime) -> Result<(), Fail> {
    let text = put_and_download(rt.alloc(), 65_537)?;
    for (write_fails, expected) in [
        (None, "201 200 | Ended"),
        (Some(2), "201 | WriteFault"),
        (Some(3), "201 200 | WriteFault"),
    ] {
        let told = served(rt.alloc(), text.as_slice(), 65_536, None, write_fails)?;
        assert_eq!(rt; told.as_str(), expected, "{expected}");
    }
    Ok(())
}
