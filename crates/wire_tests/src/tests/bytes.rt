use super::wire;
use gd_http::{Incoming, ReadStep, RequestReader, write_reply, write_request};
use gd_item::{ErrorCode, Reply, Request};
use std::test::Fail;

pub const FRESH: &[u8] =
    b"GET /v1.0/me/drive/root/delta HTTP/1.1\r\nHost: 127.0.0.1:8080\r\nContent-Length: 0\r\n\r\n";

pub const NOT_FOUND: &[u8] =
    b"HTTP/1.1 404 Not Found\r\nContent-Type: application/json\r\nContent-Length: 58\r\n\r\n{\"error\":{\"code\":\"itemNotFound\",\"message\":\"itemNotFound\"}}";

#[test]
fn a_refusal_is_written(rt: HostRuntime) -> Result<(), Fail> {
    let refusal = Reply::Refused {
        status: 404,
        code: ErrorCode::ItemNotFound,
    };
    let bytes = write_reply(rt.alloc(), &refusal, &wire(rt.alloc())?)?;
    assert_eq!(rt; bytes.len(), 136);
    assert!(rt; bytes.as_slice() == NOT_FOUND);
    Ok(())
}

#[test]
fn a_fresh_delta_is_written(rt: HostRuntime) -> Result<(), Fail> {
    let request = Request::Delta { token: None };
    let bytes = write_request(rt.alloc(), &request, &wire(rt.alloc())?)?;
    assert_eq!(rt; bytes.len(), 83);
    assert!(rt; bytes.as_slice() == FRESH);
    Ok(())
}

/// How much of the piece was used, where a fresh delta was done with it.
fn used_of(step: &ReadStep<Incoming>) -> Option<usize> {
    match step {
        ReadStep::Done(Incoming::Ask(Request::Delta { token: None }), used) => Some(*used),
        _ => None,
    }
}

fn is_need(step: &ReadStep<Incoming>) -> bool {
    matches!(step, ReadStep::Need)
}

#[test]
fn single_bytes_make_one_request(rt: HostRuntime) -> Result<(), Fail> {
    let mut reader = RequestReader::new(rt.alloc(), wire(rt.alloc())?)?;
    for byte in &FRESH[..82] {
        assert!(rt; is_need(&reader.feed(&[*byte])?));
    }
    assert_eq!(rt; reader.held(), 82);
    assert_eq!(rt; used_of(&reader.feed(&FRESH[82..])?), Some(1));
    assert!(rt; reader.between());
    Ok(())
}
