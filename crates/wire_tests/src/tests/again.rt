use super::wire;
use gd_http::{Incoming, ReadStep, RequestReader, write_request};
use gd_item::{Address, Condition, ItemId, Request, RequestKind};
use gd_names::{Bytes, Conflict, Path, Text};
use std::alloc::Global;
use std::test::Fail;

fn list(alloc: Global) -> Result<Request, Fail> {
    Ok(Request::Children {
        at: Address::ByPath(Path::read(alloc, b"/a%20b/c")?),
        after: Some(Text::from_str(alloc, "d e")?),
    })
}

fn make_folder(alloc: Global) -> Result<Request, Fail> {
    Ok(Request::MakeFolder {
        at: Address::Id(ItemId(1)),
        name: Text::from_str(alloc, "a \"b\"")?,
        behaviour: Conflict::Rename,
    })
}

fn put(alloc: Global) -> Result<Request, Fail> {
    Ok(Request::Put {
        at: Address::Child(ItemId(26), Text::from_str(alloc, "50%")?),
        bytes: Bytes::from_slice(alloc, b"hi")?,
        behaviour: Conflict::Fail,
        condition: Condition::Match(Text::from_str(alloc, "e1")?),
    })
}

fn patch(alloc: Global) -> Result<Request, Fail> {
    Ok(Request::Patch {
        at: Address::Id(ItemId(2)),
        name: Some(Text::from_str(alloc, "b")?),
        parent: Some(ItemId(3)),
        condition: Condition::Free,
    })
}

fn open_session(alloc: Global) -> Result<Request, Fail> {
    Ok(Request::OpenSession {
        at: Address::Id(ItemId(2)),
        name: Some(Text::from_str(alloc, "b")?),
        behaviour: Conflict::Replace,
        condition: Condition::Match(Text::from_str(alloc, "*")?),
        defer: true,
    })
}

fn send(alloc: Global) -> Result<Request, Fail> {
    Ok(Request::Fragment {
        session: 7,
        first: 0,
        last: 1,
        total: 2,
        bytes: Bytes::from_slice(alloc, b"hi")?,
    })
}

fn feed(alloc: Global) -> Result<Request, Fail> {
    Ok(Request::Delta {
        token: Some(Text::from_str(alloc, "t1.5.5")?),
    })
}

/// A request that has no texts and no bytes.
fn plain(kind: RequestKind) -> Request {
    let at = Address::Id(ItemId(2));
    match kind {
        RequestKind::Delete => Request::Delete {
            at,
            condition: Condition::Free,
        },
        RequestKind::Content => Request::Content { at },
        RequestKind::Download => Request::Download {
            id: ItemId(2),
            version: 7,
        },
        RequestKind::SessionStatus => Request::SessionStatus { session: 7 },
        RequestKind::CancelSession => Request::CancelSession { session: 7 },
        RequestKind::Finish => Request::Finish { session: 7 },
        _ => Request::Get { at },
    }
}

/// A request of the kind.
fn some(alloc: Global, kind: RequestKind) -> Result<Request, Fail> {
    match kind {
        RequestKind::Children => list(alloc),
        RequestKind::MakeFolder => make_folder(alloc),
        RequestKind::Put => put(alloc),
        RequestKind::Patch => patch(alloc),
        RequestKind::OpenSession => open_session(alloc),
        RequestKind::Fragment => send(alloc),
        RequestKind::Delta => feed(alloc),
        _ => Ok(plain(kind)),
    }
}

/// What the bytes are as a request.
fn heard(alloc: Global, bytes: &[u8]) -> Result<ReadStep<Incoming>, Fail> {
    let base = wire(alloc)?;
    let mut reader = RequestReader::new(alloc, base)?;
    Ok(reader.feed(bytes)?)
}

fn is_asked(message: &Incoming, request: &Request) -> bool {
    match message {
        Incoming::Ask(read) => read == request,
        _ => false,
    }
}

/// Whether a step is this request, of so many bytes.
fn is_whole(step: &ReadStep<Incoming>, length: usize, request: &Request) -> bool {
    match step {
        ReadStep::Done(message, used) => *used == length && is_asked(message, request),
        _ => false,
    }
}

fn written(alloc: Global, request: &Request) -> Result<Bytes, Fail> {
    let base = wire(alloc)?;
    Ok(write_request(alloc, request, &base)?)
}

/// Whether the bytes are this request and nothing more.
fn reads_as(alloc: Global, bytes: &[u8], request: &Request) -> Result<bool, Fail> {
    let step = heard(alloc, bytes)?;
    Ok(is_whole(&step, bytes.len(), request))
}

/// Whether what is written of the request is read as it was.
fn is_heard_again(alloc: Global, request: &Request) -> Result<bool, Fail> {
    let bytes = written(alloc, request)?;
    reads_as(alloc, bytes.as_slice(), request)
}

/// The same of a request of the kind.
fn is_read_again(alloc: Global, kind: RequestKind) -> Result<bool, Fail> {
    let request = some(alloc, kind)?;
    if request.kind() != kind {
        return Ok(false);
    }
    is_heard_again(alloc, &request)
}

#[test]
fn written_requests_are_read_again(rt: HostRuntime) -> Result<(), Fail> {
    for kind in [
        RequestKind::Get,
        RequestKind::Children,
        RequestKind::MakeFolder,
        RequestKind::Put,
        RequestKind::Patch,
        RequestKind::Delete,
        RequestKind::Content,
        RequestKind::Download,
        RequestKind::OpenSession,
        RequestKind::Fragment,
        RequestKind::SessionStatus,
        RequestKind::CancelSession,
        RequestKind::Finish,
        RequestKind::Delta,
    ] {
        assert!(rt; is_read_again(rt.alloc(), kind)?, "{kind:?}");
    }
    Ok(())
}
