use super::wire;
use gd_http::{ReadStep, ReplyReader, write_reply};
use gd_item::{
    Digest, ErrorCode, Item, ItemId, Kind, Page, PageLink, Reply, RequestKind, Resync, Tag,
};
use gd_names::{Bytes, List, Text};
use std::alloc::Global;
use std::test::Fail;

fn tag(alloc: Global, text: &str) -> Result<Tag, Fail> {
    Ok(Tag(Text::from_str(alloc, text)?))
}

fn file(alloc: Global) -> Result<Item, Fail> {
    Ok(Item {
        id: ItemId(2),
        parent: Some(ItemId(1)),
        parent_path: Some(Text::from_str(alloc, "/drive/root:")?),
        name: Text::from_str(alloc, "a b.txt")?,
        size: 2,
        etag: tag(alloc, "e2")?,
        ctag: Some(tag(alloc, "c2")?),
        kind: Kind::File {
            digest: Digest([7; 32]),
        },
    })
}

fn files(alloc: Global) -> Result<List<Item>, Fail> {
    let mut items = List::new(alloc);
    items.push(file(alloc)?)?;
    Ok(items)
}

fn list(alloc: Global) -> Result<Reply, Fail> {
    Ok(Reply::Listed {
        items: files(alloc)?,
        next: Some(Text::from_str(alloc, "a b.txt")?),
    })
}

fn page(alloc: Global) -> Result<Reply, Fail> {
    Ok(Reply::Page(Page {
        items: files(alloc)?,
        link: PageLink::Delta(Text::from_str(alloc, "t1.5.5")?),
    }))
}

/// The reply that a request of the kind hopes for.
fn hoped(alloc: Global, kind: RequestKind) -> Result<Reply, Fail> {
    match kind {
        RequestKind::Get | RequestKind::Patch => Ok(Reply::Is(file(alloc)?)),
        RequestKind::MakeFolder | RequestKind::Put | RequestKind::Finish => {
            Ok(Reply::Made(file(alloc)?))
        }
        RequestKind::Children => list(alloc),
        RequestKind::Delete | RequestKind::CancelSession => Ok(Reply::Done),
        RequestKind::Content => Ok(Reply::Found {
            id: ItemId(2),
            version: 7,
        }),
        RequestKind::Download => Ok(Reply::Content(Bytes::from_slice(alloc, b"hi")?)),
        RequestKind::OpenSession => Ok(Reply::Session {
            session: 7,
            expected: 0,
        }),
        RequestKind::Fragment => Ok(Reply::More { expected: 5 }),
        RequestKind::SessionStatus => Ok(Reply::Status { expected: 5 }),
        RequestKind::Delta => page(alloc),
    }
}

/// What the bytes are as a reply to a request of the kind.
fn heard(alloc: Global, kind: RequestKind, bytes: &[u8]) -> Result<ReadStep<Reply>, Fail> {
    let base = wire(alloc)?;
    let mut reader = ReplyReader::new(alloc, kind, base)?;
    Ok(reader.feed(bytes)?)
}

/// Whether a step is this reply, of so many bytes.
fn is_whole(step: &ReadStep<Reply>, length: usize, reply: &Reply) -> bool {
    match step {
        ReadStep::Done(read, used) => *used == length && read == reply,
        _ => false,
    }
}

fn written(alloc: Global, reply: &Reply) -> Result<Bytes, Fail> {
    let base = wire(alloc)?;
    Ok(write_reply(alloc, reply, &base)?)
}

/// Whether the bytes are this reply and nothing more.
fn reads_as(alloc: Global, kind: RequestKind, bytes: &[u8], reply: &Reply) -> Result<bool, Fail> {
    let step = heard(alloc, kind, bytes)?;
    Ok(is_whole(&step, bytes.len(), reply))
}

/// Whether what is written of the reply is read as it was.
fn is_read_again(alloc: Global, kind: RequestKind, reply: &Reply) -> Result<bool, Fail> {
    let bytes = written(alloc, reply)?;
    reads_as(alloc, kind, bytes.as_slice(), reply)
}

#[test]
fn written_replies_are_read_again(rt: HostRuntime) -> Result<(), Fail> {
    for kind in [
        RequestKind::Get,
        RequestKind::Children,
        RequestKind::MakeFolder,
        RequestKind::Put,
        RequestKind::Patch,
        RequestKind::Delete,
        RequestKind::Content,
        RequestKind::Download,
        RequestKind::OpenSession,
        RequestKind::Fragment,
        RequestKind::SessionStatus,
        RequestKind::CancelSession,
        RequestKind::Finish,
        RequestKind::Delta,
    ] {
        let reply = hoped(rt.alloc(), kind)?;
        assert!(rt; is_read_again(rt.alloc(), kind, &reply)?, "{kind:?}");
    }
    Ok(())
}

#[test]
fn refusals_are_read_again(rt: HostRuntime) -> Result<(), Fail> {
    for (status, code) in [
        (400, ErrorCode::InvalidRequest),
        (400, ErrorCode::InvalidRange),
        (404, ErrorCode::ItemNotFound),
        (405, ErrorCode::NotSupported),
        (409, ErrorCode::NameAlreadyExists),
        (412, ErrorCode::ResourceModified),
        (413, ErrorCode::InvalidRequest),
        (416, ErrorCode::InvalidRange),
        (501, ErrorCode::NotSupported),
        (503, ErrorCode::GeneralException),
        (507, ErrorCode::QuotaLimitReached),
    ] {
        let reply = Reply::Refused { status, code };
        assert!(rt;
            is_read_again(rt.alloc(), RequestKind::Put, &reply)?,
            "{status} {code:?}"
        );
    }
    for resync in [Resync::ApplyDifferences, Resync::UploadDifferences] {
        let reply = Reply::Gone(resync);
        assert!(rt;
            is_read_again(rt.alloc(), RequestKind::Delta, &reply)?,
            "{resync:?}"
        );
    }
    Ok(())
}
