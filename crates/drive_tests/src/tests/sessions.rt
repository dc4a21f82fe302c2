use super::requests::path;
use super::{condition, text};
use gd_api::Drive;
use gd_item::{Address, Condition, DriveEvent, ItemId, Kind, PageLink, Reply, Request};
use gd_names::{Bytes, Conflict};
use std::alloc::Global;
use std::test::Fail;

/// A reply about a session in words: its status, and the number that it names.
fn said(alloc: Global, reply: &Reply) -> Result<String, Fail> {
    match reply {
        Reply::Session { session, .. } => Ok(format!(in alloc; "200 session {}", *session)?),
        Reply::Status { expected } => Ok(format!(in alloc; "200 expects {}", *expected)?),
        Reply::More { expected } => Ok(format!(in alloc; "202 expects {}", *expected)?),
        Reply::Made(item) => Ok(format!(in alloc; "201 {} bytes", item.size)?),
        Reply::Is(item) => Ok(format!(in alloc; "200 {} bytes", item.size)?),
        Reply::Done => Ok(String::from_str(alloc, "204")?),
        Reply::Refused { status, code } => Ok(format!(in alloc; "{} {}", *status, code.as_str())?),
        _ => Ok(String::new(alloc)),
    }
}

fn ask(alloc: Global, drive: &mut Drive, request: &Request) -> Result<String, Fail> {
    let reply = drive.handle(request);
    said(alloc, &reply)
}

/// Opens a session, with a condition or none (`""`).
fn begin(
    alloc: Global,
    drive: &mut Drive,
    at: &str,
    tag: &str,
    defer: bool,
) -> Result<String, Fail> {
    let request = Request::OpenSession {
        at: path(alloc, at)?,
        name: None,
        behaviour: Conflict::Fail,
        condition: condition(alloc, tag)?,
        defer,
    };
    ask(alloc, drive, &request)
}

/// Sends so many bytes to the first session.
fn send(
    alloc: Global,
    drive: &mut Drive,
    first: u64,
    last: u64,
    total: u64,
    count: usize,
) -> Result<String, Fail> {
    let bytes = Vec::from_elem(alloc, 61, count)?;
    let request = Request::Fragment {
        session: 1,
        first,
        last,
        total,
        bytes: Bytes::from_vec(bytes),
    };
    ask(alloc, drive, &request)
}

/// Puts some bytes.
fn put(alloc: Global, drive: &mut Drive, at: &str, bytes: &[u8]) -> Result<String, Fail> {
    let request = Request::Put {
        at: path(alloc, at)?,
        bytes: Bytes::from_slice(alloc, bytes)?,
        behaviour: Conflict::Replace,
        condition: Condition::Free,
    };
    ask(alloc, drive, &request)
}

fn status(alloc: Global, drive: &mut Drive) -> Result<String, Fail> {
    ask(alloc, drive, &Request::SessionStatus { session: 1 })
}

fn cancel(alloc: Global, drive: &mut Drive) -> Result<String, Fail> {
    ask(alloc, drive, &Request::CancelSession { session: 1 })
}

fn finish(alloc: Global, drive: &mut Drive) -> Result<String, Fail> {
    ask(alloc, drive, &Request::Finish { session: 1 })
}

/// A drive with a session for `/s`.
fn opened(alloc: Global, defer: bool) -> Result<Drive, Fail> {
    let mut drive = Drive::new(alloc, 200)?;
    begin(alloc, &mut drive, "/s", "", defer)?;
    Ok(drive)
}

#[test]
fn a_large_file_is_sent_in_parts(rt: HostRuntime) -> Result<(), Fail> {
    let alloc = rt.alloc();
    let mut drive = opened(alloc, false)?;
    for (first, last, count, answer) in [
        (0, 327_679, 327_680, "202 expects 327680"),
        (0, 327_679, 327_680, "416 invalidRange"),
        (327_680, 655_359, 327_680, "202 expects 655360"),
        (655_360, 655_360, 1, "201 655361 bytes"),
        (655_360, 655_360, 1, "404 itemNotFound"),
    ] {
        let reply = send(alloc, &mut drive, first, last, 655_361, count)?;
        assert_eq!(rt; reply.as_str(), answer);
    }
    assert_eq!(rt; status(alloc, &mut drive)?.as_str(), "404 itemNotFound");
    Ok(())
}

#[test]
fn fragments_are_refused(rt: HostRuntime) -> Result<(), Fail> {
    let alloc = rt.alloc();
    let mut drive = opened(alloc, false)?;
    for (first, last, total, count, answer) in [
        (0, 99, 1000, 100, "400 invalidRange"),
        (327_680, 655_359, 655_361, 327_680, "416 invalidRange"),
        (5, 4, 1000, 0, "400 invalidRequest"),
        (0, 1000, 1000, 1001, "400 invalidRequest"),
        (0, 99, 67_108_865, 100, "413 invalidRequest"),
        (0, 327_679, 655_361, 327_680, "202 expects 327680"),
        (327_680, 655_359, 655_362, 327_680, "400 invalidRequest"),
    ] {
        let reply = send(alloc, &mut drive, first, last, total, count)?;
        assert_eq!(rt; reply.as_str(), answer);
    }
    Ok(())
}

#[test]
fn a_deferred_session_is_finished(rt: HostRuntime) -> Result<(), Fail> {
    let alloc = rt.alloc();
    let mut drive = opened(alloc, true)?;
    assert_eq!(rt; finish(alloc, &mut drive)?.as_str(), "400 invalidRequest");
    let sent = send(alloc, &mut drive, 0, 327_679, 327_680, 327_680)?;
    assert_eq!(rt; sent.as_str(), "202 expects 327680");
    assert_eq!(rt; status(alloc, &mut drive)?.as_str(), "200 expects 327680");
    assert_eq!(rt; finish(alloc, &mut drive)?.as_str(), "201 327680 bytes");
    assert_eq!(rt; finish(alloc, &mut drive)?.as_str(), "404 itemNotFound");
    Ok(())
}

#[test]
fn only_a_deferred_session_is_finished(rt: HostRuntime) -> Result<(), Fail> {
    let alloc = rt.alloc();
    let mut drive = opened(alloc, false)?;
    assert_eq!(rt; finish(alloc, &mut drive)?.as_str(), "400 invalidRequest");
    Ok(())
}

#[test]
fn a_session_is_overtaken_and_cancelled(rt: HostRuntime) -> Result<(), Fail> {
    let alloc = rt.alloc();
    let mut drive = Drive::new(alloc, 200)?;
    let session = begin(alloc, &mut drive, "/s", "", false)?;
    assert_eq!(rt; session.as_str(), "200 session 1");
    put(alloc, &mut drive, "/s", b"1")?;
    let sent = send(alloc, &mut drive, 0, 9, 10, 10)?;
    assert_eq!(rt; sent.as_str(), "409 nameAlreadyExists");
    assert_eq!(rt; status(alloc, &mut drive)?.as_str(), "200 expects 0");
    assert_eq!(rt; cancel(alloc, &mut drive)?.as_str(), "204");
    assert_eq!(rt; cancel(alloc, &mut drive)?.as_str(), "404 itemNotFound");
    Ok(())
}

#[test]
fn sessions_are_not_opened(rt: HostRuntime) -> Result<(), Fail> {
    let alloc = rt.alloc();
    let mut drive = Drive::new(alloc, 200)?;
    put(alloc, &mut drive, "/f", b"1")?;
    for (at, tag, answer) in [
        ("/x/f", "", "404 itemNotFound"),
        ("/f/n", "", "400 invalidRequest"),
        ("/n", "e1", "412 resourceModified"),
        ("/f", "", "409 nameAlreadyExists"),
        ("/", "", "400 invalidRequest"),
    ] {
        let reply = begin(alloc, &mut drive, at, tag, false)?;
        assert_eq!(rt; reply.as_str(), answer, "{at}");
    }
    Ok(())
}

#[test]
fn an_ended_session_is_gone(rt: HostRuntime) -> Result<(), Fail> {
    let alloc = rt.alloc();
    let mut drive = opened(alloc, false)?;
    drive.event(DriveEvent::EndSession(1));
    assert_eq!(rt; status(alloc, &mut drive)?.as_str(), "404 itemNotFound");
    drive.event(DriveEvent::EndSession(1));
    Ok(())
}

/// What a page ends with: the next token, or the last one after `delta`; or why it is gone.
fn end_of(alloc: Global, reply: &Reply) -> Result<String, Fail> {
    match reply {
        Reply::Page(page) => end_of_page(alloc, page.items.len(), &page.link),
        Reply::Gone(resync) => Ok(format!(in alloc; "gone {resync:?}")?),
        Reply::Refused { status, .. } => Ok(format!(in alloc; "{}", *status)?),
        _ => Ok(String::new(alloc)),
    }
}

fn end_of_page(alloc: Global, count: usize, link: &PageLink) -> Result<String, Fail> {
    match link {
        PageLink::Next(token) => Ok(format!(in alloc; "{count} next {}", token.as_str())?),
        PageLink::Delta(token) => Ok(format!(in alloc; "{count} delta {}", token.as_str())?),
    }
}

/// The end of the page for a token, or of the first one (`""`).
fn page_end(alloc: Global, drive: &mut Drive, token: &str) -> Result<String, Fail> {
    let token = if token.is_empty() {
        None
    } else {
        Some(text(alloc, token)?)
    };
    let reply = drive.handle(&Request::Delta { token });
    end_of(alloc, &reply)
}

/// Files `/a`, `/b` and `/c`, in pages of two.
fn paged(alloc: Global) -> Result<Drive, Fail> {
    let mut drive = Drive::new(alloc, 2)?;
    for at in ["/a", "/b", "/c"] {
        put(alloc, &mut drive, at, b"1")?;
    }
    Ok(drive)
}

#[test]
fn the_feed_comes_in_pages(rt: HostRuntime) -> Result<(), Fail> {
    let alloc = rt.alloc();
    let mut drive = paged(alloc)?;
    for (token, end) in [
        ("", "2 next t1.2.4"),
        ("t1.2.4", "2 delta t1.4.4"),
        ("latest", "0 delta t1.4.4"),
        ("t1.5.1", "400"),
        ("t01.2.3", "400"),
    ] {
        assert_eq!(rt;
            page_end(alloc, &mut drive, token)?.as_str(),
            end,
            "{token}"
        );
    }
    Ok(())
}

/// Gives an item of the root another name.
fn rename(alloc: Global, drive: &mut Drive, id: u64, name: &str) -> Result<String, Fail> {
    let request = Request::Patch {
        at: Address::Id(ItemId(id)),
        name: Some(text(alloc, name)?),
        parent: None,
        condition: Condition::Free,
    };
    ask(alloc, drive, &request)
}

#[test]
fn an_item_that_moves_between_two_pages_comes_again(rt: HostRuntime) -> Result<(), Fail> {
    let alloc = rt.alloc();
    let mut drive = paged(alloc)?;
    assert_eq!(rt; page_end(alloc, &mut drive, "")?.as_str(), "2 next t1.2.4");
    assert_eq!(rt; rename(alloc, &mut drive, 2, "d")?.as_str(), "200 1 bytes");
    for (token, end) in [
        ("t1.2.4", "2 next t1.4.4"),
        ("t1.4.4", "1 delta t1.5.4"),
        ("t1.5.4", "0 delta t1.5.4"),
    ] {
        assert_eq!(rt;
            page_end(alloc, &mut drive, token)?.as_str(),
            end,
            "{token}"
        );
    }
    Ok(())
}

#[test]
fn tokens_are_served_or_not(rt: HostRuntime) -> Result<(), Fail> {
    let alloc = rt.alloc();
    let mut drive = paged(alloc)?;
    put(alloc, &mut drive, "/d", b"1")?;
    drive.event(DriveEvent::Expire(4));
    for (token, end) in [
        ("t1.3.2", "gone ApplyDifferences"),
        ("t1.2.4", "2 next t1.4.4"),
        ("t2.9.9", "gone UploadDifferences"),
        ("t1.6.1", "400"),
        ("latest", "0 delta t1.5.5"),
    ] {
        assert_eq!(rt;
            page_end(alloc, &mut drive, token)?.as_str(),
            end,
            "{token}"
        );
    }
    Ok(())
}

/// So many files in the root, in pages of 200.
fn many_files(alloc: Global, count: u64) -> Result<Drive, Fail> {
    let mut drive = Drive::new(alloc, 200)?;
    for number in 0..count {
        let at = format!(in alloc; "/{number}")?;
        put(alloc, &mut drive, at.as_str(), b"1")?;
    }
    Ok(drive)
}

#[test]
fn a_page_has_two_hundred_items(rt: HostRuntime) -> Result<(), Fail> {
    let alloc = rt.alloc();
    let mut drive = many_files(alloc, 199)?;
    let whole = page_end(alloc, &mut drive, "")?;
    assert_eq!(rt; whole.as_str(), "200 delta t1.200.200");
    put(alloc, &mut drive, "/more", b"1")?;
    let first = page_end(alloc, &mut drive, "")?;
    assert_eq!(rt; first.as_str(), "200 next t1.200.201");
    let second = page_end(alloc, &mut drive, "t1.200.201")?;
    assert_eq!(rt; second.as_str(), "1 delta t1.201.201");
    Ok(())
}

#[test]
fn tokens_of_before_are_gone(rt: HostRuntime) -> Result<(), Fail> {
    let alloc = rt.alloc();
    let mut drive = paged(alloc)?;
    drive.event(DriveEvent::Expire(3));
    let old = page_end(alloc, &mut drive, "t1.2.2")?;
    assert_eq!(rt; old.as_str(), "gone ApplyDifferences");
    let begun = page_end(alloc, &mut drive, "t1.2.3")?;
    assert_eq!(rt; begun.as_str(), "2 delta t1.4.3");
    drive.event(DriveEvent::Restore);
    let other = page_end(alloc, &mut drive, "t1.4.4")?;
    assert_eq!(rt; other.as_str(), "gone UploadDifferences");
    Ok(())
}

/// Whether an item of a reply has a digest or a content tag.
fn is_whole(reply: &Reply) -> bool {
    match reply {
        Reply::Is(item) => item.ctag.is_some() || item.kind != Kind::Bare,
        _ => false,
    }
}

#[test]
fn a_plain_drive_gives_no_digest(rt: HostRuntime) -> Result<(), Fail> {
    let alloc = rt.alloc();
    let mut drive = paged(alloc)?;
    let request = Request::Get {
        at: Address::Id(ItemId(2)),
    };
    assert!(rt; is_whole(&drive.handle(&request)));
    drive.event(DriveEvent::Plain);
    assert!(rt; !is_whole(&drive.handle(&request)));
    Ok(())
}

/// The versions of an item in words, or why there are none.
fn versions(alloc: Global, drive: &Drive, id: u64) -> Result<String, Fail> {
    let mut all = String::new(alloc);
    match drive.versions(ItemId(id)) {
        Ok(list) => {
            for info in list.as_slice() {
                let one = format!(in alloc; "{} {}, ", info.version, info.size)?;
                all.push_str(one.as_str())?;
            }
            Ok(all)
        }
        Err(fault) => Ok(format!(in alloc; "{fault}")?),
    }
}

#[test]
fn versions_are_listed(rt: HostRuntime) -> Result<(), Fail> {
    let alloc = rt.alloc();
    let mut drive = Drive::new(alloc, 200)?;
    for bytes in ["one", "three", "one"] {
        put(alloc, &mut drive, "/a", bytes.as_bytes())?;
    }
    assert_eq!(rt; versions(alloc, &drive, 2)?.as_str(), "4 3, 3 5, 2 3, ");
    assert_eq!(rt; versions(alloc, &drive, 1)?.as_str(), "the item is no file");
    assert_eq!(rt; versions(alloc, &drive, 9)?.as_str(), "no such item");
    Ok(())
}

/// Puts the bytes that a version of a file has over the file, and tells how that ended.
fn put_back(alloc: Global, drive: &mut Drive, id: u64, version: u64) -> Result<String, Fail> {
    let id = ItemId(id);
    match drive.handle(&Request::Download { id, version }) {
        Reply::Content(bytes) => {
            let request = Request::Put {
                at: Address::Id(id),
                bytes,
                behaviour: Conflict::Replace,
                condition: Condition::Free,
            };
            ask(alloc, drive, &request)
        }
        reply => said(alloc, &reply),
    }
}

#[test]
fn a_version_that_is_put_back_is_a_new_one(rt: HostRuntime) -> Result<(), Fail> {
    let alloc = rt.alloc();
    let mut drive = Drive::new(alloc, 200)?;
    put(alloc, &mut drive, "/a", b"one")?;
    put(alloc, &mut drive, "/a", b"two")?;
    assert_eq!(rt; put_back(alloc, &mut drive, 2, 2)?.as_str(), "200 3 bytes");
    assert_eq!(rt; versions(alloc, &drive, 2)?.as_str(), "4 3, 3 3, 2 3, ");
    let bytes = drive.store().version(ItemId(2), 4)?;
    assert!(rt; bytes.as_slice() == b"one".as_slice());
    assert_eq!(rt;
        put_back(alloc, &mut drive, 2, 7)?.as_str(),
        "404 itemNotFound"
    );
    assert_eq!(rt; drive.store().number(), 4);
    Ok(())
}
