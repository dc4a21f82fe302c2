use super::requests::path;
use super::{condition, text};
use gd_api::Drive;
use gd_item::{Address, Condition, Item, ItemId, Kind, PageLink, Reply, Request};
use gd_names::{Bytes, Conflict, Text};
use std::alloc::Global;
use std::test::Fail;

/// The number, the tag and the name of an item, or that it is deleted.
fn told_item(alloc: Global, item: &Item) -> Result<String, Fail> {
    let name = if item.kind == Kind::Deleted {
        "deleted"
    } else {
        item.name.as_str()
    };
    Ok(format!(in alloc; "{} {} {name}", item.id.0, item.etag.0.as_str())?)
}

/// The same of items in a row.
fn told_items(alloc: Global, items: &[Item]) -> Result<String, Fail> {
    let mut all = String::new(alloc);
    for item in items {
        let one = told_item(alloc, item)?;
        all.push_str(one.as_str())?;
        all.push_str(", ")?;
    }
    Ok(all)
}

/// A list and the name after which it goes on.
fn told_list(alloc: Global, items: &[Item], next: Option<&str>) -> Result<String, Fail> {
    let mut all = told_items(alloc, items)?;
    all.push_str(next.unwrap_or("end"))?;
    Ok(all)
}

/// A page and its token.
fn told_page(alloc: Global, items: &[Item], link: &PageLink) -> Result<String, Fail> {
    let mut all = told_items(alloc, items)?;
    match link {
        PageLink::Delta(token) => all.push_str(token.as_str())?,
        PageLink::Next(_) => all.push_str("more")?,
    }
    Ok(all)
}

/// A reply in words.
fn told(alloc: Global, reply: &Reply) -> Result<String, Fail> {
    match reply {
        Reply::Made(item) => {
            let item = told_item(alloc, item)?;
            Ok(format!(in alloc; "made {}", item.as_str())?)
        }
        Reply::Is(item) => told_item(alloc, item),
        Reply::Listed { items, next } => told_list(alloc, items.as_slice(), name_of(next)),
        Reply::Done => Ok(String::from_str(alloc, "done")?),
        Reply::Found { id, version } => Ok(format!(in alloc; "{} of {}", *version, id.0)?),
        Reply::Content(bytes) => Ok(format!(in alloc; "{} bytes", bytes.len())?),
        Reply::Page(page) => told_page(alloc, page.items.as_slice(), &page.link),
        Reply::Refused { status, .. } => Ok(format!(in alloc; "{}", *status)?),
        _ => Ok(String::new(alloc)),
    }
}

fn name_of(next: &Option<Text>) -> Option<&str> {
    match next {
        None => None,
        Some(name) => Some(name.as_str()),
    }
}

/// What the drive replies, in words.
fn reply(alloc: Global, drive: &mut Drive, request: &Request) -> Result<String, Fail> {
    let reply = drive.handle(request);
    told(alloc, &reply)
}

fn make_folder(alloc: Global, drive: &mut Drive, at: &str, name: &str) -> Result<String, Fail> {
    let request = Request::MakeFolder {
        at: path(alloc, at)?,
        name: text(alloc, name)?,
        behaviour: Conflict::Fail,
    };
    reply(alloc, drive, &request)
}

/// Puts two bytes, with a condition or none (`""`).
fn put(alloc: Global, drive: &mut Drive, at: &str, tag: &str) -> Result<String, Fail> {
    let request = Request::Put {
        at: path(alloc, at)?,
        bytes: Bytes::from_slice(alloc, b"hi")?,
        behaviour: Conflict::Replace,
        condition: condition(alloc, tag)?,
    };
    reply(alloc, drive, &request)
}

fn rename(alloc: Global, drive: &mut Drive, at: &str, name: &str) -> Result<String, Fail> {
    let request = Request::Patch {
        at: path(alloc, at)?,
        name: Some(text(alloc, name)?),
        parent: None,
        condition: Condition::Free,
    };
    reply(alloc, drive, &request)
}

/// Moves an item to a folder.
fn move_to(alloc: Global, drive: &mut Drive, at: &str, parent: u64) -> Result<String, Fail> {
    let request = Request::Patch {
        at: path(alloc, at)?,
        name: None,
        parent: Some(ItemId(parent)),
        condition: Condition::Free,
    };
    reply(alloc, drive, &request)
}

/// Moves an item to no other place.
fn move_nowhere(alloc: Global, drive: &mut Drive, at: &str) -> Result<String, Fail> {
    let request = Request::Patch {
        at: path(alloc, at)?,
        name: None,
        parent: None,
        condition: Condition::Free,
    };
    reply(alloc, drive, &request)
}

fn delete(alloc: Global, drive: &mut Drive, at: &str) -> Result<String, Fail> {
    let request = Request::Delete {
        at: path(alloc, at)?,
        condition: Condition::Free,
    };
    reply(alloc, drive, &request)
}

fn get(alloc: Global, drive: &mut Drive, at: &str) -> Result<String, Fail> {
    let at = path(alloc, at)?;
    reply(alloc, drive, &Request::Get { at })
}

/// The children past a name, or all (`""`).
fn list(alloc: Global, drive: &mut Drive, at: &str, after: &str) -> Result<String, Fail> {
    let at = path(alloc, at)?;
    let after = if after.is_empty() {
        None
    } else {
        Some(text(alloc, after)?)
    };
    reply(alloc, drive, &Request::Children { at, after })
}

fn content(alloc: Global, drive: &mut Drive, at: &str) -> Result<String, Fail> {
    let at = path(alloc, at)?;
    reply(alloc, drive, &Request::Content { at })
}

fn download(alloc: Global, drive: &mut Drive, id: u64, version: u64) -> Result<String, Fail> {
    let id = ItemId(id);
    reply(alloc, drive, &Request::Download { id, version })
}

/// The feed past a token, or from the beginning (`""`).
fn feed(alloc: Global, drive: &mut Drive, token: &str) -> Result<String, Fail> {
    let token = if token.is_empty() {
        None
    } else {
        Some(text(alloc, token)?)
    };
    reply(alloc, drive, &Request::Delta { token })
}

/// Folder 2 `/d`, and file 3 `/d/f` of two bytes.
fn small(alloc: Global) -> Result<Drive, Fail> {
    let mut drive = Drive::new(alloc, 200)?;
    make_folder(alloc, &mut drive, "/", "d")?;
    put(alloc, &mut drive, "/d/f", "")?;
    Ok(drive)
}

#[test]
fn steps_are_answered(rt: HostRuntime) -> Result<(), Fail> {
    let alloc = rt.alloc();
    let mut drive = Drive::new(alloc, 200)?;
    let made = make_folder(alloc, &mut drive, "/", "d")?;
    assert_eq!(rt; made.as_str(), "made 2 e2 d");
    for (at, tag, told) in [
        ("/d/f", "", "made 3 e3 f"),
        ("/d/F", "e3", "3 e4 f"),
        ("/d/f", "e3", "412"),
        ("/x/f", "", "404"),
    ] {
        assert_eq!(rt; put(alloc, &mut drive, at, tag)?.as_str(), told);
    }
    let renamed = rename(alloc, &mut drive, "/d/f", "F")?;
    assert_eq!(rt; renamed.as_str(), "3 e5 F");
    assert_eq!(rt; drive.store().number(), 5);
    Ok(())
}

#[test]
fn reads_are_answered(rt: HostRuntime) -> Result<(), Fail> {
    let alloc = rt.alloc();
    let mut drive = small(alloc)?;
    assert_eq!(rt; get(alloc, &mut drive, "/d/f")?.as_str(), "3 e3 f");
    assert_eq!(rt; list(alloc, &mut drive, "/d", "")?.as_str(), "3 e3 f, end");
    assert_eq!(rt; content(alloc, &mut drive, "/d/f")?.as_str(), "3 of 3");
    assert_eq!(rt; download(alloc, &mut drive, 3, 3)?.as_str(), "2 bytes");
    assert_eq!(rt; drive.store().number(), 3);
    Ok(())
}

#[test]
fn the_feed_is_answered(rt: HostRuntime) -> Result<(), Fail> {
    let alloc = rt.alloc();
    let mut drive = small(alloc)?;
    for (token, told) in [
        ("", "1 e1 root, 2 e2 d, 3 e3 f, t1.3.3"),
        ("t1.2.2", "3 e3 f, t1.3.2"),
        ("t1.3.3", "t1.3.3"),
    ] {
        assert_eq!(rt; feed(alloc, &mut drive, token)?.as_str(), told);
    }
    Ok(())
}

#[test]
fn a_folder_is_removed_with_all_below_it(rt: HostRuntime) -> Result<(), Fail> {
    let alloc = rt.alloc();
    let mut drive = small(alloc)?;
    assert_eq!(rt; delete(alloc, &mut drive, "/d")?.as_str(), "done");
    for (token, told) in [
        ("t1.3.3", "3 e4 deleted, 2 e5 deleted, t1.5.3"),
        ("t1.3.4", "2 e5 deleted, t1.5.4"),
        ("", "1 e1 root, t1.5.5"),
    ] {
        assert_eq!(rt; feed(alloc, &mut drive, token)?.as_str(), told);
    }
    Ok(())
}

#[test]
fn refused_moves(rt: HostRuntime) -> Result<(), Fail> {
    let alloc = rt.alloc();
    let mut drive = small(alloc)?;
    make_folder(alloc, &mut drive, "/d", "e")?;
    for (at, parent, told) in [
        ("/d", 4, "400"),
        ("/d", 9, "404"),
        ("/d/f", 4, "3 e5 f"),
        ("/", 4, "400"),
    ] {
        assert_eq!(rt; move_to(alloc, &mut drive, at, parent)?.as_str(), told);
    }
    assert_eq!(rt; move_nowhere(alloc, &mut drive, "/d")?.as_str(), "400");
    assert_eq!(rt; move_nowhere(alloc, &mut drive, "/x")?.as_str(), "400");
    assert_eq!(rt; delete(alloc, &mut drive, "/")?.as_str(), "400");
    Ok(())
}

#[test]
fn lists_are_given_in_parts(rt: HostRuntime) -> Result<(), Fail> {
    let alloc = rt.alloc();
    let mut drive = Drive::new(alloc, 200)?;
    drive.set_page(1);
    put(alloc, &mut drive, "/b", "")?;
    put(alloc, &mut drive, "/A", "")?;
    for (after, told) in [("", "3 e3 A, A"), ("A", "2 e2 b, end"), ("b", "end")] {
        assert_eq!(rt; list(alloc, &mut drive, "/", after)?.as_str(), told);
    }
    Ok(())
}
