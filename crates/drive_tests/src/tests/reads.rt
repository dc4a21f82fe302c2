use super::requests::{address, filled_drive, path, status_of};
use super::text;
use gd_api::Drive;
use gd_item::{Address, Condition, ItemId, Request};
use gd_names::{Bytes, Conflict};
use std::alloc::Global;
use std::test::Fail;

/// The status with which the record of an item is not given.
fn get(alloc: Global, drive: &mut Drive, id: u64, name: &str) -> Result<u16, Fail> {
    let at = address(alloc, id, name)?;
    Ok(status_of(drive, &Request::Get { at }))
}

/// The status with which the record at a path is not given.
fn get_by_path(alloc: Global, drive: &mut Drive, bytes: &str) -> Result<u16, Fail> {
    let at = path(alloc, bytes)?;
    Ok(status_of(drive, &Request::Get { at }))
}

/// The status with which the children of an item are not given.
fn list(alloc: Global, drive: &mut Drive, id: u64, name: &str) -> Result<u16, Fail> {
    let at = address(alloc, id, name)?;
    Ok(status_of(drive, &Request::Children { at, after: None }))
}

/// The status with which the place of an item's bytes is not given.
fn find(alloc: Global, drive: &mut Drive, id: u64, name: &str) -> Result<u16, Fail> {
    let at = address(alloc, id, name)?;
    Ok(status_of(drive, &Request::Content { at }))
}

/// The status with which a version is not given.
fn download(drive: &mut Drive, id: u64, version: u64) -> u16 {
    let id = ItemId(id);
    status_of(drive, &Request::Download { id, version })
}

/// The status with which a file is not removed.
fn remove(drive: &mut Drive, id: u64) -> u16 {
    let request = Request::Delete {
        at: Address::Id(ItemId(id)),
        condition: Condition::Free,
    };
    status_of(drive, &request)
}

/// The status with which the feed past a token is not given.
fn feed(alloc: Global, drive: &mut Drive, token: &str) -> Result<u16, Fail> {
    let token = Some(text(alloc, token)?);
    Ok(status_of(drive, &Request::Delta { token }))
}

/// The status with which a fragment is not received.
fn send(alloc: Global, drive: &mut Drive) -> Result<u16, Fail> {
    let request = Request::Fragment {
        session: 1,
        first: 0,
        last: 0,
        total: 1,
        bytes: Bytes::from_slice(alloc, b"1")?,
    };
    Ok(status_of(drive, &request))
}

/// The status with which a session is not described.
fn ask(drive: &mut Drive) -> u16 {
    status_of(drive, &Request::SessionStatus { session: 1 })
}

/// The status with which a session is not cancelled.
fn cancel(drive: &mut Drive) -> u16 {
    status_of(drive, &Request::CancelSession { session: 1 })
}

/// The status with which a session is not finished.
fn finish(drive: &mut Drive) -> u16 {
    status_of(drive, &Request::Finish { session: 1 })
}

#[test]
fn refused_items(rt: HostRuntime) -> Result<(), Fail> {
    let alloc = rt.alloc();
    let mut drive = filled_drive(alloc)?;
    for (id, name) in [(0, ""), (99, ""), (1, "x"), (3, "x"), (99, "f")] {
        assert_eq!(rt; get(alloc, &mut drive, id, name)?, 404, "{name} in {id}");
    }
    Ok(())
}

#[test]
fn refused_items_by_path(rt: HostRuntime) -> Result<(), Fail> {
    let alloc = rt.alloc();
    let mut drive = filled_drive(alloc)?;
    for at in ["/x", "/x/f", "/d/f/x"] {
        assert_eq!(rt; get_by_path(alloc, &mut drive, at)?, 404, "{at}");
    }
    Ok(())
}

#[test]
fn refused_lists(rt: HostRuntime) -> Result<(), Fail> {
    let alloc = rt.alloc();
    let mut drive = filled_drive(alloc)?;
    for (id, name, status) in [(99, "", 404), (1, "x", 404), (3, "", 400), (2, "f", 400)] {
        assert_eq!(rt;
            list(alloc, &mut drive, id, name)?,
            status,
            "{name} in {id}"
        );
    }
    Ok(())
}

#[test]
fn refused_contents(rt: HostRuntime) -> Result<(), Fail> {
    let alloc = rt.alloc();
    let mut drive = filled_drive(alloc)?;
    for (id, name, status) in [(99, "", 404), (2, "x", 404), (1, "", 400), (1, "d", 400)] {
        assert_eq!(rt;
            find(alloc, &mut drive, id, name)?,
            status,
            "{name} in {id}"
        );
    }
    Ok(())
}

#[test]
fn refused_downloads(rt: HostRuntime) -> Result<(), Fail> {
    let alloc = rt.alloc();
    let mut drive = filled_drive(alloc)?;
    for (id, version) in [(99, 3), (1, 1), (2, 2), (3, 2), (3, 4)] {
        assert_eq!(rt; download(&mut drive, id, version), 404, "{version} of {id}");
    }
    assert_eq!(rt; remove(&mut drive, 3), 0);
    assert_eq!(rt; download(&mut drive, 3, 3), 404);
    Ok(())
}

#[test]
fn refused_tokens(rt: HostRuntime) -> Result<(), Fail> {
    let alloc = rt.alloc();
    let mut drive = filled_drive(alloc)?;
    let tokens = [
        "",
        "x1.1.1",
        "t1.1",
        "t1.1.1.1",
        "t01.1.1",
        "t1.1.-1",
        "t1.1.18446744073709551616",
        "t1.5.1",
        "t1.1.5",
    ];
    for token in tokens {
        assert_eq!(rt; feed(alloc, &mut drive, token)?, 400, "{token}");
    }
    Ok(())
}

#[test]
fn sessions_that_were_not_opened(rt: HostRuntime) -> Result<(), Fail> {
    let alloc = rt.alloc();
    let mut drive = filled_drive(alloc)?;
    assert_eq!(rt; send(alloc, &mut drive)?, 404);
    assert_eq!(rt; ask(&mut drive), 404);
    assert_eq!(rt; cancel(&mut drive), 404);
    assert_eq!(rt; finish(&mut drive), 404);
    Ok(())
}
