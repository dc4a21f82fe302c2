use super::{condition, long, text};
use gd_api::Drive;
use gd_item::{Address, ErrorCode, ItemId, Reply, Request};
use gd_names::{Bytes, Conflict, Path};
use std::alloc::Global;
use std::test::Fail;

/// One byte more than a put takes.
const TOO_MANY: usize = 4_194_305;

/// The address of an item, or of a name in it.
pub fn address(alloc: Global, id: u64, name: &str) -> Result<Address, Fail> {
    if name.is_empty() {
        Ok(Address::Id(ItemId(id)))
    } else {
        Ok(Address::Child(ItemId(id), text(alloc, name)?))
    }
}

pub fn path(alloc: Global, bytes: &str) -> Result<Address, Fail> {
    Ok(Address::ByPath(Path::read(alloc, bytes.as_bytes())?))
}

/// The code that a refusal with the status has.
fn code_with(status: u16) -> ErrorCode {
    match status {
        404 => ErrorCode::ItemNotFound,
        409 => ErrorCode::NameAlreadyExists,
        412 => ErrorCode::ResourceModified,
        507 => ErrorCode::QuotaLimitReached,
        _ => ErrorCode::InvalidRequest,
    }
}

/// The status with which the drive refuses the request, or 0 where it does not, or where the code is another one.
pub fn status_of(drive: &mut Drive, request: &Request) -> u16 {
    match drive.handle(request) {
        Reply::Refused { status, code } => { if code == code_with(status) { status } else { 0 } }
        _ => 0,
    }
}

/// The status with which a folder is not made.
fn made_at(alloc: Global, drive: &mut Drive, at: Address, name: &str) -> Result<u16, Fail> {
    let request = Request::MakeFolder {
        at,
        name: text(alloc, name)?,
        behaviour: Conflict::Fail,
    };
    Ok(status_of(drive, &request))
}

/// The status with which a folder is not made in an item, or in a name in it.
fn made(alloc: Global, drive: &mut Drive, id: u64, child: &str, name: &str) -> Result<u16, Fail> {
    let at = address(alloc, id, child)?;
    made_at(alloc, drive, at, name)
}

/// The status with which bytes are not put, with a condition or none (`""`).
fn put_at(
    alloc: Global,
    drive: &mut Drive,
    at: Address,
    tag: &str,
    bytes: &[u8],
) -> Result<u16, Fail> {
    let request = Request::Put {
        at,
        bytes: Bytes::from_slice(alloc, bytes)?,
        behaviour: Conflict::Fail,
        condition: condition(alloc, tag)?,
    };
    Ok(status_of(drive, &request))
}

/// The status with which bytes are not put over an item, or under a name in it.
fn put(
    alloc: Global,
    drive: &mut Drive,
    id: u64,
    name: &str,
    tag: &str,
    bytes: &[u8],
) -> Result<u16, Fail> {
    let at = address(alloc, id, name)?;
    put_at(alloc, drive, at, tag, bytes)
}

/// The status with which a byte is not put at a path.
fn put_by_path(alloc: Global, drive: &mut Drive, at: &str, tag: &str) -> Result<u16, Fail> {
    let at = path(alloc, at)?;
    put_at(alloc, drive, at, tag, b"1")
}

/// Folder 2 `/d`, file 3 `/d/f` and folder 4 of 250 letters.
pub fn filled_drive(alloc: Global) -> Result<Drive, Fail> {
    let mut drive = Drive::new(alloc, 200)?;
    let name = long(alloc, "", 250)?;
    made(alloc, &mut drive, 1, "", "d")?;
    put(alloc, &mut drive, 2, "f", "", b"1")?;
    made(alloc, &mut drive, 1, "", name.as_str())?;
    Ok(drive)
}

#[test]
fn refused_folders(rt: HostRuntime) -> Result<(), Fail> {
    let alloc = rt.alloc();
    let mut drive = filled_drive(alloc)?;
    let long_name = long(alloc, "", 149)?;
    let rows = [
        (99, "", "n", 404),
        (1, "x", "n", 404),
        (99, "", "a:", 404),
        (1, "x", "a:", 404),
        (3, "", "n", 400),
        (1, "", "a:", 400),
        (1, "", "D", 409),
        (2, "", "F", 409),
        (4, "", long_name.as_str(), 400),
    ];
    for (id, child, name, status) in rows {
        assert_eq!(rt;
            made(alloc, &mut drive, id, child, name)?,
            status,
            "{name} in {id}"
        );
    }
    assert_eq!(rt; drive.store().number(), 4);
    Ok(())
}

#[test]
fn refused_files(rt: HostRuntime) -> Result<(), Fail> {
    let alloc = rt.alloc();
    let mut drive = filled_drive(alloc)?;
    let long_name = long(alloc, "", 149)?;
    let rows = [
        (99, "n", "", 404),
        (99, "a:", "", 404),
        (99, "n", "e1", 404),
        (3, "n", "", 400),
        (3, "n", "e1", 400),
        (1, "a:", "", 400),
        (1, "a:", "e1", 400),
        (1, "n", "e1", 412),
        (2, "f", "e1", 412),
        (4, long_name.as_str(), "e1", 412),
        (2, "F", "", 409),
        (4, long_name.as_str(), "", 400),
    ];
    for (id, name, tag, status) in rows {
        assert_eq!(rt;
            put(alloc, &mut drive, id, name, tag, b"1")?,
            status,
            "{name} in {id}, {tag}"
        );
    }
    assert_eq!(rt; drive.store().number(), 4);
    Ok(())
}

#[test]
fn files_not_put_over_an_item(rt: HostRuntime) -> Result<(), Fail> {
    let alloc = rt.alloc();
    let mut drive = filled_drive(alloc)?;
    let rows = [
        (99, "", 404),
        (99, "e1", 404),
        (1, "", 400),
        (2, "", 400),
        (2, "e9", 400),
        (3, "e9", 412),
    ];
    for (id, tag, status) in rows {
        assert_eq!(rt;
            put(alloc, &mut drive, id, "", tag, b"1")?,
            status,
            "{id}, {tag}"
        );
    }
    assert_eq!(rt; drive.store().number(), 4);
    Ok(())
}

#[test]
fn files_refused_by_path(rt: HostRuntime) -> Result<(), Fail> {
    let alloc = rt.alloc();
    let mut drive = filled_drive(alloc)?;
    let rows = [
        ("/x/n", "", 404),
        ("/x/n", "e1", 404),
        ("/", "", 400),
        ("/d/f/n", "", 400),
        ("/n", "e1", 412),
        ("/d/f", "", 409),
    ];
    for (at, tag, status) in rows {
        assert_eq!(rt;
            put_by_path(alloc, &mut drive, at, tag)?,
            status,
            "{at}, {tag}"
        );
    }
    Ok(())
}

#[test]
fn files_put_in_turn(rt: HostRuntime) -> Result<(), Fail> {
    let alloc = rt.alloc();
    let mut drive = Drive::new(alloc, 200)?;
    for (at, tag, status) in [
        ("/x/a", "", 404),
        ("/a", "e1", 412),
        ("/a", "", 0),
        ("/a", "", 409),
    ] {
        assert_eq!(rt;
            put_by_path(alloc, &mut drive, at, tag)?,
            status,
            "{at}, {tag}"
        );
    }
    Ok(())
}

#[test]
fn large_files_are_refused_first(rt: HostRuntime) -> Result<(), Fail> {
    let alloc = rt.alloc();
    let mut drive = filled_drive(alloc)?;
    let bytes = Vec::from_elem(alloc, 7, TOO_MANY)?;
    let rows = [
        (1, "n", ""),
        (99, "n", ""),
        (99, "", ""),
        (3, "n", ""),
        (2, "", ""),
        (1, "a:", ""),
        (1, "n", "e1"),
        (2, "f", ""),
    ];
    for (id, name, tag) in rows {
        assert_eq!(rt;
            put(alloc, &mut drive, id, name, tag, bytes.as_slice())?,
            413,
            "{name} in {id}, {tag}"
        );
    }
    assert_eq!(rt; drive.store().kept_bytes(), 1);
    Ok(())
}
