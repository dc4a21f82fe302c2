use super::requests::{address, path, status_of};
use super::text;
use gd_api::Drive;
use gd_item::{Condition, Page, PageLink, Reply, Request};
use gd_names::{Bytes, Conflict, Text};
use std::alloc::Global;
use std::test::Fail;

/// How many files are in each of 20 folders.
const FILES: u64 = 1_000;

fn make(alloc: Global, drive: &mut Drive, name: &str) -> Result<u16, Fail> {
    let request = Request::MakeFolder {
        at: path(alloc, "/")?,
        name: text(alloc, name)?,
        behaviour: Conflict::Fail,
    };
    Ok(status_of(drive, &request))
}

/// The number of the item of a reply, or 0.
fn number_of(reply: &Reply) -> u64 {
    match reply {
        Reply::Made(item) => item.id.0,
        Reply::Is(item) => item.id.0,
        _ => 0,
    }
}

/// Puts a byte at a name in a folder, and gives the file's number.
fn put_in(alloc: Global, drive: &mut Drive, folder: u64, name: u64) -> Result<u64, Fail> {
    let name = format!(in alloc; "{name}")?;
    let request = Request::Put {
        at: address(alloc, folder, name.as_str())?,
        bytes: Bytes::from_slice(alloc, b"1")?,
        behaviour: Conflict::Replace,
        condition: Condition::Free,
    };
    let reply = drive.handle(&request);
    Ok(number_of(&reply))
}

/// Folders 2 to 21, and so many files in each.
fn folders_of(alloc: Global, files: u64) -> Result<Drive, Fail> {
    let mut drive = Drive::new(alloc, 200)?;
    for folder in 2..22 {
        let name = format!(in alloc; "{folder}")?;
        make(alloc, &mut drive, name.as_str())?;
    }
    for folder in 2..22 {
        for name in 0..files {
            put_in(alloc, &mut drive, folder, name)?;
        }
    }
    Ok(drive)
}

/// The number of the only item of a last page, or 0, and the token of its link.
fn only_item(page: Page) -> (u64, Text) {
    let Page { items, link } = page;
    let number = match items.as_slice() {
        [item] => item.id.0,
        _ => 0,
    };
    match link {
        PageLink::Delta(token) => (number, token),
        PageLink::Next(token) => (0, token),
    }
}

/// The number of the only item that changed since a token, or 0, and the next token.
fn change_since(
    alloc: Global,
    drive: &mut Drive,
    token: Option<Text>,
) -> Result<(u64, Option<Text>), Fail> {
    match drive.handle(&Request::Delta { token }) {
        Reply::Page(page) => {
            let (number, token) = only_item(page);
            Ok((number, Some(token)))
        }
        _ => Ok((0, Some(text(alloc, "")?))),
    }
}

#[test]
fn each_of_many_changes_is_a_page_of_its_own(rt: HostRuntime) -> Result<(), Fail> {
    let alloc = rt.alloc();
    let mut drive = folders_of(alloc, FILES)?;
    assert_eq!(rt; drive.store().live_items(), 20_021);
    let mut token = Some(text(alloc, "latest")?);
    (_, token) = change_since(alloc, &mut drive, token)?;
    for name in 0..10 {
        for folder in 2..22 {
            let replaced = put_in(alloc, &mut drive, folder, name)?;
            let (changed, next) = change_since(alloc, &mut drive, token)?;
            assert!(rt; changed == replaced && changed != 0, "{name} in {folder}");
            token = next;
        }
    }
    Ok(())
}

/// Puts so many bytes at a name in the root, and gives the status of the refusal, or 0.
fn put_large(alloc: Global, drive: &mut Drive, name: &str, length: usize) -> Result<u16, Fail> {
    let bytes = Vec::from_elem(alloc, 7, length)?;
    let request = Request::Put {
        at: address(alloc, 1, name)?,
        bytes: Bytes::from_slice(alloc, bytes.as_slice())?,
        behaviour: Conflict::Replace,
        condition: Condition::Free,
    };
    Ok(status_of(drive, &request))
}

#[test]
fn replaced_bytes_count_towards_the_most_that_a_drive_keeps(rt: HostRuntime) -> Result<(), Fail> {
    let alloc = rt.alloc();
    let mut drive = Drive::new(alloc, 200)?;
    for time in 0..128 {
        let status = put_large(alloc, &mut drive, "a", 4_194_304)?;
        assert!(rt; status == 0, "{time}");
    }
    assert_eq!(rt; drive.store().kept_bytes(), 536_870_912);
    assert_eq!(rt; put_large(alloc, &mut drive, "b", 1)?, 507);
    assert_eq!(rt; put_large(alloc, &mut drive, "b", 0)?, 0);
    Ok(())
}
