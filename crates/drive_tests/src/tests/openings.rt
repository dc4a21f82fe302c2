use super::requests::{address, filled_drive, status_of};
use super::{condition, long, text};
use gd_api::Drive;
use gd_item::Request;
use gd_names::{Conflict, Text};
use std::alloc::Global;
use std::test::Fail;

/// A name of a body that may be there (`""`).
fn body_name(alloc: Global, name: &str) -> Result<Option<Text>, Fail> {
    if name.is_empty() {
        Ok(None)
    } else {
        Ok(Some(text(alloc, name)?))
    }
}

/// The status with which no session is opened for an item, or for a name in it, with a name in the body or none
/// (`""`), and a condition or none (`""`).
fn open(
    alloc: Global,
    drive: &mut Drive,
    id: u64,
    name: &str,
    body: &str,
    tag: &str,
) -> Result<u16, Fail> {
    let request = Request::OpenSession {
        at: address(alloc, id, name)?,
        name: body_name(alloc, body)?,
        behaviour: Conflict::Fail,
        condition: condition(alloc, tag)?,
        defer: false,
    };
    Ok(status_of(drive, &request))
}

#[test]
fn refused_openings(rt: HostRuntime) -> Result<(), Fail> {
    let alloc = rt.alloc();
    let mut drive = filled_drive(alloc)?;
    let long_name = long(alloc, "", 149)?;
    for (id, name, body, tag, status) in [
        (1, "n", "m", "", 400),
        (99, "n", "", "", 404),
        (99, "", "", "", 404),
        (3, "n", "", "", 400),
        (2, "", "", "", 400),
        (1, "a:", "", "", 400),
        (1, "n", "", "e1", 412),
        (3, "", "", "e9", 412),
        (2, "F", "", "", 409),
        (4, long_name.as_str(), "", "", 400),
        (3, "", "m", "", 0),
    ] {
        assert_eq!(rt;
            open(alloc, &mut drive, id, name, body, tag)?,
            status,
            "{name} in {id}, {body}, {tag}"
        );
    }
    Ok(())
}

#[test]
fn openings_refused_for_the_first_of_two_causes(rt: HostRuntime) -> Result<(), Fail> {
    let alloc = rt.alloc();
    let mut drive = filled_drive(alloc)?;
    let long_name = long(alloc, "", 149)?;
    for (id, name, body, tag, status) in [
        (99, "n", "m", "", 400),
        (1, "n", "m", "e1", 400),
        (2, "f", "m", "", 400),
        (99, "a:", "", "", 404),
        (99, "n", "", "e1", 404),
        (99, "", "", "e1", 404),
        (3, "n", "", "e1", 400),
        (2, "", "", "e9", 400),
        (1, "a:", "", "e1", 400),
        (2, "f", "", "e1", 412),
        (4, long_name.as_str(), "", "e1", 412),
    ] {
        assert_eq!(rt;
            open(alloc, &mut drive, id, name, body, tag)?,
            status,
            "{name} in {id}, {body}, {tag}"
        );
    }
    Ok(())
}

/// The same drive with as many sessions as may live.
fn crowded(alloc: Global) -> Result<Drive, Fail> {
    let mut drive = filled_drive(alloc)?;
    for _ in 0..1000 {
        open(alloc, &mut drive, 1, "n", "", "")?;
    }
    Ok(drive)
}

#[test]
fn many_sessions_are_the_last_cause(rt: HostRuntime) -> Result<(), Fail> {
    let alloc = rt.alloc();
    let mut drive = crowded(alloc)?;
    let long_name = long(alloc, "", 149)?;
    for (id, name, body, tag, status) in [
        (1, "n", "", "", 507),
        (1, "n", "m", "", 400),
        (99, "n", "", "", 404),
        (3, "n", "", "", 400),
        (2, "", "", "", 400),
        (1, "a:", "", "", 400),
        (1, "n", "", "e1", 412),
        (2, "f", "", "", 409),
        (4, long_name.as_str(), "", "", 400),
    ] {
        assert_eq!(rt;
            open(alloc, &mut drive, id, name, body, tag)?,
            status,
            "{name} in {id}, {body}, {tag}"
        );
    }
    assert_eq!(rt;
        status_of(&mut drive, &Request::CancelSession { session: 500 }),
        0
    );
    assert_eq!(rt; open(alloc, &mut drive, 1, "n", "", "")?, 0);
    Ok(())
}
