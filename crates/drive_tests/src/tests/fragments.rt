use super::requests::{address, filled_drive, path, status_of};
use super::{condition, long, text};
use gd_api::Drive;
use gd_item::{Address, Condition, ItemId, Place, Reply, Request, SessionFault};
use gd_names::{Bytes, Conflict};
use gd_upload::Sessions;
use std::alloc::Global;
use std::test::Fail;

/// As many bytes as a drive keeps.
const MOST_BYTES: u64 = 536_870_912;

/// Session 1, whose first fragment of 327,680 bytes of 655,361 came, and session 2, of which nothing came.
fn begun(alloc: Global) -> Result<Sessions, Fail> {
    let mut sessions = Sessions::new(alloc);
    for name in ["s", "t"] {
        let place = Place::Under(ItemId(1), text(alloc, name)?);
        sessions.begin(place, Conflict::Fail, Condition::Free, false)?;
    }
    let bytes = Vec::from_elem(alloc, 61, 327_680)?;
    sessions.fragment(1, 0, 327_679, 655_361, bytes.as_slice(), 0)?;
    Ok(sessions)
}

/// Why a fragment of so many bytes is not received, if it is not, where the drive keeps so many others.
fn fault_of(
    alloc: Global,
    sessions: &mut Sessions,
    session: u64,
    range: (u64, u64, u64),
    count: usize,
    kept: u64,
) -> Result<Option<SessionFault>, Fail> {
    let (first, last, total) = range;
    let bytes = Vec::from_elem(alloc, 61, count)?;
    let received = sessions.fragment(session, first, last, total, bytes.as_slice(), kept);
    Ok(received.err())
}

#[test]
fn refused_fragments(rt: HostRuntime) -> Result<(), Fail> {
    let alloc = rt.alloc();
    let mut sessions = begun(alloc)?;
    for (session, range, count, kept, fault) in [
        (3, (0, 9, 10), 10, 0, SessionFault::NoSession),
        (
            1,
            (327_680, 655_359, 655_362),
            327_680,
            0,
            SessionFault::Total,
        ),
        (2, (5, 4, 10), 0, 0, SessionFault::Form),
        (2, (0, 10, 10), 11, 0, SessionFault::Form),
        (2, (0, 9, 10), 9, 0, SessionFault::Form),
        (2, (0, 9, 67_108_865), 10, 0, SessionFault::TooLarge),
        (
            2,
            (0, 62_914_559, 67_108_864),
            62_914_560,
            0,
            SessionFault::TooLarge,
        ),
        (
            1,
            (0, 327_679, 655_361),
            327_680,
            0,
            SessionFault::Range(327_680),
        ),
        (2, (5, 9, 10), 5, 0, SessionFault::Range(0)),
        (2, (0, 4, 10), 5, 0, SessionFault::Multiple),
        (2, (0, 9, 10), 10, MOST_BYTES - 327_689, SessionFault::Quota),
    ] {
        assert_eq!(rt;
            fault_of(alloc, &mut sessions, session, range, count, kept)?,
            Some(fault),
            "{fault:?}"
        );
    }
    let received = fault_of(
        alloc,
        &mut sessions,
        2,
        (0, 9, 10),
        10,
        MOST_BYTES - 327_690,
    )?;
    assert_eq!(rt; received, None);
    Ok(())
}

#[test]
fn fragments_refused_for_the_first_of_two_causes(rt: HostRuntime) -> Result<(), Fail> {
    let alloc = rt.alloc();
    let mut sessions = begun(alloc)?;
    for (session, range, count, kept, fault) in [
        (3, (5, 4, 10), 0, 0, SessionFault::NoSession),
        (3, (0, 9, 67_108_865), 10, 0, SessionFault::NoSession),
        (3, (0, 4, 10), 5, 0, SessionFault::NoSession),
        (3, (0, 9, 10), 10, MOST_BYTES, SessionFault::NoSession),
        (1, (327_680, 327_679, 655_362), 0, 0, SessionFault::Total),
        (
            1,
            (327_680, 327_689, 67_108_865),
            10,
            0,
            SessionFault::Total,
        ),
        (1, (0, 327_679, 655_362), 327_680, 0, SessionFault::Total),
        (1, (327_680, 327_689, 655_362), 10, 0, SessionFault::Total),
        (
            1,
            (327_680, 655_359, 655_362),
            327_680,
            MOST_BYTES,
            SessionFault::Total,
        ),
        (2, (0, 9, 67_108_865), 9, 0, SessionFault::Form),
        (2, (5, 4, 10), 0, 0, SessionFault::Form),
        (2, (0, 4, 10), 4, 0, SessionFault::Form),
        (2, (0, 9, 10), 9, MOST_BYTES, SessionFault::Form),
        (2, (5, 9, 67_108_865), 5, 0, SessionFault::TooLarge),
        (2, (0, 9, 67_108_865), 10, 0, SessionFault::TooLarge),
        (
            2,
            (0, 327_679, 67_108_865),
            327_680,
            MOST_BYTES,
            SessionFault::TooLarge,
        ),
        (2, (5, 8, 10), 4, 0, SessionFault::Range(0)),
        (2, (5, 9, 10), 5, MOST_BYTES, SessionFault::Range(0)),
        (2, (0, 4, 10), 5, MOST_BYTES, SessionFault::Multiple),
    ] {
        assert_eq!(rt;
            fault_of(alloc, &mut sessions, session, range, count, kept)?,
            Some(fault),
            "{fault:?}"
        );
    }
    Ok(())
}

/// Opens a session that goes over a file.
fn open(
    alloc: Global,
    drive: &mut Drive,
    at: Address,
    tag: &str,
    defer: bool,
) -> Result<u16, Fail> {
    let request = Request::OpenSession {
        at,
        name: None,
        behaviour: Conflict::Replace,
        condition: condition(alloc, tag)?,
        defer,
    };
    Ok(status_of(drive, &request))
}

/// Puts a byte over what stands there.
fn put(alloc: Global, drive: &mut Drive, at: Address) -> Result<u16, Fail> {
    let request = Request::Put {
        at,
        bytes: Bytes::from_slice(alloc, b"1")?,
        behaviour: Conflict::Replace,
        condition: Condition::Free,
    };
    Ok(status_of(drive, &request))
}

fn make(alloc: Global, drive: &mut Drive, at: &str, name: &str) -> Result<u16, Fail> {
    let request = Request::MakeFolder {
        at: path(alloc, at)?,
        name: text(alloc, name)?,
        behaviour: Conflict::Fail,
    };
    Ok(status_of(drive, &request))
}

fn remove(drive: &mut Drive, id: u64) -> u16 {
    let request = Request::Delete {
        at: Address::Id(ItemId(id)),
        condition: Condition::Free,
    };
    status_of(drive, &request)
}

fn move_to(drive: &mut Drive, id: u64, parent: u64) -> u16 {
    let request = Request::Patch {
        at: Address::Id(ItemId(id)),
        name: None,
        parent: Some(ItemId(parent)),
        condition: Condition::Free,
    };
    status_of(drive, &request)
}

/// Folder 2 `/d`, file 3 `/d/f`, folder 4 of 250 letters, file 5 of 200 letters in 2, folder 6 `/e`, file 7 `/e/g` and
/// file 8 `/k`.
fn crowd(alloc: Global) -> Result<Drive, Fail> {
    let mut drive = filled_drive(alloc)?;
    let name = long(alloc, "", 200)?;
    put(alloc, &mut drive, Address::Child(ItemId(2), name))?;
    make(alloc, &mut drive, "/", "e")?;
    put(alloc, &mut drive, path(alloc, "/e/g")?)?;
    put(alloc, &mut drive, path(alloc, "/k")?)?;
    Ok(drive)
}

/// Sessions 1 to 7 on that drive.
fn opened(alloc: Global, defer: bool) -> Result<Drive, Fail> {
    let mut drive = crowd(alloc)?;
    let letters = long(alloc, "", 200)?;
    let others = long(alloc, "y", 200)?;
    for (id, name, tag) in [
        (2, others.as_str(), ""),
        (2, letters.as_str(), "e5"),
        (2, "f", "e3"),
        (1, "s", ""),
        (7, "", "e7"),
        (6, "h", ""),
        (8, "", "e8"),
    ] {
        let at = address(alloc, id, name)?;
        open(alloc, &mut drive, at, tag, defer)?;
    }
    Ok(drive)
}

/// Others remove file 5, put a folder in the place of file 3, make a folder `/s`, remove folder 6, put bytes over file 8, and
/// move folder 2 into folder 4.
fn overtake(alloc: Global, drive: &mut Drive) -> Result<u16, Fail> {
    let mut refused = remove(drive, 5).max(remove(drive, 3));
    refused = refused.max(make(alloc, drive, "/d", "f")?);
    refused = refused.max(make(alloc, drive, "/", "s")?);
    refused = refused.max(remove(drive, 6));
    refused = refused.max(put(alloc, drive, Address::Id(ItemId(8)))?);
    refused = refused.max(move_to(drive, 2, 4));
    Ok(refused)
}

/// The status with which the only fragment of a session is not received.
fn send(alloc: Global, drive: &mut Drive, session: u64) -> Result<u16, Fail> {
    let request = Request::Fragment {
        session,
        first: 0,
        last: 9,
        total: 10,
        bytes: Bytes::from_slice(alloc, b"0123456789")?,
    };
    Ok(status_of(drive, &request))
}

/// How many bytes of a session came.
fn count_of(drive: &mut Drive, session: u64) -> u64 {
    match drive.handle(&Request::SessionStatus { session }) {
        Reply::Status { expected } => expected,
        _ => u64::MAX,
    }
}

/// The sessions, and why each of them is refused.
const OVERTAKEN: [(u64, u16); 7] = [
    (1, 400),
    (2, 412),
    (3, 412),
    (4, 409),
    (5, 404),
    (6, 404),
    (7, 412),
];

#[test]
fn overtaken_sessions_are_not_completed(rt: HostRuntime) -> Result<(), Fail> {
    let alloc = rt.alloc();
    let mut drive = opened(alloc, false)?;
    assert_eq!(rt; overtake(alloc, &mut drive)?, 0);
    let number = drive.store().number();
    for (session, status) in OVERTAKEN {
        assert_eq!(rt; send(alloc, &mut drive, session)?, status, "{session}");
        assert_eq!(rt; count_of(&mut drive, session), 0, "{session}");
    }
    assert_eq!(rt; drive.store().number(), number);
    Ok(())
}

#[test]
fn overtaken_sessions_are_not_finished(rt: HostRuntime) -> Result<(), Fail> {
    let alloc = rt.alloc();
    let mut drive = opened(alloc, true)?;
    assert_eq!(rt; overtake(alloc, &mut drive)?, 0);
    for (session, status) in OVERTAKEN {
        assert_eq!(rt; status_of(&mut drive, &Request::Finish { session }), 400);
        assert_eq!(rt; send(alloc, &mut drive, session)?, 0, "{session}");
        assert_eq!(rt;
            status_of(&mut drive, &Request::Finish { session }),
            status,
            "{session}"
        );
        assert_eq!(rt; count_of(&mut drive, session), 10, "{session}");
    }
    Ok(())
}
