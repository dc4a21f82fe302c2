use crate::tests::drive::OneFile;
use gd_item::{ItemId, Reply, Request};
use gd_names::Bytes;
use od_remote::{AskFault, ServeFault, ask_again, ask_until_served};
use std::test::Fail;

const DOWNLOAD: Request = Request::Download {
    id: ItemId(2),
    version: 2,
};

/// A request that was lost twice has its reply.
#[test]
fn a_third_send_has_its_reply(rt: HostRuntime) -> Result<(), Fail> {
    let alloc = rt.alloc();
    let mut drive = OneFile::new(alloc, 2)?;
    let reply = ask_again(&mut drive, alloc, &DOWNLOAD)?;
    assert_eq!(rt; reply, Reply::Content(Bytes::from_slice(alloc, b"abc")?));
    assert_eq!(rt; drive.faults, 2);
    Ok(())
}

/// A request is sent three times at most.
#[test]
fn a_fourth_send_is_not_made(rt: HostRuntime) -> Result<(), Fail> {
    let alloc = rt.alloc();
    let mut drive = OneFile::new(alloc, 4)?;
    assert_eq!(rt;
        ask_again(&mut drive, alloc, &DOWNLOAD),
        Err(AskFault::Failed)
    );
    assert_eq!(rt; drive.lost, 1);
    Ok(())
}

/// Three requests for changes that the drive did not serve are told as that, and so are fewer beside lost ones.
#[test]
fn an_unserved_request_is_told(rt: HostRuntime) -> Result<(), Fail> {
    let alloc = rt.alloc();
    for (lost, end, answers) in [
        (0, ServeFault::Unserved, 3),
        (2, ServeFault::Unserved, 1),
        (3, ServeFault::Failed, 0),
    ] {
        let mut drive = OneFile::new(alloc, lost)?;
        let request = Request::Delta { token: None };
        assert_eq!(rt; ask_until_served(&mut drive, alloc, &request), Err(end));
        assert_eq!(rt; drive.answers, answers);
    }
    Ok(())
}
