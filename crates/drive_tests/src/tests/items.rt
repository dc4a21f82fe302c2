use gd_item::{
    Address, Condition, Digest, ItemId, Request, RequestKind, StoreFault, ctag_of, digest_of,
    etag_of, matches,
};
use gd_names::{Conflict, Path, Text};
use std::test::Fail;

const EMPTY: [u8; 32] = [
    0xe3, 0xb0, 0xc4, 0x42, 0x98, 0xfc, 0x1c, 0x14, 0x9a, 0xfb, 0xf4, 0xc8, 0x99, 0x6f, 0xb9, 0x24,
    0x27, 0xae, 0x41, 0xe4, 0x64, 0x9b, 0x93, 0x4c, 0xa4, 0x95, 0x99, 0x1b, 0x78, 0x52, 0xb8, 0x55,
];

const HI: [u8; 32] = [
    0x8f, 0x43, 0x43, 0x46, 0x64, 0x8f, 0x6b, 0x96, 0xdf, 0x89, 0xdd, 0xa9, 0x01, 0xc5, 0x17, 0x6b,
    0x10, 0xa6, 0xd8, 0x39, 0x61, 0xdd, 0x3c, 0x1a, 0xc8, 0x8b, 0x59, 0xb2, 0xdc, 0x32, 0x7a, 0xa4,
];

#[test]
fn ids_are_written_and_read(rt: HostRuntime) -> Result<(), Fail> {
    let text = ItemId(26).write(rt.alloc())?;
    assert_eq!(rt; text.as_str(), "01GD000000000000001A");
    for (text, id) in [
        ("01GD000000000000001A", Some(ItemId(26))),
        ("01GD000000000000001a", None),
        ("01GD0000000000000000", None),
        ("01GDFFFFFFFFFFFFFFFF", Some(ItemId(u64::MAX))),
        ("01GD00000000000001A", None),
        ("01gd000000000000001A", None),
    ] {
        assert!(rt; ItemId::read(text.as_bytes()) == id, "{text}");
    }
    Ok(())
}

#[test]
fn digests_are_sha_256(rt: HostRuntime) {
    assert!(rt; digest_of(b"hi") == Digest(HI));
    assert!(rt; digest_of(b"") == Digest(EMPTY));
}

#[test]
fn conditions_match_tags(rt: HostRuntime) -> Result<(), Fail> {
    let etag = etag_of(rt.alloc(), 12)?;
    let ctag = ctag_of(rt.alloc(), u64::MAX)?;
    assert_eq!(rt; etag.0.as_str(), "e12");
    assert_eq!(rt; ctag.0.as_str(), "c18446744073709551615");
    assert!(rt; matches(&Condition::Free, &etag, None));
    for (text, with_ctag, without) in [
        ("*", true, true),
        ("e12", true, true),
        ("\"e12\"", true, true),
        ("\"c18446744073709551615\"", true, false),
        ("e1", false, false),
        ("\"e12", false, false),
        ("", false, false),
    ] {
        let condition = Condition::Match(Text::from_str(rt.alloc(), text)?);
        assert_eq!(rt;
            matches(&condition, &etag, Some(&ctag)),
            with_ctag,
            "{text}"
        );
        assert_eq!(rt; matches(&condition, &etag, None), without, "{text}");
    }
    Ok(())
}

#[test]
fn refusals_have_a_status_and_a_code(rt: HostRuntime) {
    for (fault, status, code) in [
        (StoreFault::NotFound, 404, "itemNotFound"),
        (StoreFault::Root, 400, "invalidRequest"),
        (StoreFault::NameTaken, 409, "nameAlreadyExists"),
        (StoreFault::Modified, 412, "resourceModified"),
        (StoreFault::Quota, 507, "quotaLimitReached"),
        (StoreFault::Memory, 503, "generalException"),
    ] {
        assert_eq!(rt; fault.status(), status, "{code}");
        assert_eq!(rt; fault.code().as_str(), code);
    }
}

#[test]
fn requests_have_a_kind(rt: HostRuntime) -> Result<(), Fail> {
    let request = Request::MakeFolder {
        at: Address::ByPath(Path::root(rt.alloc())),
        name: Text::from_str(rt.alloc(), "Docs")?,
        behaviour: Conflict::Fail,
    };
    assert!(rt; request.kind() == RequestKind::MakeFolder);
    Ok(())
}
