use super::*;
use gd_item::{Digest, ErrorCode, Item, ItemId, Kind, Page, PageLink, Tag};
use gd_names::{Conflict, List, Text};
use std::alloc::Global;
use std::test::Fail;

mod repeated;

const HI: [u8; 32] = [
    0x8f, 0x43, 0x43, 0x46, 0x64, 0x8f, 0x6b, 0x96, 0xdf, 0x89, 0xdd, 0xa9, 0x01, 0xc5, 0x17, 0x6b,
    0x10, 0xa6, 0xd8, 0x39, 0x61, 0xdd, 0x3c, 0x1a, 0xc8, 0x8b, 0x59, 0xb2, 0xdc, 0x32, 0x7a, 0xa4,
];

const FILE: &str =
    "{\"cTag\":\"c2\",\"eTag\":\"e2\",\"file\":{\"hashes\":{\"sha256Hash\":\"8F434346648F6B96DF89DDA901C5176B10A6D83961DD3C1AC88B59B2DC327AA4\"}},\"id\":\"01GD0000000000000002\",\"name\":\"a.txt\",\"parentReference\":{\"driveId\":\"gd1\",\"id\":\"01GD0000000000000001\",\"path\":\"/drive/root:\"},\"size\":2}";

const BARE: &str =
    "{\"eTag\":\"e2\",\"file\":{},\"id\":\"01GD0000000000000002\",\"name\":\"a\",\"parentReference\":{\"id\":\"01GD0000000000000001\",\"path\":\"/drive/root:\"},\"size\":1}";

const ROOT: &str =
    "{\"eTag\":\"e1\",\"folder\":{\"childCount\":3},\"id\":\"01GD0000000000000001\",\"name\":\"root\",\"root\":{},\"size\":0}";

const GONE: &str =
    "{\"deleted\":{\"state\":\"deleted\"},\"eTag\":\"e9\",\"id\":\"01GD0000000000000003\",\"parentReference\":{\"driveId\":\"gd1\",\"id\":\"01GD0000000000000001\"}}";

const PAGE: &str =
    "{\"@odata.deltaLink\":\"http://127.0.0.1:8080/v1.0/me/drive/root/delta?token=t1.5.5\",\"value\":[{\"deleted\":{\"state\":\"deleted\"},\"eTag\":\"e9\",\"id\":\"01GD0000000000000003\",\"parentReference\":{\"driveId\":\"gd1\",\"id\":\"01GD0000000000000001\"}}]}";

const NEXT: &str =
    "{\"@odata.nextLink\":\"http://127.0.0.1:8080/v1.0/me/drive/items/01GD0000000000000001/children?$skiptoken=a%20b\",\"value\":[{\"eTag\":\"e2\",\"file\":{},\"id\":\"01GD0000000000000002\",\"name\":\"a b\",\"parentReference\":{\"driveId\":\"gd1\",\"id\":\"01GD0000000000000001\"},\"size\":1}]}";

const EMPTY: &str =
    "{\"@odata.nextLink\":\"http://127.0.0.1:8080/v1.0/me/drive/root/delta?token=t1.2.3\",\"value\":[]}";

const NONE: &str = "{\"value\":[]}";

const SESSION: &str =
    "{\"expirationDateTime\":\"2099-01-01T00:00:00Z\",\"nextExpectedRanges\":[\"5-\"],\"uploadUrl\":\"http://127.0.0.1:8080/v1.0/upload/7\"}";

const STATUS: &str =
    "{\"expirationDateTime\":\"2099-01-01T00:00:00Z\",\"nextExpectedRanges\":[\"327680-\"]}";

const ERROR: &str = "{\"error\":{\"code\":\"itemNotFound\",\"message\":\"itemNotFound\"}}";

const FOLDER: &str =
    "{\"@microsoft.graph.conflictBehavior\":\"rename\",\"folder\":{},\"name\":\"a\"}";

const PATCH: &str = "{\"name\":\"b\",\"parentReference\":{\"id\":\"01GD0000000000000004\"}}";

const BEGIN: &str =
    "{\"deferCommit\":true,\"item\":{\"@microsoft.graph.conflictBehavior\":\"replace\",\"name\":\"c\"}}";

fn wire(alloc: Global) -> Result<Wire, Fail> {
    Ok(Wire::read(alloc, b"http://127.0.0.1:8080")?)
}

/// The bodies, each by a text that was written of it.
#[derive(Clone, Copy, Debug)]
enum Body {
    File,
    Bare,
    Root,
    Gone,
    Page,
    /// A page of no records with a link to the next.
    Empty,
    Next,
    /// A list of no items.
    None,
    Session,
    Status,
    Error,
    Folder,
    Patch,
    Begin,
}

fn text_of(body: Body) -> &'static str {
    match body {
        Body::File => FILE,
        Body::Bare => BARE,
        Body::Root => ROOT,
        Body::Gone => GONE,
        Body::Page => PAGE,
        Body::Empty => EMPTY,
        Body::Next => NEXT,
        Body::None => NONE,
        Body::Session => SESSION,
        Body::Status => STATUS,
        Body::Error => ERROR,
        Body::Folder => FOLDER,
        Body::Patch => PATCH,
        Body::Begin => BEGIN,
    }
}

fn fault<T: Drop>(read: Result<T, JsonFault>) -> Option<JsonFault> {
    match read {
        Ok(_) => None,
        Err(fault) => Some(fault),
    }
}

/// Why the bytes are no such body.
fn refused(alloc: Global, wire: &Wire, body: Body, bytes: &[u8]) -> Option<JsonFault> {
    match body {
        Body::File | Body::Bare | Body::Root | Body::Gone => fault(read_item(alloc, bytes)),
        Body::Page | Body::Empty => fault(read_page(alloc, bytes, wire)),
        Body::Next | Body::None => fault(read_children(alloc, bytes, wire)),
        Body::Session | Body::Status => fault(read_session(alloc, bytes, wire)),
        Body::Error => fault(read_error(alloc, bytes)),
        Body::Folder => fault(read_folder(alloc, bytes)),
        Body::Patch => fault(read_patch(alloc, bytes)),
        Body::Begin => fault(read_begin(alloc, bytes)),
    }
}

/// The bytes read and written again.
fn written(alloc: Global, wire: &Wire, body: Body, bytes: &[u8]) -> Result<String, Fail> {
    let bytes = match body {
        Body::File | Body::Bare | Body::Root | Body::Gone => {
            write_item(alloc, &read_item(alloc, bytes)?)?
        }
        Body::Page | Body::Empty => write_page(alloc, &read_page(alloc, bytes, wire)?, wire)?,
        Body::Next | Body::None => write_children(
            alloc,
            &read_children(alloc, bytes, wire)?,
            wire,
        )?,
        Body::Session | Body::Status => {
            write_session(alloc, &read_session(alloc, bytes, wire)?, wire)?
        }
        Body::Error => write_error(alloc, &read_error(alloc, bytes)?)?,
        Body::Folder => write_folder(alloc, &read_folder(alloc, bytes)?)?,
        Body::Patch => write_patch(alloc, &read_patch(alloc, bytes)?)?,
        Body::Begin => write_begin(alloc, &read_begin(alloc, bytes)?)?,
    };
    let text = String::from_utf8(bytes.into_vec()).ok().ok_or("no text")?;
    Ok(text)
}

/// The text with one part of it changed.
fn changed(alloc: Global, text: &str, from: &str, to: &str) -> Result<String, Fail> {
    let (front, rest) = text.split_once(from).ok_or("no such part")?;
    let changed = format!(in alloc; "{front}{to}{rest}")?;
    Ok(changed)
}

#[test]
fn bases_are_read(rt: HostRuntime) {
    for (text, is) in [
        ("http://127.0.0.1:8080", true),
        ("http://a-b.C:1", true),
        ("http://a:65535", true),
        ("http://a:65536", false),
        ("http://a:0", false),
        ("http://a:080", false),
        ("http://a:+80", false),
        ("http://a:", false),
        ("http://:80", false),
        ("http://a", false),
        ("https://a:1", false),
        ("http://a:1/", false),
        ("http://a_b:1", false),
        ("", false),
    ] {
        assert_eq!(rt;
            Wire::read(rt.alloc(), text.as_bytes()).is_ok(),
            is,
            "{text}"
        );
    }
}

#[test]
fn the_file_is_an_item(rt: HostRuntime) -> Result<(), Fail> {
    let alloc = rt.alloc();
    assert_eq!(rt; FILE.len(), 263);
    let item = Item {
        id: ItemId(2),
        parent: Some(ItemId(1)),
        parent_path: Some(Text::from_str(alloc, "/drive/root:")?),
        name: Text::from_str(alloc, "a.txt")?,
        size: 2,
        etag: Tag(Text::from_str(alloc, "e2")?),
        ctag: Some(Tag(Text::from_str(alloc, "c2")?)),
        kind: Kind::File { digest: Digest(HI) },
    };
    assert!(rt; read_item(alloc, FILE.as_bytes())? == item);
    assert!(rt; write_item(alloc, &item)?.as_slice() == FILE.as_bytes());
    let bare = read_item(alloc, BARE.as_bytes())?;
    assert!(rt; bare.kind == Kind::Bare);
    assert!(rt; bare.ctag.is_none());
    let gone = read_item(alloc, GONE.as_bytes())?;
    assert!(rt; gone.kind == Kind::Deleted);
    assert_eq!(rt; gone.name.len(), 0);
    Ok(())
}

#[test]
fn bodies_are_written_as_they_were_read(rt: HostRuntime) -> Result<(), Fail> {
    let alloc = rt.alloc();
    let wire = wire(alloc)?;
    for body in [
        Body::File,
        Body::Root,
        Body::Gone,
        Body::Page,
        Body::Empty,
        Body::Next,
        Body::None,
        Body::Session,
        Body::Status,
        Body::Error,
        Body::Folder,
        Body::Patch,
        Body::Begin,
    ] {
        let text = text_of(body);
        let again = written(alloc, &wire, body, text.as_bytes())?;
        assert_eq!(rt; again.as_str(), text);
    }
    assert!(rt; read_begin(alloc, b"")?.behaviour == Conflict::Fail);
    assert_eq!(rt;
        read_status(alloc, b"{\"uploadUrl\":5,\"nextExpectedRanges\":[\"05-\"]}")?,
        5
    );
    Ok(())
}

/// A body, a part of its text, what stands in its place, and why the text is then refused.
type Row = (Body, &'static str, &'static str, Option<JsonFault>);

/// Items: members that lack, that are of another type, and that are repeated.
const ITEMS: [Row; 49] = [
    (
        Body::File,
        "\"id\":\"01GD0000000000000002\",",
        "",
        Some(JsonFault::Lacks(Member::Id)),
    ),
    (
        Body::File,
        "\"id\":\"01GD0000000000000002\"",
        "\"id\":2",
        Some(JsonFault::BadMember(Member::Id)),
    ),
    (
        Body::File,
        "01GD0000000000000002",
        "01GD000000000000000a",
        Some(JsonFault::BadMember(Member::Id)),
    ),
    (
        Body::File,
        "01GD0000000000000002",
        "01GD0000000000000000",
        Some(JsonFault::BadMember(Member::Id)),
    ),
    (Body::File, "\"id\":", "\"id\":7,\"id\":", None),
    (
        Body::File,
        ",\"name\":\"a.txt\"",
        "",
        Some(JsonFault::Lacks(Member::Name)),
    ),
    (
        Body::File,
        "\"a.txt\"",
        "null",
        Some(JsonFault::BadMember(Member::Name)),
    ),
    (
        Body::File,
        "\"a.txt\"",
        "\"..\"",
        Some(JsonFault::BadMember(Member::Name)),
    ),
    (Body::File, "\"name\":", "\"name\":5,\"n\\u0061me\":", None),
    (
        Body::File,
        ",\"eTag\":\"e2\"",
        "",
        Some(JsonFault::Lacks(Member::ETag)),
    ),
    (
        Body::File,
        "\"e2\"",
        "[]",
        Some(JsonFault::BadMember(Member::ETag)),
    ),
    (Body::File, "\"e2\"", "5,\"eTag\":\"e2\"", None),
    (Body::File, "\"cTag\":\"c2\",", "", None),
    (
        Body::File,
        "\"c2\"",
        "{}",
        Some(JsonFault::BadMember(Member::CTag)),
    ),
    (
        Body::File,
        "\"c2\"",
        "\"c2\",\"cTag\":5",
        Some(JsonFault::BadMember(Member::CTag)),
    ),
    (
        Body::File,
        ",\"size\":2",
        "",
        Some(JsonFault::Lacks(Member::Size)),
    ),
    (
        Body::File,
        "\"size\":2",
        "\"size\":\"2\"",
        Some(JsonFault::BadMember(Member::Size)),
    ),
    (
        Body::File,
        "\"size\":2",
        "\"size\":2.0",
        Some(JsonFault::BadMember(Member::Size)),
    ),
    (
        Body::File,
        "\"size\":2",
        "\"size\":2e0",
        Some(JsonFault::BadMember(Member::Size)),
    ),
    (
        Body::File,
        "\"size\":2",
        "\"size\":-0",
        Some(JsonFault::BadMember(Member::Size)),
    ),
    (
        Body::File,
        "\"size\":2",
        "\"size\":18446744073709551615",
        None,
    ),
    (
        Body::File,
        "\"size\":2",
        "\"size\":18446744073709551616",
        Some(JsonFault::BadMember(Member::Size)),
    ),
    (
        Body::File,
        "\"size\":2",
        "\"size\":02",
        Some(JsonFault::NotJson),
    ),
    (
        Body::File,
        "\"size\":2",
        "\"size\":2,\"size\":\"2\"",
        Some(JsonFault::BadMember(Member::Size)),
    ),
    (
        Body::File,
        "\"parentReference\"",
        "\"parent\"",
        Some(JsonFault::Lacks(Member::ParentReference)),
    ),
    (
        Body::File,
        "\"parentReference\":",
        "\"parentReference\":5,\"x\":",
        Some(JsonFault::BadMember(Member::ParentReference)),
    ),
    (
        Body::File,
        "\"gd1\"",
        "\"gd2\"",
        Some(JsonFault::BadMember(Member::DriveId)),
    ),
    (Body::File, "\"driveId\":\"gd1\",", "", None),
    (
        Body::File,
        "\"id\":\"01GD0000000000000001\",",
        "",
        Some(JsonFault::Lacks(Member::ParentId)),
    ),
    (
        Body::File,
        "\"01GD0000000000000001\"",
        "1",
        Some(JsonFault::BadMember(Member::ParentId)),
    ),
    (Body::File, ",\"path\":\"/drive/root:\"", "", None),
    (
        Body::File,
        "\"/drive/root:\"",
        "7",
        Some(JsonFault::BadMember(Member::ParentPath)),
    ),
    (
        Body::File,
        "\"file\"",
        "\"leaf\"",
        Some(JsonFault::Lacks(Member::File)),
    ),
    (
        Body::File,
        "\"file\":",
        "\"file\":5,\"x\":",
        Some(JsonFault::BadMember(Member::File)),
    ),
    (
        Body::File,
        "\"file\":",
        "\"folder\":{\"childCount\":1},\"file\":",
        Some(JsonFault::BadMember(Member::Folder)),
    ),
    (
        Body::File,
        "\"hashes\":",
        "\"hashes\":5,\"x\":",
        Some(JsonFault::BadMember(Member::Sha256Hash)),
    ),
    (Body::File, "\"8F", "\"8f", None),
    (
        Body::File,
        "\"8F",
        "\"",
        Some(JsonFault::BadMember(Member::Sha256Hash)),
    ),
    (
        Body::File,
        "\"8F",
        "\"8G",
        Some(JsonFault::BadMember(Member::Sha256Hash)),
    ),
    (Body::File, "\"sha256Hash\"", "\"sha1Hash\"", None),
    (
        Body::File,
        "{\"cTag\"",
        "{\"root\":5,\"cTag\"",
        Some(JsonFault::BadMember(Member::Root)),
    ),
    (
        Body::File,
        "{\"cTag\"",
        "{\"deleted\":true,\"cTag\"",
        Some(JsonFault::BadMember(Member::Deleted)),
    ),
    (
        Body::Root,
        "\"childCount\":3",
        "",
        Some(JsonFault::Lacks(Member::ChildCount)),
    ),
    (
        Body::Root,
        "\"childCount\":3",
        "\"childCount\":-3",
        Some(JsonFault::BadMember(Member::ChildCount)),
    ),
    (
        Body::Root,
        "\"folder\":",
        "\"folder\":[],\"x\":",
        Some(JsonFault::BadMember(Member::Folder)),
    ),
    (Body::Root, "\"root\",", "\"..\",", None),
    (
        Body::Gone,
        ",\"eTag\":\"e9\"",
        ",\"name\":5,\"size\":\"x\"",
        None,
    ),
    (
        Body::Gone,
        "\"e9\"",
        "9",
        Some(JsonFault::BadMember(Member::ETag)),
    ),
    (Body::Gone, "\"parentReference\"", "\"parent\"", None),
];

/// Pages and lists.
const LISTS: [Row; 13] = [
    (
        Body::Page,
        "\"value\"",
        "\"values\"",
        Some(JsonFault::Lacks(Member::Value)),
    ),
    (
        Body::Page,
        "\"value\":[",
        "\"value\":[5,",
        Some(JsonFault::BadMember(Member::Value)),
    ),
    (Body::Page, "\"value\":[", "\"value\":[],\"value\":[", None),
    (
        Body::Page,
        "\"@odata.deltaLink\"",
        "\"link\"",
        Some(JsonFault::Lacks(Member::NextLink)),
    ),
    (
        Body::Page,
        "{\"@odata",
        "{\"@odata.nextLink\":5,\"@odata",
        Some(JsonFault::BadMember(Member::DeltaLink)),
    ),
    (
        Body::Page,
        "t1.5.5",
        "a&b",
        Some(JsonFault::BadMember(Member::DeltaLink)),
    ),
    (
        Body::Page,
        "t1.5.5",
        "",
        Some(JsonFault::BadMember(Member::DeltaLink)),
    ),
    (
        Body::Page,
        ":8080/",
        ":8081/",
        Some(JsonFault::BadMember(Member::DeltaLink)),
    ),
    (
        Body::Next,
        "01GD0000000000000001/",
        "01GD0000000000000002/",
        Some(JsonFault::BadMember(Member::NextLink)),
    ),
    (
        Body::Next,
        "a%20b",
        "a%2Fb",
        Some(JsonFault::BadMember(Member::NextLink)),
    ),
    (Body::Next, "a%20b", "a&b", None),
    (
        Body::Next,
        "\"id\":\"01GD0000000000000001\"",
        "\"id\":\"01GD0000000000000005\"",
        Some(JsonFault::BadMember(Member::NextLink)),
    ),
    (
        Body::Next,
        "\"value\":[",
        "\"value\":[],\"x\":[",
        Some(JsonFault::BadMember(Member::NextLink)),
    ),
];

/// Sessions.
const SESSIONS: [Row; 13] = [
    (Body::Session, "/7\"", "/07\"", None),
    (
        Body::Session,
        "/7\"",
        "/18446744073709551616\"",
        Some(JsonFault::BadMember(Member::UploadUrl)),
    ),
    (
        Body::Session,
        "/7\"",
        "/\"",
        Some(JsonFault::BadMember(Member::UploadUrl)),
    ),
    (
        Body::Session,
        "/7\"",
        "/+7\"",
        Some(JsonFault::BadMember(Member::UploadUrl)),
    ),
    (
        Body::Session,
        "\"uploadUrl\":",
        "\"uploadUrl\":5,\"x\":",
        Some(JsonFault::BadMember(Member::UploadUrl)),
    ),
    (Body::Session, "\"uploadUrl\"", "\"x\"", None),
    (Body::Session, "\"2099-01-01T00:00:00Z\"", "5", None),
    (
        Body::Status,
        "\"nextExpectedRanges\"",
        "\"ranges\"",
        Some(JsonFault::Lacks(Member::NextExpectedRanges)),
    ),
    (
        Body::Status,
        "[\"327680-\"]",
        "[]",
        Some(JsonFault::BadMember(Member::NextExpectedRanges)),
    ),
    (
        Body::Status,
        "[\"327680-\"]",
        "[\"1-\",\"2-\"]",
        Some(JsonFault::BadMember(Member::NextExpectedRanges)),
    ),
    (
        Body::Status,
        "327680-",
        "327680",
        Some(JsonFault::BadMember(Member::NextExpectedRanges)),
    ),
    (
        Body::Status,
        "327680-",
        "-",
        Some(JsonFault::BadMember(Member::NextExpectedRanges)),
    ),
    (
        Body::Status,
        "\"327680-\"",
        "327680",
        Some(JsonFault::BadMember(Member::NextExpectedRanges)),
    ),
];

/// Errors.
const ERRORS: [Row; 6] = [
    (
        Body::Error,
        "\"error\"",
        "\"fault\"",
        Some(JsonFault::Lacks(Member::Code)),
    ),
    (
        Body::Error,
        "\"error\":",
        "\"error\":5,\"x\":",
        Some(JsonFault::BadMember(Member::Code)),
    ),
    (
        Body::Error,
        "\"code\"",
        "\"kode\"",
        Some(JsonFault::Lacks(Member::Code)),
    ),
    (
        Body::Error,
        "\"itemNotFound\"",
        "\"itemnotfound\"",
        Some(JsonFault::BadMember(Member::Code)),
    ),
    (
        Body::Error,
        "\"message\":\"itemNotFound\"",
        "\"message\":5",
        Some(JsonFault::BadMember(Member::Message)),
    ),
    (Body::Error, ",\"message\":\"itemNotFound\"", "", None),
];

/// What requests ask for.
const CHANGES: [Row; 16] = [
    (
        Body::Folder,
        ",\"name\":\"a\"",
        "",
        Some(JsonFault::Lacks(Member::Name)),
    ),
    (
        Body::Folder,
        "\"name\":\"a\"",
        "\"name\":5",
        Some(JsonFault::BadMember(Member::Name)),
    ),
    (Body::Folder, "\"name\":\"a\"", "\"name\":\"con\"", None),
    (
        Body::Folder,
        "\"folder\":{}",
        "\"file\":{}",
        Some(JsonFault::Lacks(Member::Folder)),
    ),
    (
        Body::Folder,
        "\"folder\":{}",
        "\"folder\":[]",
        Some(JsonFault::BadMember(Member::Folder)),
    ),
    (
        Body::Folder,
        "\"rename\"",
        "\"Rename\"",
        Some(JsonFault::BadMember(Member::ConflictBehavior)),
    ),
    (
        Body::Folder,
        "\"@microsoft.graph.conflictBehavior\":\"rename\",",
        "",
        None,
    ),
    (
        Body::Patch,
        "\"name\":\"b\"",
        "\"name\":null",
        Some(JsonFault::BadMember(Member::Name)),
    ),
    (Body::Patch, "{\"id\":\"01GD0000000000000004\"}", "{}", None),
    (
        Body::Patch,
        "{\"id\":\"01GD0000000000000004\"}",
        "5",
        Some(JsonFault::BadMember(Member::ParentId)),
    ),
    (
        Body::Patch,
        "\"01GD0000000000000004\"",
        "4",
        Some(JsonFault::BadMember(Member::ParentId)),
    ),
    (
        Body::Begin,
        "\"item\":",
        "\"item\":5,\"x\":",
        Some(JsonFault::BadMember(Member::Item)),
    ),
    (
        Body::Begin,
        "\"replace\"",
        "5",
        Some(JsonFault::BadMember(Member::ConflictBehavior)),
    ),
    (
        Body::Begin,
        "\"name\":\"c\"",
        "\"name\":5",
        Some(JsonFault::BadMember(Member::Name)),
    ),
    (
        Body::Begin,
        "true",
        "\"true\"",
        Some(JsonFault::BadMember(Member::DeferCommit)),
    ),
    (Body::Begin, "\"deferCommit\":true,", "", None),
];

#[test]
fn members_are_tested(rt: HostRuntime) -> Result<(), Fail> {
    let alloc = rt.alloc();
    let wire = wire(alloc)?;
    for rows in [
        ITEMS.as_slice(),
        LISTS.as_slice(),
        SESSIONS.as_slice(),
        ERRORS.as_slice(),
        CHANGES.as_slice(),
    ] {
        for row in rows {
            let (body, from, to, answer) = *row;
            let text = changed(alloc, text_of(body), from, to)?;
            let fault = refused(alloc, &wire, body, text.as_bytes());
            assert_eq!(rt; fault, answer, "{from} as {to}");
        }
    }
    Ok(())
}

#[test]
fn bytes_of_any_kind_have_a_fault(rt: HostRuntime) -> Result<(), Fail> {
    let alloc = rt.alloc();
    let wire = wire(alloc)?;
    for (body, bytes, answer) in [
        (Body::File, b"{".as_slice(), JsonFault::NotJson),
        (Body::File, b"{}", JsonFault::Lacks(Member::Id)),
        (Body::File, b"[]", JsonFault::Lacks(Member::Id)),
        (Body::File, b"", JsonFault::NotJson),
        (Body::Patch, b"[]", JsonFault::NotJson),
        (Body::Begin, b"5", JsonFault::NotJson),
        (Body::Begin, b" ", JsonFault::NotJson),
        (Body::Patch, b"{\"z\":1e999}", JsonFault::NotJson),
        (Body::Patch, b"{\"z\":\"\\ud800\"}", JsonFault::NotJson),
        (Body::Patch, b"{\"z\":\"\xc0\xaf\"}", JsonFault::NotJson),
        (Body::Patch, b"\xef\xbb\xbf{}", JsonFault::NotJson),
        (Body::Patch, b"{} {}", JsonFault::NotJson),
        (Body::Patch, b"{\"name\":\"b\",}", JsonFault::NotJson),
    ] {
        assert!(rt; refused(alloc, &wire, body, bytes) == Some(answer));
    }
    Ok(())
}

/// A member that nobody reads, made of as many of these bytes.
fn long(alloc: Global, front: &str, byte: u8, count: usize, end: &str) -> Result<Vec<u8>, Fail> {
    let mut bytes = vec![in alloc; byte; count]?;
    let mut text = Vec::new(alloc);
    text.extend_from_slice(front.as_bytes())?;
    text.append(&mut bytes)?;
    text.extend_from_slice(end.as_bytes())?;
    Ok(text)
}

#[test]
fn long_texts_are_read(rt: HostRuntime) -> Result<(), Fail> {
    let alloc = rt.alloc();
    let wire = wire(alloc)?;
    let deep = long(alloc, "{\"z\":", b'[', 100_000, "")?;
    assert!(rt; refused(alloc, &wire, Body::Patch, deep.as_slice()) == Some(JsonFault::NotJson));
    let digits = long(alloc, "{\"z\":0.", b'3', 10_000, "}")?;
    assert!(rt; refused(alloc, &wire, Body::Patch, digits.as_slice()).is_none());
    let number = long(alloc, "{\"z\":", b'3', 10_000, "}")?;
    assert!(rt; refused(alloc, &wire, Body::Patch, number.as_slice()) == Some(JsonFault::NotJson));
    let name = long(alloc, "{\"name\":\"", b'n', 67_108_853, "\"}")?;
    let patch = read_patch(alloc, name.as_slice())?;
    assert_eq!(rt; patch.name.ok_or("no name")?.len(), 67_108_853);
    Ok(())
}
