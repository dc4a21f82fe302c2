use super::*;

/// A member of a body as its text has it, the member with another value, and how a fault names it.
type Twice = (Body, &'static str, &'static str, Member);

/// Every member of every body, but for those that are ignored.
const EACH: [Twice; 41] = [
    (
        Body::File,
        "\"id\":\"01GD0000000000000002\"",
        "\"id\":2",
        Member::Id,
    ),
    (
        Body::Gone,
        "\"deleted\":{\"state\":\"deleted\"}",
        "\"deleted\":5",
        Member::Deleted,
    ),
    (
        Body::File,
        "\"name\":\"a.txt\"",
        "\"name\":[]",
        Member::Name,
    ),
    (Body::File, "\"eTag\":\"e2\"", "\"eTag\":5", Member::ETag),
    (Body::File, "\"cTag\":\"c2\"", "\"cTag\":null", Member::CTag),
    (Body::File, "\"size\":2", "\"size\":\"2\"", Member::Size),
    (
        Body::Bare,
        "\"parentReference\":{\"id\":\"01GD0000000000000001\",\"path\":\"/drive/root:\"}",
        "\"parentReference\":[]",
        Member::ParentReference,
    ),
    (
        Body::File,
        "\"driveId\":\"gd1\"",
        "\"driveId\":1",
        Member::DriveId,
    ),
    (
        Body::File,
        "\"id\":\"01GD0000000000000001\"",
        "\"id\":\"1\"",
        Member::ParentId,
    ),
    (
        Body::File,
        "\"path\":\"/drive/root:\"",
        "\"path\":true",
        Member::ParentPath,
    ),
    (Body::Bare, "\"file\":{}", "\"file\":\"\"", Member::File),
    (
        Body::File,
        "\"hashes\":{\"sha256Hash\":\"8F434346648F6B96DF89DDA901C5176B10A6D83961DD3C1AC88B59B2DC327AA4\"}",
        "\"hashes\":5",
        Member::Sha256Hash,
    ),
    (
        Body::File,
        "\"sha256Hash\":\"8F434346648F6B96DF89DDA901C5176B10A6D83961DD3C1AC88B59B2DC327AA4\"",
        "\"sha256Hash\":\"8F\"",
        Member::Sha256Hash,
    ),
    (
        Body::Root,
        "\"folder\":{\"childCount\":3}",
        "\"folder\":3",
        Member::Folder,
    ),
    (
        Body::Root,
        "\"childCount\":3",
        "\"childCount\":3.0",
        Member::ChildCount,
    ),
    (Body::Root, "\"root\":{}", "\"root\":true", Member::Root),
    (Body::Gone, "\"eTag\":\"e9\"", "\"eTag\":9", Member::ETag),
    (
        Body::Page,
        "\"@odata.deltaLink\":\"http://127.0.0.1:8080/v1.0/me/drive/root/delta?token=t1.5.5\"",
        "\"@odata.deltaLink\":5",
        Member::DeltaLink,
    ),
    (
        Body::Next,
        "\"@odata.nextLink\":\"http://127.0.0.1:8080/v1.0/me/drive/items/01GD0000000000000001/children?$skiptoken=a%20b\"",
        "\"@odata.nextLink\":\"\"",
        Member::NextLink,
    ),
    (
        Body::Session,
        "\"uploadUrl\":\"http://127.0.0.1:8080/v1.0/upload/7\"",
        "\"uploadUrl\":7",
        Member::UploadUrl,
    ),
    (
        Body::Session,
        "\"nextExpectedRanges\":[\"5-\"]",
        "\"nextExpectedRanges\":\"5-\"",
        Member::NextExpectedRanges,
    ),
    (
        Body::Status,
        "\"nextExpectedRanges\":[\"327680-\"]",
        "\"nextExpectedRanges\":[5]",
        Member::NextExpectedRanges,
    ),
    (
        Body::Error,
        "\"error\":{\"code\":\"itemNotFound\",\"message\":\"itemNotFound\"}",
        "\"error\":{\"code\":\"none\"}",
        Member::Code,
    ),
    (
        Body::Error,
        "\"code\":\"itemNotFound\"",
        "\"code\":404",
        Member::Code,
    ),
    (
        Body::Error,
        "\"message\":\"itemNotFound\"",
        "\"message\":404",
        Member::Message,
    ),
    (
        Body::Folder,
        "\"@microsoft.graph.conflictBehavior\":\"rename\"",
        "\"@microsoft.graph.conflictBehavior\":5",
        Member::ConflictBehavior,
    ),
    (
        Body::Folder,
        "\"folder\":{}",
        "\"folder\":null",
        Member::Folder,
    ),
    (Body::Folder, "\"name\":\"a\"", "\"name\":{}", Member::Name),
    (Body::Patch, "\"name\":\"b\"", "\"name\":5", Member::Name),
    (
        Body::Patch,
        "\"parentReference\":{\"id\":\"01GD0000000000000004\"}",
        "\"parentReference\":{\"id\":4}",
        Member::ParentId,
    ),
    (
        Body::Begin,
        "\"deferCommit\":true",
        "\"deferCommit\":1",
        Member::DeferCommit,
    ),
    (
        Body::Begin,
        "\"item\":{\"@microsoft.graph.conflictBehavior\":\"replace\",\"name\":\"c\"}",
        "\"item\":[]",
        Member::Item,
    ),
    (
        Body::Gone,
        "\"parentReference\":{\"driveId\":\"gd1\",\"id\":\"01GD0000000000000001\"}",
        "\"parentReference\":7",
        Member::ParentReference,
    ),
    (Body::Empty, "\"value\":[]", "\"value\":{}", Member::Value),
    (Body::Empty, "\"value\":[]", "\"value\":[7]", Member::Value),
    (
        Body::Empty,
        "\"@odata.nextLink\":\"http://127.0.0.1:8080/v1.0/me/drive/root/delta?token=t1.2.3\"",
        "\"@odata.nextLink\":{}",
        Member::NextLink,
    ),
    (Body::None, "\"value\":[]", "\"value\":5", Member::Value),
    (
        Body::Session,
        "\"uploadUrl\":\"http://127.0.0.1:8080/v1.0/upload/7\"",
        "\"uploadUrl\":\"http://127.0.0.1:8081/v1.0/upload/7\"",
        Member::UploadUrl,
    ),
    (
        Body::Begin,
        "\"@microsoft.graph.conflictBehavior\":\"replace\"",
        "\"@microsoft.graph.conflictBehavior\":\"REPLACE\"",
        Member::ConflictBehavior,
    ),
    (
        Body::Begin,
        "\"name\":\"c\"",
        "\"name\":false",
        Member::Name,
    ),
    (
        Body::Patch,
        "\"parentReference\":{\"id\":\"01GD0000000000000004\"}",
        "\"parentReference\":[]",
        Member::ParentId,
    ),
];

#[test]
fn of_a_repeated_member_the_last_counts(rt: HostRuntime) -> Result<(), Fail> {
    let alloc = rt.alloc();
    let wire = wire(alloc)?;
    for row in EACH.as_slice() {
        let (body, good, bad, member) = *row;
        let fault = Some(JsonFault::BadMember(member));
        let other = changed(alloc, text_of(body), good, bad)?;
        assert_eq!(rt;
            refused(alloc, &wire, body, other.as_bytes()),
            fault,
            "{bad}"
        );
        let last = format!(in alloc; "{good},{bad}")?;
        let last = changed(alloc, text_of(body), good, last.as_str())?;
        assert_eq!(rt;
            refused(alloc, &wire, body, last.as_bytes()),
            fault,
            "{good},{bad}"
        );
        let first = format!(in alloc; "{bad},{good}")?;
        let first = changed(alloc, text_of(body), good, first.as_str())?;
        assert_eq!(rt;
            refused(alloc, &wire, body, first.as_bytes()),
            None,
            "{bad},{good}"
        );
    }
    Ok(())
}

/// A body, a member of it, and why the body is refused where the member lacks.
type Lacking = (Body, &'static str, Option<JsonFault>);

const LACKING: [Lacking; 8] = [
    (
        Body::Empty,
        "\"value\":[]",
        Some(JsonFault::Lacks(Member::Value)),
    ),
    (
        Body::Empty,
        "\"@odata.nextLink\":\"http://127.0.0.1:8080/v1.0/me/drive/root/delta?token=t1.2.3\"",
        Some(JsonFault::Lacks(Member::NextLink)),
    ),
    (
        Body::None,
        "\"value\":[]",
        Some(JsonFault::Lacks(Member::Value)),
    ),
    (Body::Patch, "\"name\":\"b\"", None),
    (
        Body::Patch,
        "\"parentReference\":{\"id\":\"01GD0000000000000004\"}",
        None,
    ),
    (Body::Begin, "\"name\":\"c\"", None),
    (
        Body::Begin,
        "\"@microsoft.graph.conflictBehavior\":\"replace\"",
        None,
    ),
    (
        Body::Begin,
        "\"item\":{\"@microsoft.graph.conflictBehavior\":\"replace\",\"name\":\"c\"}",
        None,
    ),
];

#[test]
fn members_may_lack(rt: HostRuntime) -> Result<(), Fail> {
    let alloc = rt.alloc();
    let wire = wire(alloc)?;
    for row in LACKING.as_slice() {
        let (body, member, answer) = *row;
        let text = changed(alloc, text_of(body), member, "\"other\":0")?;
        assert_eq!(rt;
            refused(alloc, &wire, body, text.as_bytes()),
            answer,
            "{member}"
        );
    }
    Ok(())
}
