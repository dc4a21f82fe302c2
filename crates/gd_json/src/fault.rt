ghost use Rattle.std.specs.Prelude.{◌≡◌};
ghost use Rattle.gd_json.specs.declared.fault.JsonFault.TheVariants.{Memory};

use gd_names::NoMemory;
use std::alloc::{AllocError, AllocFailed};
use thiserror::Error;

/// A member of a body.
#[derive(Clone, Copy, Debug, PartialEq, Eq)]
pub enum Member {
    Id,
    Deleted,
    Name,
    ETag,
    CTag,
    Size,
    ParentReference,
    /// `driveId` of a parentReference.
    DriveId,
    /// `id` of a parentReference, and a parentReference of a patch that is no object.
    ParentId,
    /// `path` of a parentReference.
    ParentPath,
    File,
    Folder,
    /// Also `hashes` that are no object.
    Sha256Hash,
    ChildCount,
    Root,
    /// `value` of a list or a page; bad too where one of its items is.
    Value,
    NextLink,
    DeltaLink,
    UploadUrl,
    /// Never lacking and never bad: it is not read.
    ExpirationDateTime,
    NextExpectedRanges,
    /// `code` of an error, and an error that is no object.
    Code,
    /// `message` of an error.
    Message,
    ConflictBehavior,
    Item,
    DeferCommit,
}

/// Why bytes are no body: the first cause in the order of the body's members.
#[derive(Clone, Copy, Debug, PartialEq, Eq, Error)]
pub enum JsonFault {
    #[error("the text is not JSON")]
    NotJson,
    #[error("a member lacks")]
    Lacks(Member),
    #[error("a member is not as it has to be")]
    BadMember(Member),
    #[error("out of memory")]
    Memory,
}

impl From<AllocError> for JsonFault {
    ghost from_gives = { λ _ e. e ≡ Memory };

    fn from(_error: AllocError) -> JsonFault {
        JsonFault::Memory
    }
}

impl<T: Drop> From<AllocFailed<T>> for JsonFault {
    ghost from_gives = { λ _ e. e ≡ Memory };

    fn from(_error: AllocFailed<T>) -> JsonFault {
        JsonFault::Memory
    }
}

impl From<NoMemory> for JsonFault {
    ghost from_gives = { λ _ e. e ≡ Memory };

    fn from(_error: NoMemory) -> JsonFault {
        JsonFault::Memory
    }
}
