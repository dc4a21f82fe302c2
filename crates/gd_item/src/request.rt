ghost use Rattle.std.specs.Prelude.{◌≡◌};
ghost use Rattle.gd_item.specs.Requests.{kind_of};

use crate::condition::Condition;
use crate::id::ItemId;
use gd_names::{Bytes, Conflict, Exact, Path, Text};
use std::alloc::AllocError;

/// How a request names an item: by id, by path from the root, or by parent and name.
#[derive(Debug, PartialEq, Eq, Drop)]
pub enum Address {
    Id(ItemId),
    ByPath(Path),
    Child(ItemId, Text),
}

impl Clone for Address {
    ghost is_clone = { λ a b. b ≡ a };

    fn clone(&self) -> Result<Address, AllocError> {
        match self {
            Address::Id(id) => Ok(Address::Id(*id)),
            Address::ByPath(path) => Ok(Address::ByPath(path.clone()?)),
            Address::Child(id, name) => Ok(Address::Child(*id, name.clone()?)),
        }
    }
}

impl Exact for Address {
    ghost exact = { λ x y h. h };
}

/// What a client asks of a drive: the driveItem API of Microsoft Graph v1.0, in the calls that this drive answers.
#[derive(Debug, PartialEq, Eq, Drop)]
pub enum Request {
    Get {
        at: Address,
    },
    Children {
        at: Address,
        /// The name after which the list begins.
        after: Option<Text>,
    },
    MakeFolder {
        at: Address,
        name: Text,
        behaviour: Conflict,
    },
    Put {
        at: Address,
        bytes: Bytes,
        behaviour: Conflict,
        condition: Condition,
    },
    Patch {
        at: Address,
        name: Option<Text>,
        parent: Option<ItemId>,
        condition: Condition,
    },
    Delete {
        at: Address,
        condition: Condition,
    },
    Content {
        at: Address,
    },
    Download {
        id: ItemId,
        /// The content number of the version.
        version: u64,
    },
    OpenSession {
        at: Address,
        name: Option<Text>,
        behaviour: Conflict,
        condition: Condition,
        /// Whether the file is made by a `Finish`, and not by the last fragment (`deferCommit`).
        defer: bool,
    },
    Fragment {
        session: u64,
        /// The offset of the first byte.
        first: u64,
        /// The offset of the last byte.
        last: u64,
        /// The length of the whole file.
        total: u64,
        bytes: Bytes,
    },
    SessionStatus {
        session: u64,
    },
    CancelSession {
        session: u64,
    },
    /// Makes the file of a deferred session.
    Finish {
        session: u64,
    },
    Delta {
        token: Option<Text>,
    },
}

impl Clone for Request {
    ghost is_clone = { λ a b. b ≡ a };

    fn clone(&self) -> Result<Request, AllocError> {
        match self {
            Request::Get { at } => Ok(Request::Get { at: at.clone()? }),
            Request::Children { at, after } => Ok(Request::Children {
                at: at.clone()?,
                after: after.clone()?,
            }),
            Request::MakeFolder {
                at,
                name,
                behaviour,
            } => Ok(Request::MakeFolder {
                at: at.clone()?,
                name: name.clone()?,
                behaviour: *behaviour,
            }),
            Request::Put {
                at,
                bytes,
                behaviour,
                condition,
            } => Ok(Request::Put {
                at: at.clone()?,
                bytes: bytes.clone()?,
                behaviour: *behaviour,
                condition: condition.clone()?,
            }),
            Request::Patch {
                at,
                name,
                parent,
                condition,
            } => Ok(Request::Patch {
                at: at.clone()?,
                name: name.clone()?,
                parent: *parent,
                condition: condition.clone()?,
            }),
            Request::Delete { at, condition } => Ok(Request::Delete {
                at: at.clone()?,
                condition: condition.clone()?,
            }),
            Request::Content { at } => Ok(Request::Content { at: at.clone()? }),
            Request::Download { id, version } => Ok(Request::Download {
                id: *id,
                version: *version,
            }),
            Request::OpenSession {
                at,
                name,
                behaviour,
                condition,
                defer,
            } => Ok(Request::OpenSession {
                at: at.clone()?,
                name: name.clone()?,
                behaviour: *behaviour,
                condition: condition.clone()?,
                defer: *defer,
            }),
            Request::Fragment {
                session,
                first,
                last,
                total,
                bytes,
            } => Ok(Request::Fragment {
                session: *session,
                first: *first,
                last: *last,
                total: *total,
                bytes: bytes.clone()?,
            }),
            Request::SessionStatus { session } => Ok(Request::SessionStatus { session: *session }),
            Request::CancelSession { session } => Ok(Request::CancelSession { session: *session }),
            Request::Finish { session } => Ok(Request::Finish { session: *session }),
            Request::Delta { token } => Ok(Request::Delta {
                token: token.clone()?,
            }),
        }
    }
}

impl Exact for Request {
    ghost exact = { λ x y h. h };
}

/// The kind of a request.
#[derive(Clone, Copy, Debug, PartialEq, Eq)]
pub enum RequestKind {
    Get,
    Children,
    MakeFolder,
    Put,
    Patch,
    Delete,
    Content,
    Download,
    OpenSession,
    Fragment,
    SessionStatus,
    CancelSession,
    Finish,
    Delta,
}

impl Exact for RequestKind {
    ghost use Rattle.std.proofs.Common.{rules};

    ghost exact = { Prim.search rules };
}

impl Request {
    /// Takes no memory.
    pub fn kind(&self) -> RequestKind
        ensures { result ≡ kind_of self.now }
    {
        match self {
            Request::Get { .. } => RequestKind::Get,
            Request::Children { .. } => RequestKind::Children,
            Request::MakeFolder { .. } => RequestKind::MakeFolder,
            Request::Put { .. } => RequestKind::Put,
            Request::Patch { .. } => RequestKind::Patch,
            Request::Delete { .. } => RequestKind::Delete,
            Request::Content { .. } => RequestKind::Content,
            Request::Download { .. } => RequestKind::Download,
            Request::OpenSession { .. } => RequestKind::OpenSession,
            Request::Fragment { .. } => RequestKind::Fragment,
            Request::SessionStatus { .. } => RequestKind::SessionStatus,
            Request::CancelSession { .. } => RequestKind::CancelSession,
            Request::Finish { .. } => RequestKind::Finish,
            Request::Delta { .. } => RequestKind::Delta,
        }
    }
}
