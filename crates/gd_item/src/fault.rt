ghost use Rattle.std.specs.Prelude.{◌≡◌};
ghost use Rattle.gd_item.specs.Faults.{status_of, code_of, code_text, session_status_of, session_code_of};

use gd_names::{Exact, NoMemory};
use std::alloc::{AllocError, AllocFailed};
use thiserror::Error;

/// The code of an error reply.
#[derive(Clone, Copy, Debug, PartialEq, Eq)]
pub enum ErrorCode {
    InvalidRequest,
    InvalidRange,
    ItemNotFound,
    NotSupported,
    NameAlreadyExists,
    ResyncChangesApplyDifferences,
    ResyncChangesUploadDifferences,
    ResourceModified,
    FailedDependency,
    GeneralException,
    QuotaLimitReached,
}

impl Exact for ErrorCode {
    ghost use Rattle.std.proofs.Common.{rules};

    ghost exact = { Prim.search rules };
}

impl ErrorCode {
    /// The code as the body of an error reply spells it.
    pub fn as_str(&self) -> &'static str
        ensures { result.now ≡ code_text self.now }
    {
        match self {
            ErrorCode::InvalidRequest => "invalidRequest",
            ErrorCode::InvalidRange => "invalidRange",
            ErrorCode::ItemNotFound => "itemNotFound",
            ErrorCode::NotSupported => "notSupported",
            ErrorCode::NameAlreadyExists => "nameAlreadyExists",
            ErrorCode::ResyncChangesApplyDifferences => "resyncChangesApplyDifferences",
            ErrorCode::ResyncChangesUploadDifferences => "resyncChangesUploadDifferences",
            ErrorCode::ResourceModified => "resourceModified",
            ErrorCode::FailedDependency => "failedDependency",
            ErrorCode::GeneralException => "generalException",
            ErrorCode::QuotaLimitReached => "quotaLimitReached",
        }
    }
}

/// Why a store refuses.
#[derive(Clone, Copy, Debug, PartialEq, Eq, Error)]
pub enum StoreFault {
    #[error("no such item")]
    NotFound,
    #[error("the item is no folder")]
    NotFolder,
    #[error("the item is no file")]
    NotFile,
    #[error("the root stays as it is")]
    Root,
    #[error("the name is none that an item may have")]
    BadName,
    #[error("the condition does not hold")]
    Modified,
    #[error("a folder cannot be moved into itself")]
    IntoItself,
    #[error("the name is taken")]
    NameTaken,
    #[error("a path would be longer than 400 characters")]
    PathTooLong,
    #[error("the drive is full")]
    Quota,
    #[error("out of memory")]
    Memory,
}

impl StoreFault {
    /// The status of the reply (RFC 9110).
    pub fn status(self) -> u16
        ensures { result ≡ status_of self }
    {
        match self {
            StoreFault::NotFound => 404,
            StoreFault::NameTaken => 409,
            StoreFault::Modified => 412,
            StoreFault::Memory => 503,
            StoreFault::Quota => 507,
            StoreFault::NotFolder => 400,
            StoreFault::NotFile => 400,
            StoreFault::Root => 400,
            StoreFault::BadName => 400,
            StoreFault::IntoItself => 400,
            StoreFault::PathTooLong => 400,
        }
    }

    /// The code of the reply. What has no code of its own is an invalid request.
    pub fn code(self) -> ErrorCode
        ensures { result ≡ code_of self }
    {
        match self {
            StoreFault::NotFound => ErrorCode::ItemNotFound,
            StoreFault::NameTaken => ErrorCode::NameAlreadyExists,
            StoreFault::Modified => ErrorCode::ResourceModified,
            StoreFault::Memory => ErrorCode::GeneralException,
            StoreFault::Quota => ErrorCode::QuotaLimitReached,
            StoreFault::NotFolder => ErrorCode::InvalidRequest,
            StoreFault::NotFile => ErrorCode::InvalidRequest,
            StoreFault::Root => ErrorCode::InvalidRequest,
            StoreFault::BadName => ErrorCode::InvalidRequest,
            StoreFault::IntoItself => ErrorCode::InvalidRequest,
            StoreFault::PathTooLong => ErrorCode::InvalidRequest,
        }
    }
}

impl From<NoMemory> for StoreFault {
    ghost use Rattle.gd_item.specs.declared.fault.StoreFault.TheVariants.{Memory};

    ghost from_gives = { λ _ fault. fault ≡ Memory };

    fn from(_error: NoMemory) -> StoreFault {
        StoreFault::Memory
    }
}

impl From<AllocError> for StoreFault {
    ghost use Rattle.gd_item.specs.declared.fault.StoreFault.TheVariants.{Memory};

    ghost from_gives = { λ _ fault. fault ≡ Memory };

    fn from(_error: AllocError) -> StoreFault {
        StoreFault::Memory
    }
}

impl<T: Drop> From<AllocFailed<T>> for StoreFault {
    ghost use Rattle.gd_item.specs.declared.fault.StoreFault.TheVariants.{Memory};

    ghost from_gives = { λ _ fault. fault ≡ Memory };

    fn from(_error: AllocFailed<T>) -> StoreFault {
        StoreFault::Memory
    }
}

/// Why an upload session is not begun, or refuses a fragment.
#[derive(Clone, Copy, Debug, PartialEq, Eq, Error)]
pub enum SessionFault {
    #[error("no such session")]
    NoSession,
    #[error("the whole length is not that of the first fragment")]
    Total,
    /// Also of a session that is finished too early, or that is not deferred.
    #[error("the range is none of the file, or not that of the bytes")]
    Form,
    #[error("the fragment or the file is too large")]
    TooLarge,
    #[error("byte {0} is expected next")]
    Range(u64),
    #[error("a fragment before the last one is no multiple of 327,680 bytes")]
    Multiple,
    #[error("the drive is full")]
    Quota,
    #[error("too many sessions")]
    Many,
    #[error("out of memory")]
    Memory,
}

impl SessionFault {
    /// The status of the reply (RFC 9110).
    pub fn status(self) -> u16
        ensures { result ≡ session_status_of self }
    {
        match self {
            SessionFault::NoSession => 404,
            SessionFault::Total => 400,
            SessionFault::Form => 400,
            SessionFault::TooLarge => 413,
            SessionFault::Range(_) => 416,
            SessionFault::Multiple => 400,
            SessionFault::Quota => 507,
            SessionFault::Many => 507,
            SessionFault::Memory => 503,
        }
    }

    /// The code of the reply.
    pub fn code(self) -> ErrorCode
        ensures { result ≡ session_code_of self }
    {
        match self {
            SessionFault::NoSession => ErrorCode::ItemNotFound,
            SessionFault::Total => ErrorCode::InvalidRequest,
            SessionFault::Form => ErrorCode::InvalidRequest,
            SessionFault::TooLarge => ErrorCode::InvalidRequest,
            SessionFault::Range(_) => ErrorCode::InvalidRange,
            SessionFault::Multiple => ErrorCode::InvalidRange,
            SessionFault::Quota => ErrorCode::QuotaLimitReached,
            SessionFault::Many => ErrorCode::QuotaLimitReached,
            SessionFault::Memory => ErrorCode::GeneralException,
        }
    }
}
