ghost use Rattle.std.specs.Prelude.{◌≡◌};

use crate::id::ItemId;
use gd_names::{Bytes, Exact, Text};
use std::alloc::AllocError;

/// An item that lives on the drive, as the definitions see it. The root is none of these: it has the number 1.
#[derive(Debug, Drop)]
pub struct LiveItem {
    pub number: u64,
    /// The number of the folder in which it stands.
    pub parent: u64,
    pub name: Text,
    /// None for a folder.
    pub bytes: Option<Bytes>,
    /// The drive's number after the last effect that touched it.
    pub change: u64,
    /// The drive's number after its last put, and 0 for a folder.
    pub content: u64,
}

impl Clone for LiveItem {
    ghost is_clone = { λ a b. b ≡ a };

    fn clone(&self) -> Result<LiveItem, AllocError> {
        Ok(LiveItem {
            number: self.number,
            parent: self.parent,
            name: self.name.clone()?,
            bytes: self.bytes.clone()?,
            change: self.change,
            content: self.content,
        })
    }
}

impl Exact for LiveItem {
    ghost exact = { λ x y h. h };
}

/// An item that was removed.
#[derive(Clone, Copy, Debug, PartialEq, Eq)]
pub struct Tombstone {
    pub number: u64,
    /// The number of the folder in which it stood.
    pub parent: u64,
    /// The drive's number after its removal.
    pub change: u64,
}

impl Exact for Tombstone {
    ghost use Rattle.std.proofs.Common.{rules};

    ghost exact = { Prim.search rules };
}

/// What a put brought to a file.
#[derive(Debug, Drop)]
pub struct Version {
    /// The number of the file.
    pub item: u64,
    /// The drive's number after the put.
    pub content: u64,
    pub bytes: Bytes,
}

impl Clone for Version {
    ghost is_clone = { λ a b. b ≡ a };

    fn clone(&self) -> Result<Version, AllocError> {
        Ok(Version {
            item: self.item,
            content: self.content,
            bytes: self.bytes.clone()?,
        })
    }
}

impl Exact for Version {
    ghost exact = { λ x y h. h };
}

/// A version of a file, as a list of versions has it.
#[derive(Clone, Copy, Debug, PartialEq, Eq)]
pub struct VersionInfo {
    /// The content number.
    pub version: u64,
    /// In bytes.
    pub size: u64,
}

impl Exact for VersionInfo {
    ghost use Rattle.std.proofs.Common.{rules};

    ghost exact = { Prim.search rules };
}

/// Where a file is put: over the file of this number, or under this folder with this name.
#[derive(Debug, PartialEq, Eq, Drop)]
pub enum Place {
    Over(ItemId),
    Under(ItemId, Text),
}

impl Clone for Place {
    ghost is_clone = { λ a b. b ≡ a };

    fn clone(&self) -> Result<Place, AllocError> {
        match self {
            Place::Over(id) => Ok(Place::Over(*id)),
            Place::Under(id, name) => Ok(Place::Under(*id, name.clone()?)),
        }
    }
}

impl Exact for Place {
    ghost exact = { λ x y h. h };
}
