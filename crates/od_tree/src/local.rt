ghost use Rattle.std.specs.Prelude.{◌≡◌};

use gd_names::{Bytes, Exact, Path};
use std::alloc::AllocError;

/// A file with the user's write from which it stems: its place in the log, from 0, or None for a file that the client
/// placed.
#[derive(Debug, PartialEq, Eq, Drop)]
pub struct LocalFile {
    pub bytes: Bytes,
    pub origin: Option<u64>,
}

impl Clone for LocalFile {
    ghost is_clone = { λ a b. b ≡ a };

    fn clone(&self) -> Result<LocalFile, AllocError> {
        Ok(LocalFile {
            bytes: self.bytes.clone()?,
            origin: self.origin,
        })
    }
}

impl Exact for LocalFile {
    ghost exact = { λ x y h. h };
}

/// An entry of the folder.
#[derive(Debug, PartialEq, Eq, Drop)]
pub struct Spot {
    pub path: Path,
    /// None for a folder.
    pub file: Option<LocalFile>,
}

impl Clone for Spot {
    ghost is_clone = { λ a b. b ≡ a };

    fn clone(&self) -> Result<Spot, AllocError> {
        Ok(Spot {
            path: self.path.clone()?,
            file: self.file.clone()?,
        })
    }
}

impl Exact for Spot {
    ghost exact = { λ x y h. h };
}

/// A file that stands in the holding folder.
#[derive(Debug, PartialEq, Eq, Drop)]
pub struct HeldFile {
    pub number: u64,
    /// The path at which it stood.
    pub from: Path,
    pub file: LocalFile,
}

impl Clone for HeldFile {
    ghost is_clone = { λ a b. b ≡ a };

    fn clone(&self) -> Result<HeldFile, AllocError> {
        Ok(HeldFile {
            number: self.number,
            from: self.from.clone()?,
            file: self.file.clone()?,
        })
    }
}

impl Exact for HeldFile {
    ghost exact = { λ x y h. h };
}
