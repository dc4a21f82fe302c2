ghost use Rattle.std.specs.Prelude.{◌≡◌};

use gd_item::{Digest, Item, ItemId};
use gd_names::{Exact, List, Path, Text};
use std::alloc::AllocError;

/// What a path was when both sides last agreed on it.
#[derive(Clone, Copy, Debug, PartialEq, Eq)]
pub enum Agreed {
    Nothing,
    Folder,
    File(Digest),
}

impl Exact for Agreed {
    ghost use Rattle.std.proofs.Common.{rules};

    ghost exact = { Prim.search rules };
}

/// The agreement on a path, and the digest of bytes that are on their way to the drive.
#[derive(Debug, PartialEq, Eq, Drop)]
pub struct BaseRow {
    pub path: Path,
    pub what: Agreed,
    pub flight: Option<Digest>,
}

impl Clone for BaseRow {
    ghost is_clone = { λ a b. b ≡ a };

    fn clone(&self) -> Result<BaseRow, AllocError> {
        Ok(BaseRow {
            path: self.path.clone()?,
            what: self.what,
            flight: self.flight,
        })
    }
}

impl Exact for BaseRow {
    ghost exact = { λ x y h. h };
}

/// What the client keeps from one run to the next.
#[derive(Debug, PartialEq, Eq, Drop)]
pub struct Image {
    /// Up to where the feed was pulled.
    pub token: Option<Text>,
    /// The drive's items by id, the root among them, as they were there.
    pub items: List<Item>,
    /// The agreements in order of path.
    pub rows: List<BaseRow>,
    /// The digest of the rules file.
    pub rules: Option<Digest>,
}

impl Clone for Image {
    ghost is_clone = { λ a b. b ≡ a };

    fn clone(&self) -> Result<Image, AllocError> {
        Ok(Image {
            token: self.token.clone()?,
            items: self.items.clone()?,
            rows: self.rows.clone()?,
            rules: self.rules,
        })
    }
}

impl Exact for Image {
    ghost exact = { λ x y h. h };
}

/// A change of the image, whose parts apply in this order.
#[derive(Debug, PartialEq, Eq, Drop)]
pub struct Change {
    /// Empties the image.
    pub reset: bool,
    /// Replaces the digest of the rules file.
    pub rules: Option<Digest>,
    /// Replaces the token.
    pub token: Option<Text>,
    /// Removes the items of these ids.
    pub gone: List<ItemId>,
    /// Adds items, or replaces those of the same id.
    pub put: List<Item>,
    /// Removes the agreements on these paths.
    pub dropped: List<Path>,
    /// Adds agreements, or replaces those on the same path.
    pub rows: List<BaseRow>,
}

impl Clone for Change {
    ghost is_clone = { λ a b. b ≡ a };

    fn clone(&self) -> Result<Change, AllocError> {
        Ok(Change {
            reset: self.reset,
            rules: self.rules,
            token: self.token.clone()?,
            gone: self.gone.clone()?,
            put: self.put.clone()?,
            dropped: self.dropped.clone()?,
            rows: self.rows.clone()?,
        })
    }
}

impl Exact for Change {
    ghost exact = { λ x y h. h };
}
