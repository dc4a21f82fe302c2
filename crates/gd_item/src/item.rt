ghost use Rattle.std.specs.Prelude.{◌≡◌, IfOk};
ghost use Rattle.gd_item.specs.Tags.{tag_of, etag_text, ctag_text};

use crate::digest::Digest;
use crate::id::ItemId;
use gd_names::{Exact, NoMemory, Text};
use std::alloc::{AllocError, Global};

/// The text of an entity tag (RFC 9110), without quotes.
#[derive(Debug, PartialEq, Eq, Drop)]
pub struct Tag(pub Text);

impl Clone for Tag {
    ghost is_clone = { λ a b. b ≡ a };

    fn clone(&self) -> Result<Tag, AllocError> {
        Ok(Tag(self.0.clone()?))
    }
}

impl Exact for Tag {
    ghost exact = { λ x y h. h };
}

/// The `eTag` of an item that this change touched last.
pub fn etag_of(alloc: Global, change: u64) -> Result<Tag, NoMemory>
    ensures { IfOk result (λ t. t ≡ tag_of (etag_text change)) }
{
    let text = format!(in alloc; "e{change}")?;
    Ok(Tag(Text::from_string(text)))
}

/// The `cTag` of a file whose content has this number.
pub fn ctag_of(alloc: Global, content: u64) -> Result<Tag, NoMemory>
    ensures { IfOk result (λ t. t ≡ tag_of (ctag_text content)) }
{
    let text = format!(in alloc; "c{content}")?;
    Ok(Tag(Text::from_string(text)))
}

/// What an item is. A deleted item has an empty name and the size 0.
#[derive(Clone, Copy, Debug, PartialEq, Eq)]
pub enum Kind {
    Folder { child_count: u64 },
    File { digest: Digest },
    /// A file whose digest the drive does not give.
    Bare,
    Deleted,
}

impl Exact for Kind {
    ghost use Rattle.std.proofs.Common.{rules};

    ghost exact = { Prim.search rules };
}

/// An item as a reply has it: the driveItem of Microsoft Graph v1.0, in the members that this drive gives.
#[derive(Debug, PartialEq, Eq, Drop)]
pub struct Item {
    pub id: ItemId,
    /// None for the root.
    pub parent: Option<ItemId>,
    /// `/drive/root:` and the path of the parent. A feed has none.
    pub parent_path: Option<Text>,
    pub name: Text,
    /// In bytes. A folder has 0.
    pub size: u64,
    /// Changes with every change of the item.
    pub etag: Tag,
    /// Changes with the content alone. A folder has none.
    pub ctag: Option<Tag>,
    pub kind: Kind,
}

impl Clone for Item {
    ghost is_clone = { λ a b. b ≡ a };

    fn clone(&self) -> Result<Item, AllocError> {
        Ok(Item {
            id: self.id,
            parent: self.parent,
            parent_path: self.parent_path.clone()?,
            name: self.name.clone()?,
            size: self.size,
            etag: self.etag.clone()?,
            ctag: self.ctag.clone()?,
            kind: self.kind,
        })
    }
}

impl Exact for Item {
    ghost exact = { λ x y h. h };
}
