//! The rows of the table of items.
ghost use Rattle.std.specs.Prelude.{◌≡◌, pos, None, Some, IfOk, IsErrOf};
ghost use Rattle.std.specs.Option.{option_map};
ghost use Rattle.od_database.specs.Entries.{kind_columns, file_of, kind_of, parent_column, parent_of, row_of, item_of};

use crate::fault::DatabaseFault;
use crate::number::{digest_blob, digest_from, integer_of, natural_of};
use gd_item::{Item, ItemId, Kind, Tag};
use gd_names::{Bytes, NoMemory, Text};
use std::alloc::Global;

/// A row of the table `entry`, column by column.
#[derive(Debug, PartialEq, Eq, Drop)]
pub struct EntryRow {
    pub id: i64,
    pub parent: Option<i64>,
    pub name: Text,
    pub size: i64,
    pub etag: Text,
    pub ctag: Option<Text>,
    pub kind: i64,
    pub digest: Option<Bytes>,
}

fn parent_column(parent: Option<ItemId>) -> Option<Option<i64>>
    ensures { result ≡ parent_column parent }
{
    match parent {
        None => Some(None),
        Some(id) => match integer_of(id.0) {
            Some(number) => Some(Some(number)),
            None => None,
        },
    }
}

fn parent_of(column: Option<i64>) -> Option<Option<ItemId>>
    ensures { result ≡ parent_of column }
{
    match column {
        None => Some(None),
        Some(number) => match natural_of(number) {
            Some(id) => Some(Some(ItemId(id))),
            None => None,
        },
    }
}

fn kind_columns(alloc: Global, kind: &Kind) -> Result<(i64, Option<Bytes>), DatabaseFault>
    ensures ok { IfOk result (λ columns. (code : _) × (columns.0 ≡ pos code) × (kind_columns kind.now ≡ Some (code, columns.1))) }
    ensures refused { IsErrOf result DatabaseFault.NoImage → kind_columns kind.now ≡ None }
    ensures taken { IsErrOf result DatabaseFault.Refused → ⊥ }
{
    match kind {
        Kind::Folder { .. } => Ok((0, None)),
        Kind::File { digest } => {
            let blob = digest_blob(alloc, digest)?;
            Ok((1, Some(blob)))
        }
        Kind::Bare => Ok((2, None)),
        Kind::Deleted => Err(DatabaseFault::NoImage),
    }
}

fn file_of(digest: &Option<Bytes>) -> Option<Kind>
    ensures { result ≡ file_of digest.now }
{
    match digest {
        None => None,
        Some(blob) => match digest_from(blob) {
            Some(digest) => Some(Kind::File { digest }),
            None => None,
        },
    }
}

fn kind_of(code: i64, digest: &Option<Bytes>) -> Option<Kind>
    ensures { result ≡ kind_of code digest.now }
{
    let code = natural_of(code)?;
    if code == 1 {
        return file_of(digest);
    }
    match digest {
        Some(_) => None,
        None if code == 0 => Some(Kind::Folder { child_count: 0 }),
        None if code == 2 => Some(Kind::Bare),
        None => None,
    }
}

fn tag_column(tag: &Option<Tag>) -> Result<Option<Text>, NoMemory>
    ensures { IfOk result (λ column. column ≡ option_map (λ (tag : _). tag.0) tag.now) }
{
    match tag {
        None => Ok(None),
        Some(tag) => {
            let text = tag.0.clone()?;
            Ok(Some(text))
        }
    }
}

fn tag_of(column: &Option<Text>) -> Result<Option<Tag>, NoMemory>
    ensures { IfOk result (λ tag. tag ≡ option_map (λ text. record { 0 = text }) column.now) }
{
    match column {
        None => Ok(None),
        Some(text) => {
            let text = text.clone()?;
            Ok(Some(Tag(text)))
        }
    }
}

impl EntryRow {
    /// The row of an item. Refused where a number does not fit, and of a deleted item.
    pub fn of(alloc: Global, item: &Item) -> Result<EntryRow, DatabaseFault>
        ensures ok { IfOk result (λ row. row_of item.now ≡ Some row) }
        ensures refused { IsErrOf result DatabaseFault.NoImage → row_of item.now ≡ None }
        ensures taken { IsErrOf result DatabaseFault.Refused → ⊥ }
    {
        let id = integer_of(item.id.0).ok_or(DatabaseFault::NoImage)?;
        let parent = parent_column(item.parent).ok_or(DatabaseFault::NoImage)?;
        let size = integer_of(item.size).ok_or(DatabaseFault::NoImage)?;
        let (kind, digest) = kind_columns(alloc, &item.kind)?;
        let name = item.name.clone()?;
        let etag = item.etag.0.clone()?;
        let ctag = tag_column(&item.ctag)?;
        Ok(EntryRow {
            id,
            parent,
            name,
            size,
            etag,
            ctag,
            kind,
            digest,
        })
    }

    /// The item of the row, if it is one.
    pub fn read(&self) -> Result<Item, DatabaseFault>
        ensures ok { IfOk result (λ item. item_of self.now ≡ Some item) }
        ensures refused { IsErrOf result DatabaseFault.NoImage → item_of self.now ≡ None }
        ensures taken { IsErrOf result DatabaseFault.Refused → ⊥ }
    {
        let id = natural_of(self.id).ok_or(DatabaseFault::NoImage)?;
        let parent = parent_of(self.parent).ok_or(DatabaseFault::NoImage)?;
        let size = natural_of(self.size).ok_or(DatabaseFault::NoImage)?;
        let kind = kind_of(self.kind, &self.digest).ok_or(DatabaseFault::NoImage)?;
        let name = self.name.clone()?;
        let etag = self.etag.clone()?;
        let ctag = tag_of(&self.ctag)?;
        Ok(Item {
            id: ItemId(id),
            parent,
            parent_path: None,
            name,
            size,
            etag: Tag(etag),
            ctag,
            kind,
        })
    }
}
