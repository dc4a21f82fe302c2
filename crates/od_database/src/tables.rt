//! What the tables hold, and the image that it is.
ghost use Rattle.std.specs.Prelude.{◌≡◌, None, Some, IfOk, IsErrOf};
ghost use Rattle.od_keeper.specs.Images.{by_id, by_path};
ghost use Rattle.od_keeper.specs.declared.image.Image.{Image};
ghost use Rattle.od_database.specs.Agreements.{base_of};
ghost use Rattle.od_database.specs.Entries.{item_of};
ghost use Rattle.od_database.specs.Stored.{ascends, is_current, is_less, rules_of, IsImageOf};
ghost use Rattle.od_database.specs.Writes.{collected};

use crate::agreement::AgreementRow;
use crate::entry::EntryRow;
use crate::fault::DatabaseFault;
use crate::number::digest_of_text;
use gd_item::{Digest, Item};
use gd_names::{List, Text};
use od_keeper::{BaseRow, Image};
use std::alloc::Global;
use std::cmp::Ordering;

/// All rows, as they were read.
#[derive(Debug, PartialEq, Eq, Drop)]
pub struct Tables {
    pub version: Option<Text>,
    pub token: Option<Text>,
    /// Hexadecimal digits.
    pub rules: Option<Text>,
    /// In order of id.
    pub entries: List<EntryRow>,
    pub rows: List<AgreementRow>,
}

fn rules_of(text: &Option<Text>) -> Option<Option<Digest>>
    ensures { result ≡ rules_of text.now }
{
    match text {
        None => Some(None),
        Some(text) => match digest_of_text(text) {
            Some(digest) => Some(Some(digest)),
            None => None,
        },
    }
}

fn items_of(alloc: Global, entries: &[EntryRow]) -> Result<List<Item>, DatabaseFault>
    ensures ok { IfOk result (λ items. collected item_of entries.now ≡ Some items) }
    ensures refused { IsErrOf result DatabaseFault.NoImage → collected item_of entries.now ≡ None }
    ensures taken { IsErrOf result DatabaseFault.Refused → ⊥ }
{
    let mut items = Vec::new(alloc);
    for entry in entries {
        let item = entry.read()?;
        items.push(item)?;
    }
    Ok(List::from_vec(items))
}

fn bases_of(alloc: Global, rows: &[AgreementRow]) -> Result<Vec<BaseRow>, DatabaseFault>
    ensures ok { IfOk result (λ bases. collected base_of rows.now ≡ Some bases.items) }
    ensures refused { IsErrOf result DatabaseFault.NoImage → collected base_of rows.now ≡ None }
    ensures taken { IsErrOf result DatabaseFault.Refused → ⊥ }
{
    let mut bases = Vec::new(alloc);
    for row in rows {
        let base = row.read(alloc)?;
        bases.push(base)?;
    }
    Ok(bases)
}

fn items_ascend(items: &[Item]) -> bool
    ensures { result ≡ ascends by_id items.now }
{
    let mut items = items;
    while let [first, rest @ ..] = items {
        if let [second, ..] = rest
            && first.id.0 >= second.id.0
        {
            return false;
        }
        items = rest;
    }
    true
}

fn is_before(first: &BaseRow, second: &BaseRow) -> bool
    ensures { result ≡ is_less (by_path first.now second.now) }
{
    match first.path.cmp(&second.path) {
        Ordering::Less => true,
        Ordering::Equal | Ordering::Greater => false,
    }
}

fn rows_ascend(rows: &[BaseRow]) -> bool
    ensures { result ≡ ascends by_path rows.now }
{
    let mut rows = rows;
    while let [first, rest @ ..] = rows {
        if let [second, ..] = rest
            && !is_before(first, second)
        {
            return false;
        }
        rows = rest;
    }
    true
}

/// Whether the version is the one that this crate writes.
pub fn is_current(version: &Option<Text>) -> bool
    ensures { result ≡ is_current version.now }
{
    match version {
        Some(version) => version.as_bytes() == b"2".as_slice(),
        None => false,
    }
}

impl Tables {
    /// The image that they hold. Rows come in any order of path, since the order of their texts is another one.
    pub fn into_image(self, alloc: Global) -> Result<Image, DatabaseFault>
        ensures ok { IfOk result (λ image. IsImageOf self image) }
        ensures refused { IsErrOf result DatabaseFault.NoImage → (image : Image) → IsImageOf self image → ⊥ }
        ensures taken { IsErrOf result DatabaseFault.Refused → ⊥ }
    {
        let Tables {
            version,
            token,
            rules,
            entries,
            rows,
        } = self;
        if !is_current(&version) {
            return Err(DatabaseFault::NoImage);
        }
        let rules = rules_of(&rules).ok_or(DatabaseFault::NoImage)?;
        let items = items_of(alloc, entries.as_slice())?;
        let mut bases = bases_of(alloc, rows.as_slice())?;
        bases.sort_by(|a, b| a.path.cmp(&b.path))?;
        if !items_ascend(items.as_slice()) || !rows_ascend(bases.as_slice()) {
            return Err(DatabaseFault::NoImage);
        }
        Ok(Image {
            token,
            items,
            rows: List::from_vec(bases),
            rules,
        })
    }
}
