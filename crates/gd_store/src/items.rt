ghost use Rattle.std.specs.Prelude.{◌≡◌, ◌+◌, ◌-◌, ◌^◌, ◌<◌, length, map, take, is_some, reverse, None, IfOk};
ghost use Rattle.std.specs.Option.{option_copied};
ghost use Rattle.gd_item.specs.Inventory.{new_drive, live_at};
ghost use Rattle.gd_item.specs.Nodes.{path_of, number_at, child_at};
ghost use Rattle.gd_item.specs.Records.{record_at, feed, first_of, last_of};
ghost use Rattle.gd_item.specs.Refusals.{file_refusal as not_file, settled_in, is_refuse, settled_path, is_too_long, is_over_quota, made_items, is_met as is_condition_met};
ghost use Rattle.gd_item.specs.Trees.{nodes_of};
ghost use Rattle.gd_item.specs.Versions.{version_at, content_at, info_of};
ghost use Rattle.gd_laws.specs.Given.{given_versions};
ghost use Rattle.gd_names.specs.Names.{name_fault};
ghost use Rattle.gd_store.specs.Stands.{given_unless, pruned};

mod listing;
mod making;
mod putting;
mod relocating;
mod removing;

use crate::feed::{drop_stones, first_changes, first_stones, put_items, put_root, put_stones};
use crate::look::{find_names, is_a_folder, is_known};
use crate::path::{is_long, path_to};
use crate::record::{content_tag_of, record_at as find_record_at};
use crate::versions::{push_version, version_bytes, version_infos};
use gd_index::Index;
use gd_item::{
    Condition, Item, LiveItem, StoreFault, Tombstone, Version, VersionInfo, etag_of, matches,
};
use gd_names::{Bytes, Conflict, List, NoMemory, Path, Settle, Text, check_name, path_fits};
use std::alloc::Global;
use std::collections::BTreeMap;
use std::marker::Model;

/// How many items may live, the root among them.
const MOST_ITEMS: usize = 100_000;

/// How many bytes may be kept, those of replaced files among them.
const MOST_BYTES: u64 = 536_870_912;

/// A drive's items in an index, its tombstones in order of change, and its versions.
#[derive(Debug, Drop)]
pub struct Items {
    alloc: Global,
    index: Index,
    removed: Vec<Tombstone>,
    replaced: Vec<Version>,
    number: u64,
    last: u64,
    kept: u64,
}

impl Model for Items {
    ghost use Rattle.std.specs.Prelude.{◌+◌};
    ghost use Rattle.gd_item.specs.Inventory.{Inventory};

    ghost Value = { Inventory };

    ghost use Rattle.gd_store.specs.Kept.{IsKept};

    ghost view = { λ s. record { number = s.number; next = s.last + 1; items = s.index; removed = s.removed.items; replaced = s.replaced.items; kept = s.kept } };

    ghost invariant = { λ s. IsKept (record { number = s.number; next = s.last + 1; items = s.index; removed = s.removed.items; replaced = s.replaced.items; kept = s.kept }) };
}

/// Whether the name is none that an item may have.
fn is_bad_name(name: &Text) -> bool
    ensures { result ≡ is_some (name_fault name.now) }
{
    match check_name(name) {
        Ok(()) => false,
        Err(_) => true,
    }
}

/// Whether the name is not to be had.
fn is_refused(settle: &Settle) -> bool
    ensures { result ≡ is_refuse settle.now }
{
    match settle {
        Settle::Free(_) => false,
        Settle::Over(_) => false,
        Settle::Refuse => true,
    }
}

/// How many items are made by what is settled so.
fn made_by(settle: &Settle) -> usize
    ensures count { result ≡ made_items settle.now }
    ensures few { result < 2 }
{
    match settle {
        Settle::Free(_) => 1,
        Settle::Over(_) => 0,
        Settle::Refuse => 0,
    }
}

impl Items {
    ghost use Rattle.gd_store.specs.Stands.{Answers};

    /// A drive with its root alone.
    pub fn new(alloc: Global) -> Items
        ensures { result ≡ new_drive }
    {
        Items {
            alloc,
            index: Index::new(alloc),
            removed: Vec::new(alloc),
            replaced: Vec::new(alloc),
            number: 1,
            last: 1,
            kept: 0,
        }
    }

    /// The drive's change number.
    pub fn number(&self) -> u64
        ensures { result ≡ self.now.number }
    {
        self.number
    }

    /// How many bytes all puts brought.
    pub fn kept_bytes(&self) -> u64
        ensures { result ≡ self.now.kept }
    {
        self.kept
    }

    /// How many items live, the root among them.
    pub fn count(&self) -> u64
        ensures { result ≡ length self.now.items + 1 }
    {
        self.index.len() as u64 + 1
    }

    /// Forgets the tombstones up to a floor. Takes no memory.
    pub fn forget(&mut self, floor: u64)
        ensures { self.new ≡ pruned floor self.old }
    {
        drop_stones(&mut self.removed, floor);
    }

    /// The number of the child that has the name, but for case.
    pub fn find_child(&self, parent: u64, name: &Text) -> Option<u64>
        ensures { result ≡ child_at parent name.now (nodes_of self.now) }
    {
        self.index.child(parent, name)
    }

    /// The number at a path.
    pub fn find(&self, path: &Path) -> Option<u64>
        ensures { result ≡ number_at path.now (nodes_of self.now) }
    {
        find_names(&self.index, path.names())
    }

    /// The record of a number.
    pub fn find_record(&self, number: u64, with_path: bool) -> Result<Option<Item>, NoMemory>
        ensures { IfOk result (λ found. found ≡ record_at number with_path self.now) }
    {
        find_record_at(self.alloc, &self.index, number, with_path)
    }

    /// The content number of a file.
    pub fn content_of(&self, number: u64) -> Result<u64, StoreFault>
        ensures { result ≡ given_unless (not_file self.now number) (content_at number self.now) }
    {
        if !is_known(&self.index, number) {
            return Err(StoreFault::NotFound);
        }
        if is_a_folder(&self.index, number) {
            return Err(StoreFault::NotFile);
        }
        match self.index.get(number) {
            None => Ok(0),
            Some(item) => Ok(item.content),
        }
    }

    /// The bytes of a version of a living file, if it has that version.
    pub fn find_version(&self, number: u64, version: u64) -> Result<Option<Bytes>, NoMemory>
        ensures { IfOk result (λ found. found ≡ version_at number version self.now) }
    {
        let Some(item) = self.index.get(number) else {
            return Ok(None);
        };
        match version_bytes(item, self.replaced.as_slice(), version) {
            None => Ok(None),
            Some(bytes) => {
                let copy = Bytes::from_slice(self.alloc, bytes.as_slice())?;
                Ok(Some(copy))
            }
        }
    }

    /// The first records past a position, and of what was removed past both numbers, by change number.
    fn changes(
        &self,
        position: u64,
        removed_after: u64,
        most: usize,
    ) -> Result<BTreeMap<u64, Item>, NoMemory>
        ensures first { IfOk result (λ changes. take most changes.entries ≡ take most (feed self.now position removed_after)) }
        ensures small { IfOk result (λ changes. length changes.entries < 2 ^ 63) }
    {
        let items = self.index.changed_after(position, most)?;
        let stones = first_stones(self.removed.as_slice(), position, removed_after, most);
        let mut changes = BTreeMap::new(self.alloc);
        put_root(self.alloc, &mut changes, &self.index, position)?;
        put_items(self.alloc, &mut changes, &self.index, items.as_slice())?;
        put_stones(self.alloc, &mut changes, stones)?;
        let _count = changes.len();
        Ok(changes)
    }

    /// The feed past a position, at most so many records of it, and the change number of the last one where more
    /// follow.
    pub fn changed_after(
        &self,
        position: u64,
        removed_after: u64,
        most: u64,
    ) -> Result<(List<Item>, Option<u64>), NoMemory>
        requires { 0 < most }
        ensures found { IfOk result (λ found. (found.0 ≡ first_of most (feed self.now position removed_after)) × (found.1 ≡ last_of most (feed self.now position removed_after))) }
        ensures whole { IfOk result (λ found. most ≡ 2 ^ 64 - 1 → found.1 ≡ None) }
    {
        // One more tells whether more follow.
        let count = (most as usize).saturating_add(1);
        let changes = self.changes(position, removed_after, count)?;
        let found = first_changes(self.alloc, changes, most)?;
        Ok(found)
    }

    /// The versions of an item that are kept, the newest first.
    fn kept_versions(&self, number: u64) -> Result<List<VersionInfo>, NoMemory>
        ensures { IfOk result (λ found. found ≡ reverse (map info_of (given_versions number self.now))) }
    {
        let mut infos = version_infos(self.alloc, self.replaced.as_slice(), number)?;
        push_version(&mut infos, self.index.get(number))?;
        infos.as_mut_slice().reverse();
        Ok(List::from_vec(infos))
    }

    /// The versions of a living file, the newest first, or why they are not listed.
    pub fn list_versions(&self, number: u64) -> Result<List<VersionInfo>, StoreFault>
        ensures { Answers (not_file self.now number) result (λ found. found ≡ reverse (map info_of (given_versions number self.now))) }
    {
        if !is_known(&self.index, number) {
            return Err(StoreFault::NotFound);
        }
        if is_a_folder(&self.index, number) {
            return Err(StoreFault::NotFile);
        }
        let found = self.kept_versions(number)?;
        Ok(found)
    }

    /// How a name is settled in a folder.
    pub fn settle(
        &self,
        parent: u64,
        name: &Text,
        behaviour: Conflict,
        folder: bool,
    ) -> Result<Settle, NoMemory>
        ensures { IfOk result (λ found. found ≡ settled_in self.now parent name.now behaviour folder) }
    {
        self.index.settle(parent, name, behaviour, folder)
    }

    /// Whether an item that is settled so would get a path that is longer than any item's may be.
    pub fn would_be_long(&self, parent: u64, settle: &Settle) -> Result<bool, NoMemory>
        ensures { IfOk result (λ long. long ≡ is_too_long (settled_path self.now parent settle.now)) }
    {
        match settle {
            Settle::Free(name) => match path_to(self.alloc, &self.index, parent)? {
                None => Ok(false),
                Some(path) => {
                    let mut names = path.into_names();
                    names.push(name.clone()?)?;
                    Ok(!path_fits(&Path::from_names(names)))
                }
            },
            Settle::Over(number) => {
                let path = path_to(self.alloc, &self.index, *number)?;
                Ok(is_long(&path))
            }
            Settle::Refuse => Ok(false),
        }
    }

    /// Whether the drive would pass one of its limits by so many items, bytes, and bytes of upload sessions.
    pub fn is_full(&self, items: usize, bytes: u64, others: u64) -> bool
        requires { items < 2 }
        ensures { result ≡ is_over_quota self.now items (bytes + others) }
    {
        if self.index.len() + 1 + items > MOST_ITEMS {
            return true;
        }
        if self.number == u64::MAX {
            return true;
        }
        self.kept.saturating_add(bytes).saturating_add(others) > MOST_BYTES
    }

    /// Whether an item that may be there meets a condition.
    pub fn meets(&self, condition: &Condition, item: Option<&LiveItem>) -> Result<bool, NoMemory>
        ensures { IfOk result (λ met. met ≡ is_condition_met condition.now (option_copied item.entry)) }
    {
        if *condition == Condition::Free {
            return Ok(true);
        }
        let Some(item) = item else {
            return Ok(false);
        };
        let etag = etag_of(self.alloc, item.change)?;
        let ctag = content_tag_of(self.alloc, item)?;
        Ok(matches(condition, &etag, ctag.as_ref()))
    }

    /// Whether the living item of a number meets a condition.
    pub fn meets_at(&self, number: u64, condition: &Condition) -> Result<bool, NoMemory>
        ensures { IfOk result (λ met. met ≡ is_condition_met condition.now (live_at number self.now.items)) }
    {
        let item = self.index.get(number);
        self.meets(condition, item)
    }

    /// Whether the item of a number has a path that is longer than any item's may be.
    pub fn is_long_at(&self, number: u64) -> Result<bool, NoMemory>
        ensures { IfOk result (λ long. long ≡ is_too_long (path_of (nodes_of self.now) number)) }
    {
        let path = path_to(self.alloc, &self.index, number)?;
        Ok(is_long(&path))
    }
}
