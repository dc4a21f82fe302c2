ghost use Rattle.std.specs.Prelude.{◌≡◌, ◌+◌, ◌<◌, ◌^◌, length, true, Some, IfOk, OnErr};
ghost use Rattle.gd_item.specs.Ids.{item_id};
ghost use Rattle.gd_item.specs.Inventory.{MadeFolder, after};
ghost use Rattle.gd_item.specs.Refusals.{settled_in, settled_path, is_too_long, make_folder_refusal, make_folder_effect};
ghost use Rattle.gd_item.specs.Sound.{IsItemMap};
ghost use Rattle.gd_store.specs.Stands.{record_after};

use super::{Items, is_bad_name, is_refused, made_by};
use crate::edit::push_and_get;
use crate::look::{is_a_folder, is_known};
use gd_item::{Item, ItemId, LiveItem, StoreFault};
use gd_names::{Conflict, NoMemory, Settle, Text};

impl Items {
    ghost use Rattle.gd_store.specs.Stands.{Answers};

    /// Why a folder is not made.
    fn folder_refusal(
        &self,
        parent: u64,
        name: &Text,
        behaviour: Conflict,
        settle: &Settle,
        is_long: bool,
    ) -> Option<StoreFault>
        requires settle { settle.now ≡ settled_in self.now parent name.now behaviour true }
        requires long { is_long ≡ is_too_long (settled_path self.now parent settle.now) }
        ensures { result ≡ make_folder_refusal self.now parent name.now behaviour }
    {
        if !is_known(&self.index, parent) {
            Some(StoreFault::NotFound)
        } else if !is_a_folder(&self.index, parent) {
            Some(StoreFault::NotFolder)
        } else if is_bad_name(name) {
            Some(StoreFault::BadName)
        } else if is_refused(settle) {
            Some(StoreFault::NameTaken)
        } else if is_long {
            Some(StoreFault::PathTooLong)
        } else if self.is_full(made_by(settle), 0, 0) {
            Some(StoreFault::Quota)
        } else {
            None
        }
    }

    /// The name that a folder gets which is made so, or why none is made.
    fn name_of_folder(
        &self,
        parent: u64,
        name: &Text,
        behaviour: Conflict,
    ) -> Result<Text, StoreFault>
        ensures { Answers (make_folder_refusal self.now parent name.now behaviour) result
            (λ free. settled_in self.now parent name.now behaviour true ≡ Settle.Free free) }
    {
        let settle = self.settle(parent, name, behaviour, true)?;
        let is_long = self.would_be_long(parent, &settle)?;
        match self.folder_refusal(parent, name, behaviour, &settle, is_long) {
            Some(fault) => return Err(fault),
            None => {}
        }
        match settle {
            Settle::Free(free) => Ok(free),
            // A folder goes over nothing, and what is refused was told above.
            Settle::Over(_) => unreachable!(),
            Settle::Refuse => unreachable!(),
        }
    }

    /// Adds a folder.
    fn add_folder(&mut self, parent: u64, name: Text) -> Result<ItemId, NoMemory>
        requires room { length self.old.items + 1 < 100000 }
        requires number { self.old.number + 1 < 2 ^ 64 }
        requires map { IsItemMap (after self.old (MadeFolder parent name)) }
        ensures ok { IfOk result (λ id. (id ≡ item_id self.old.next) × (self.new ≡ after self.old (MadeFolder parent name))) }
        ensures err { OnErr result (self.new ≡ self.old) }
    {
        let item = LiveItem {
            number: self.last + 1,
            parent,
            name,
            bytes: None,
            change: self.number + 1,
            content: 0,
        };
        self.index.push(item)?;
        self.number += 1;
        self.last += 1;
        Ok(ItemId(self.last))
    }

    /// A folder that is made, or why it is not.
    pub fn make(
        &mut self,
        parent: u64,
        name: &Text,
        behaviour: Conflict,
    ) -> Result<ItemId, StoreFault>
        ensures answer { Answers (make_folder_refusal self.old parent name.now behaviour) result
            (λ id. (id ≡ item_id self.old.next) × (self.new ≡ after self.old (make_folder_effect self.old parent name.now behaviour))) }
        ensures kept { OnErr result (self.new ≡ self.old) }
    {
        // What always holds of a store is used below.
        let _ = &self.index;
        let free = self.name_of_folder(parent, name, behaviour)?;
        let id = self.add_folder(parent, free)?;
        Ok(id)
    }

    /// Adds a folder, and gives its record with the path of the folder above.
    fn add_folder_and_get(&mut self, parent: u64, name: Text) -> Result<Item, NoMemory>
        requires room { length self.old.items + 1 < 100000 }
        requires number { self.old.number + 1 < 2 ^ 64 }
        requires map { IsItemMap (after self.old (MadeFolder parent name)) }
        ensures ok { IfOk result (λ made. (record_after self.old (MadeFolder parent name) ≡ Some made) × (self.new ≡ after self.old (MadeFolder parent name))) }
        ensures err { OnErr result (self.new ≡ self.old) }
    {
        let item = LiveItem {
            number: self.last + 1,
            parent,
            name,
            bytes: None,
            change: self.number + 1,
            content: 0,
        };
        let made = push_and_get(self.alloc, &mut self.index, item)?;
        self.number += 1;
        self.last += 1;
        Ok(made)
    }

    /// The record of a folder that is made, or why it is not.
    pub fn make_and_get(
        &mut self,
        parent: u64,
        name: &Text,
        behaviour: Conflict,
    ) -> Result<Item, StoreFault>
        ensures answer { Answers (make_folder_refusal self.old parent name.now behaviour) result
            (λ item. (record_after self.old (make_folder_effect self.old parent name.now behaviour) ≡ Some item)
            × (self.new ≡ after self.old (make_folder_effect self.old parent name.now behaviour))) }
        ensures kept { OnErr result (self.new ≡ self.old) }
    {
        // What always holds of a store is used below.
        let _ = &self.index;
        let free = self.name_of_folder(parent, name, behaviour)?;
        let made = self.add_folder_and_get(parent, free)?;
        Ok(made)
    }
}
