ghost use Rattle.std.specs.Prelude.{◌≡◌, ◌⊎◌, ◌+◌, ◌<◌, ◌^◌, [], length, true, false, Some, None, IfOk, IfErr, OnOk, OnErr};
ghost use Rattle.gd_item.specs.Ids.{item_id};
ghost use Rattle.gd_item.specs.Inventory.{PutNew, PutOver, after, live_at};
ghost use Rattle.gd_item.specs.Nodes.{is_folder, path_of};
ghost use Rattle.gd_item.specs.Refusals.{is_there, settled_in, settled_path, is_too_long, is_made, is_met as is_condition_met, live_named, put_over_refusal, put_under_refusal, file_effect};
ghost use Rattle.gd_item.specs.Refused.{but_quota};
ghost use Rattle.gd_item.specs.Sound.{IsItemMap};
ghost use Rattle.gd_item.specs.Trees.{nodes_of};
ghost use Rattle.gd_store.specs.Stands.{put_result, record_after};

use super::{Items, is_bad_name, is_refused, made_by};
use crate::edit::{keep_version, overwrite_and_get, push_and_get};
use crate::look::{is_a_folder, is_known};
use gd_item::{Condition, Item, ItemId, LiveItem, StoreFault};
use gd_names::{Bytes, Conflict, NoMemory, Settle, Text};

impl Items {
    ghost use Rattle.gd_store.specs.Stands.{Answers};

    /// Whether the item of a folder that has the name meets a condition.
    fn meets_under(&self, parent: u64, name: &Text, condition: &Condition) -> Result<bool, NoMemory>
        ensures { IfOk result (λ met. met ≡ is_condition_met condition.now (live_named parent name.now self.now.items)) }
    {
        let item = self.index.named(parent, name);
        self.meets(condition, item)
    }

    /// Why a file is not put over the item of a number.
    fn over_refusal(
        &self,
        number: u64,
        bytes: &[u8],
        condition: &Condition,
        others: u64,
        is_met: bool,
        is_long: bool,
    ) -> Option<StoreFault>
        requires met { is_met ≡ is_condition_met condition.now (live_at number self.now.items) }
        requires long { is_long ≡ is_too_long (path_of (nodes_of self.now) number) }
        ensures { result ≡ put_over_refusal self.now number bytes.now condition.now others }
    {
        if !is_known(&self.index, number) {
            Some(StoreFault::NotFound)
        } else if is_a_folder(&self.index, number) {
            Some(StoreFault::NotFile)
        } else if !is_met {
            Some(StoreFault::Modified)
        } else if is_long {
            Some(StoreFault::PathTooLong)
        } else if self.is_full(0, bytes.len() as u64, others) {
            Some(StoreFault::Quota)
        } else {
            None
        }
    }

    /// Why a file is not put under a folder.
    fn under_refusal(
        &self,
        parent: u64,
        name: &Text,
        bytes: &[u8],
        behaviour: Conflict,
        condition: &Condition,
        others: u64,
        settle: &Settle,
        is_met: bool,
        is_long: bool,
    ) -> Option<StoreFault>
        requires settle { settle.now ≡ settled_in self.now parent name.now behaviour false }
        requires met { is_met ≡ is_condition_met condition.now (live_named parent name.now self.now.items) }
        requires long { is_long ≡ is_too_long (settled_path self.now parent settle.now) }
        ensures { result ≡ put_under_refusal self.now parent name.now bytes.now behaviour condition.now others }
    {
        if !is_known(&self.index, parent) {
            Some(StoreFault::NotFound)
        } else if !is_a_folder(&self.index, parent) {
            Some(StoreFault::NotFolder)
        } else if is_bad_name(name) {
            Some(StoreFault::BadName)
        } else if !is_met {
            Some(StoreFault::Modified)
        } else if is_refused(settle) {
            Some(StoreFault::NameTaken)
        } else if is_long {
            Some(StoreFault::PathTooLong)
        } else if self.is_full(made_by(settle), bytes.len() as u64, others) {
            Some(StoreFault::Quota)
        } else {
            None
        }
    }

    /// Tells whether a file may be put over the item of a number.
    fn allow_over(
        &self,
        number: u64,
        bytes: &[u8],
        condition: &Condition,
        others: u64,
    ) -> Result<(), StoreFault>
        ensures ok { OnOk result (put_over_refusal self.now number bytes.now condition.now others ≡ None) }
        ensures err { IfErr result (λ fault. (fault ≡ StoreFault.Memory) ⊎ (put_over_refusal self.now number bytes.now condition.now others ≡ Some fault)) }
    {
        let is_met = self.meets_at(number, condition)?;
        let is_long = self.is_long_at(number)?;
        match self.over_refusal(number, bytes, condition, others, is_met, is_long) {
            Some(fault) => Err(fault),
            None => Ok(()),
        }
    }

    /// How a file is settled that is put under a folder, or why it is not put.
    fn settle_under(
        &self,
        parent: u64,
        name: &Text,
        bytes: &[u8],
        behaviour: Conflict,
        condition: &Condition,
        others: u64,
    ) -> Result<Settle, StoreFault>
        ensures { Answers (put_under_refusal self.now parent name.now bytes.now behaviour condition.now others) result
            (λ settle. settle ≡ settled_in self.now parent name.now behaviour false) }
    {
        let settle = self.settle(parent, name, behaviour, false)?;
        let is_met = self.meets_under(parent, name, condition)?;
        let is_long = self.would_be_long(parent, &settle)?;
        match self.under_refusal(
            parent, name, bytes, behaviour, condition, others, &settle, is_met, is_long,
        ) {
            Some(fault) => Err(fault),
            None => Ok(settle),
        }
    }

    /// Tells whether a file might be put over the item of a number, whatever its bytes and the drive's limits are.
    pub fn may_put_over(&self, number: u64, condition: &Condition) -> Result<(), StoreFault>
        ensures { Answers (but_quota (put_over_refusal self.now number [] condition.now 0)) result (λ _. Unit {0}) }
    {
        match self.allow_over(number, &[], condition, 0) {
            Err(StoreFault::Quota) => Ok(()),
            tried => tried,
        }
    }

    /// Tells whether a file might be put under a folder, whatever its bytes and the drive's limits are.
    pub fn may_put_under(
        &self,
        parent: u64,
        name: &Text,
        behaviour: Conflict,
        condition: &Condition,
    ) -> Result<(), StoreFault>
        ensures { Answers (but_quota (put_under_refusal self.now parent name.now [] behaviour condition.now 0)) result (λ _. Unit {0}) }
    {
        match self.settle_under(parent, name, &[], behaviour, condition, 0) {
            Ok(_) => Ok(()),
            Err(StoreFault::Quota) => Ok(()),
            Err(fault) => Err(fault),
        }
    }

    /// Adds a file.
    fn add_file(&mut self, parent: u64, name: Text, bytes: Bytes) -> Result<ItemId, NoMemory>
        requires room { length self.old.items + 1 < 100000 }
        requires number { self.old.number + 1 < 2 ^ 64 }
        requires kept { self.old.kept + length bytes < 2 ^ 64 }
        requires map { IsItemMap (after self.old (PutNew parent name bytes)) }
        ensures ok { IfOk result (λ id. (id ≡ item_id self.old.next) × (self.new ≡ after self.old (PutNew parent name bytes))) }
        ensures err { OnErr result (self.new ≡ self.old) }
    {
        let length = bytes.as_slice().len() as u64;
        let item = LiveItem {
            number: self.last + 1,
            parent,
            name,
            bytes: Some(bytes),
            change: self.number + 1,
            content: self.number + 1,
        };
        self.index.push(item)?;
        self.number += 1;
        self.last += 1;
        self.kept += length;
        Ok(ItemId(self.last))
    }

    /// Gives a file new bytes.
    fn put_bytes(&mut self, number: u64, bytes: Bytes) -> Result<(), NoMemory>
        requires number { self.old.number + 1 < 2 ^ 64 }
        requires kept { self.old.kept + length bytes < 2 ^ 64 }
        requires map { IsItemMap (after self.old (PutOver number bytes)) }
        ensures ok { OnOk result (self.new ≡ after self.old (PutOver number bytes)) }
        ensures err { OnErr result (self.new ≡ self.old) }
    {
        let length = bytes.as_slice().len() as u64;
        self.replaced.reserve(1)?;
        let version = self.index.overwrite(number, self.number + 1, bytes)?;
        keep_version(&mut self.replaced, version);
        self.number += 1;
        self.kept += length;
        Ok(())
    }

    /// Puts a file over the item of a number, or says why not.
    pub fn put_over(
        &mut self,
        number: u64,
        bytes: &[u8],
        condition: &Condition,
        others: u64,
    ) -> Result<(ItemId, bool), StoreFault>
        ensures answer { Answers (put_over_refusal self.old number bytes.now condition.now others) result
            (λ put. (put ≡ (item_id number, false)) × (self.new ≡ after self.old (PutOver number bytes.now))) }
        ensures kept { OnErr result (self.new ≡ self.old) }
    {
        // What always holds of a store is used below.
        let _ = &self.index;
        self.allow_over(number, bytes, condition, others)?;
        let copy = Bytes::from_slice(self.alloc, bytes)?;
        self.put_bytes(number, copy)?;
        Ok((ItemId(number), false))
    }

    /// Puts a file under a folder, or says why not.
    pub fn put_under(
        &mut self,
        parent: u64,
        name: &Text,
        bytes: &[u8],
        behaviour: Conflict,
        condition: &Condition,
        others: u64,
    ) -> Result<(ItemId, bool), StoreFault>
        ensures answer { Answers (put_under_refusal self.old parent name.now bytes.now behaviour condition.now others) result
            (λ put. (put ≡ put_result self.old (file_effect parent name.now bytes.now (settled_in self.old parent name.now behaviour false)))
            × (self.new ≡ after self.old (file_effect parent name.now bytes.now (settled_in self.old parent name.now behaviour false)))) }
        ensures kept { OnErr result (self.new ≡ self.old) }
    {
        // What always holds of a store is used below.
        let _ = &self.index;
        let settle = self.settle_under(parent, name, bytes, behaviour, condition, others)?;
        let copy = Bytes::from_slice(self.alloc, bytes)?;
        match settle {
            Settle::Free(free) => {
                let id = self.add_file(parent, free, copy)?;
                Ok((id, true))
            }
            Settle::Over(number) => {
                self.put_bytes(number, copy)?;
                Ok((ItemId(number), false))
            }
            // Told above.
            Settle::Refuse => unreachable!(),
        }
    }

    /// Adds a file, and gives its record with the path of its folder.
    fn add_file_and_get(&mut self, parent: u64, name: Text, bytes: Bytes) -> Result<Item, NoMemory>
        requires room { length self.old.items + 1 < 100000 }
        requires number { self.old.number + 1 < 2 ^ 64 }
        requires kept { self.old.kept + length bytes < 2 ^ 64 }
        requires map { IsItemMap (after self.old (PutNew parent name bytes)) }
        ensures ok { IfOk result (λ made. (record_after self.old (PutNew parent name bytes) ≡ Some made) × (self.new ≡ after self.old (PutNew parent name bytes))) }
        ensures err { OnErr result (self.new ≡ self.old) }
    {
        let length = bytes.as_slice().len() as u64;
        let item = LiveItem {
            number: self.last + 1,
            parent,
            name,
            bytes: Some(bytes),
            change: self.number + 1,
            content: self.number + 1,
        };
        let made = push_and_get(self.alloc, &mut self.index, item)?;
        self.number += 1;
        self.last += 1;
        self.kept += length;
        Ok(made)
    }

    /// Gives a file new bytes, and gives its record with the path of its folder.
    fn put_bytes_and_get(&mut self, number: u64, bytes: Bytes) -> Result<Item, NoMemory>
        requires there { is_there number (nodes_of self.old) ≡ true }
        requires file { is_folder number (nodes_of self.old) ≡ false }
        requires number { self.old.number + 1 < 2 ^ 64 }
        requires kept { self.old.kept + length bytes < 2 ^ 64 }
        requires map { IsItemMap (after self.old (PutOver number bytes)) }
        ensures ok { IfOk result (λ made. (record_after self.old (PutOver number bytes) ≡ Some made) × (self.new ≡ after self.old (PutOver number bytes))) }
        ensures err { OnErr result (self.new ≡ self.old) }
    {
        let length = bytes.as_slice().len() as u64;
        let change = self.number + 1;
        self.replaced.reserve(1)?;
        let put = overwrite_and_get(self.alloc, &mut self.index, number, change, bytes)?;
        let (made, version) = put;
        keep_version(&mut self.replaced, version);
        self.number = change;
        self.kept += length;
        Ok(made)
    }

    /// Puts a file over the item of a number and gives its record, or says why not.
    pub fn put_over_and_get(
        &mut self,
        number: u64,
        bytes: &[u8],
        condition: &Condition,
        others: u64,
    ) -> Result<(Item, bool), StoreFault>
        ensures answer { Answers (put_over_refusal self.old number bytes.now condition.now others) result
            (λ put. ((record_after self.old (PutOver number bytes.now) ≡ Some put.0) × (put.1 ≡ false)) × (self.new ≡ after self.old (PutOver number bytes.now))) }
        ensures kept { OnErr result (self.new ≡ self.old) }
    {
        // What always holds of a store is used below.
        let _ = &self.index;
        self.allow_over(number, bytes, condition, others)?;
        let copy = Bytes::from_slice(self.alloc, bytes)?;
        let made = self.put_bytes_and_get(number, copy)?;
        Ok((made, false))
    }

    /// Puts a file under a folder and gives its record, or says why not.
    pub fn put_under_and_get(
        &mut self,
        parent: u64,
        name: &Text,
        bytes: &[u8],
        behaviour: Conflict,
        condition: &Condition,
        others: u64,
    ) -> Result<(Item, bool), StoreFault>
        ensures answer { Answers (put_under_refusal self.old parent name.now bytes.now behaviour condition.now others) result
            (λ put. ((record_after self.old (file_effect parent name.now bytes.now (settled_in self.old parent name.now behaviour false)) ≡ Some put.0)
            × (put.1 ≡ is_made (file_effect parent name.now bytes.now (settled_in self.old parent name.now behaviour false))))
            × (self.new ≡ after self.old (file_effect parent name.now bytes.now (settled_in self.old parent name.now behaviour false)))) }
        ensures kept { OnErr result (self.new ≡ self.old) }
    {
        // What always holds of a store is used below.
        let _ = &self.index;
        let settle = self.settle_under(parent, name, bytes, behaviour, condition, others)?;
        let copy = Bytes::from_slice(self.alloc, bytes)?;
        match settle {
            Settle::Free(free) => {
                let made = self.add_file_and_get(parent, free, copy)?;
                Ok((made, true))
            }
            Settle::Over(number) => {
                let made = self.put_bytes_and_get(number, copy)?;
                Ok((made, false))
            }
            // Told above.
            Settle::Refuse => unreachable!(),
        }
    }
}
