ghost use Rattle.std.specs.Prelude.{◌≡◌, ◌+◌, ◌<◌, ◌^◌, nat_eq, true, false, Some, IfOk, OnOk, OnErr};
ghost use Rattle.std.specs.Option.{option_copied};
ghost use Rattle.gd_item.specs.Inventory.{Moved, after, live_at};
ghost use Rattle.gd_item.specs.Moves.{is_in as is_node_in, name_of, new_parent as parent_for, new_name as name_for, is_bad_name as is_name_bad, is_taken_by_other as is_name_taken, is_any_too_long, patch_refusal, patch_effect};
ghost use Rattle.gd_item.specs.Refused.{id_number};
ghost use Rattle.gd_item.specs.Refusals.{is_there, is_met as is_condition_met};
ghost use Rattle.gd_item.specs.Sound.{IsItemMap};
ghost use Rattle.gd_item.specs.Trees.{nodes_of};
ghost use Rattle.gd_store.specs.Stands.{record_after};

use super::{Items, is_bad_name};
use crate::edit::place_and_get;
use crate::look::{is_a_folder, is_known, is_taken_by_other};
use crate::moving::{is_in, would_any_be_long};
use gd_item::{Condition, Item, ItemId, StoreFault};
use gd_names::{NoMemory, Text};

/// Whether a name is given that no item may have.
fn is_bad_new_name(name: Option<&Text>) -> bool
    ensures { result ≡ is_name_bad (option_copied name.entry) }
{
    match name {
        None => false,
        Some(name) => is_bad_name(name),
    }
}

impl Items {
    ghost use Rattle.gd_store.specs.Stands.{Answers};

    /// The folder that an item gets which is moved so.
    fn new_parent(&self, number: u64, parent: Option<ItemId>) -> u64
        ensures { result ≡ parent_for self.now number (id_number parent) }
    {
        match parent {
            Some(id) => id.0,
            None => match self.index.get(number) {
                Some(item) => item.parent,
                None => 0,
            },
        }
    }

    /// The name of the item of a number, and the empty one where there is none.
    fn old_name(&self, number: u64) -> Result<Text, NoMemory>
        ensures { IfOk result (λ name. name ≡ name_of (live_at number self.now.items)) }
    {
        match self.index.get(number) {
            Some(item) => Ok(item.name.clone()?),
            None => Text::from_str(self.alloc, ""),
        }
    }

    /// The name that an item gets which is moved so.
    fn new_name(&self, number: u64, name: Option<&Text>) -> Result<Text, NoMemory>
        ensures { IfOk result (λ named. named ≡ name_for self.now number (option_copied name.entry)) }
    {
        match name {
            Some(name) => Ok(name.clone()?),
            None => self.old_name(number),
        }
    }

    /// Whether a folder is an item or stands below it.
    fn is_inside(&self, number: u64, folder: u64) -> bool
        ensures { result ≡ is_node_in (nodes_of self.now) number folder }
    {
        is_in(&self.index, number, folder)
    }

    /// Whether a path would be too long once an item is moved to a folder that is not inside it.
    fn is_long_once_moved(
        &self,
        number: u64,
        parent: u64,
        name: &Text,
        is_inside: bool,
    ) -> Result<bool, NoMemory>
        ensures { IfOk result (λ long. is_inside ≡ false → long ≡ is_any_too_long (after self.now (Moved number parent name.now)) number) }
    {
        if is_inside {
            return Ok(false);
        }
        let long = would_any_be_long(self.alloc, &self.index, number, parent, name)?;
        Ok(long)
    }

    /// Why an item is not moved.
    fn move_refusal(
        &self,
        number: u64,
        name: Option<&Text>,
        parent: Option<ItemId>,
        condition: &Condition,
        to: u64,
        named: &Text,
        is_met: bool,
        is_inside: bool,
        is_long: bool,
    ) -> Option<StoreFault>
        requires to { to ≡ parent_for self.now number (id_number parent) }
        requires named { named.now ≡ name_for self.now number (option_copied name) }
        requires met { is_met ≡ is_condition_met condition.now (live_at number self.now.items) }
        requires inside { is_inside ≡ is_node_in (nodes_of self.now) number to }
        requires long { is_inside ≡ false → is_long ≡ is_any_too_long (after self.now (Moved number to named.now)) number }
        ensures { result ≡ patch_refusal self.now number (option_copied name.entry) (id_number parent) condition.now }
    {
        if !is_known(&self.index, number) {
            Some(StoreFault::NotFound)
        } else if number == 1 {
            Some(StoreFault::Root)
        } else if is_bad_new_name(name) {
            Some(StoreFault::BadName)
        } else if !is_known(&self.index, to) {
            Some(StoreFault::NotFound)
        } else if !is_a_folder(&self.index, to) {
            Some(StoreFault::NotFolder)
        } else if !is_met {
            Some(StoreFault::Modified)
        } else if is_inside {
            Some(StoreFault::IntoItself)
        } else if is_taken_by_other(&self.index, number, to, named) {
            Some(StoreFault::NameTaken)
        } else if is_long {
            Some(StoreFault::PathTooLong)
        } else if self.is_full(0, 0, 0) {
            Some(StoreFault::Quota)
        } else {
            None
        }
    }

    /// The folder and the name that an item gets which is moved so, or why it is not moved.
    fn allow_move(
        &self,
        number: u64,
        name: Option<&Text>,
        parent: Option<ItemId>,
        condition: &Condition,
    ) -> Result<(u64, Text), StoreFault>
        ensures { Answers (patch_refusal self.now number (option_copied name.entry) (id_number parent) condition.now) result
            (λ place. (place.0 ≡ parent_for self.now number (id_number parent)) × (place.1 ≡ name_for self.now number (option_copied name.entry))) }
    {
        let to = self.new_parent(number, parent);
        let named = self.new_name(number, name)?;
        let is_inside = self.is_inside(number, to);
        let is_long = self.is_long_once_moved(number, to, &named, is_inside)?;
        let is_met = self.meets_at(number, condition)?;
        match self.move_refusal(
            number, name, parent, condition, to, &named, is_met, is_inside, is_long,
        ) {
            Some(fault) => Err(fault),
            None => Ok((to, named)),
        }
    }

    /// Moves the item of a number.
    fn move_to(&mut self, number: u64, parent: u64, name: Text) -> Result<(), NoMemory>
        requires number { self.old.number + 1 < 2 ^ 64 }
        requires free { is_name_taken number parent name self.old.items ≡ false }
        requires map { IsItemMap (after self.old (Moved number parent name)) }
        ensures ok { OnOk result (self.new ≡ after self.old (Moved number parent name)) }
        ensures err { OnErr result (self.new ≡ self.old) }
    {
        self.index.place(number, self.number + 1, parent, name)?;
        self.number += 1;
        Ok(())
    }

    /// Moves an item, or says why not.
    pub fn relocate(
        &mut self,
        number: u64,
        name: Option<&Text>,
        parent: Option<ItemId>,
        condition: &Condition,
    ) -> Result<(), StoreFault>
        ensures answer { Answers (patch_refusal self.old number (option_copied name.entry) (id_number parent) condition.now) result
            (λ _. self.new ≡ after self.old (patch_effect self.old number (option_copied name.entry) (id_number parent))) }
        ensures kept { OnErr result (self.new ≡ self.old) }
    {
        // What always holds of a store is used below.
        let _ = &self.index;
        let target = self.allow_move(number, name, parent, condition)?;
        let (to, named) = target;
        self.move_to(number, to, named)?;
        Ok(())
    }

    /// Moves the item of a number, and gives its record with the path of its new folder.
    fn move_and_get(&mut self, number: u64, parent: u64, name: Text) -> Result<Item, NoMemory>
        requires number { self.old.number + 1 < 2 ^ 64 }
        requires there { is_there number (nodes_of self.old) ≡ true }
        requires not_root { nat_eq number 1 ≡ false }
        requires free { is_name_taken number parent name self.old.items ≡ false }
        requires map { IsItemMap (after self.old (Moved number parent name)) }
        ensures ok { IfOk result (λ made. (record_after self.old (Moved number parent name) ≡ Some made) × (self.new ≡ after self.old (Moved number parent name))) }
        ensures err { OnErr result (self.new ≡ self.old) }
    {
        let change = self.number + 1;
        let made = place_and_get(self.alloc, &mut self.index, number, change, parent, name)?;
        self.number = change;
        Ok(made)
    }

    /// Moves an item and gives its record, or says why not.
    pub fn relocate_and_get(
        &mut self,
        number: u64,
        name: Option<&Text>,
        parent: Option<ItemId>,
        condition: &Condition,
    ) -> Result<Item, StoreFault>
        ensures answer { Answers (patch_refusal self.old number (option_copied name.entry) (id_number parent) condition.now) result
            (λ item. (record_after self.old (patch_effect self.old number (option_copied name.entry) (id_number parent)) ≡ Some item)
            × (self.new ≡ after self.old (patch_effect self.old number (option_copied name.entry) (id_number parent)))) }
        ensures kept { OnErr result (self.new ≡ self.old) }
    {
        // What always holds of a store is used below.
        let _ = &self.index;
        let target = self.allow_move(number, name, parent, condition)?;
        let (to, named) = target;
        let made = self.move_and_get(number, to, named)?;
        Ok(made)
    }
}
