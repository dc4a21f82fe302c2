ghost use Rattle.std.specs.Prelude.{◌≡◌, ◌+◌, ◌<◌, ◌^◌, map, length, IfOk, OnOk, OnErr};
ghost use Rattle.gd_item.specs.Inventory.{Removed, after_all, live_at};
ghost use Rattle.gd_item.specs.Moves.{removal_order as order_for, remove_refusal, remove_effects};
ghost use Rattle.gd_item.specs.Refusals.{is_met as is_condition_met};
ghost use Rattle.gd_item.specs.Sound.{IsItemMap};

use super::Items;
use crate::look::is_known;
use crate::removing::{removal_order, remove_each};
use gd_item::{Condition, StoreFault};
use gd_names::NoMemory;

impl Items {
    ghost use Rattle.gd_store.specs.Stands.{Answers};

    /// The numbers of an item and of all below it, in the order in which they are removed.
    fn order_of_removal(&self, number: u64) -> Result<Vec<u64>, NoMemory>
        ensures { IfOk result (λ order. order.items ≡ order_for self.now number) }
    {
        removal_order(self.alloc, &self.index, number)
    }

    /// Why an item is not removed.
    fn removal_refusal(
        &self,
        number: u64,
        condition: &Condition,
        order: &[u64],
        is_met: bool,
    ) -> Option<StoreFault>
        requires order { order.now ≡ order_for self.now number }
        requires met { is_met ≡ is_condition_met condition.now (live_at number self.now.items) }
        ensures { result ≡ remove_refusal self.now number condition.now }
    {
        if !is_known(&self.index, number) {
            Some(StoreFault::NotFound)
        } else if number == 1 {
            Some(StoreFault::Root)
        } else if !is_met {
            Some(StoreFault::Modified)
        } else if u64::MAX - self.number < order.len() as u64 {
            Some(StoreFault::Quota)
        } else {
            None
        }
    }

    /// Removes the items of these numbers, one after the other.
    fn remove_all(&mut self, order: &[u64]) -> Result<(), NoMemory>
        requires number { self.old.number + length order.now < 2 ^ 64 }
        requires map { IsItemMap (after_all self.old (map Removed order.now)) }
        ensures ok { OnOk result (self.new ≡ after_all self.old (map Removed order.now)) }
        ensures err { OnErr result (self.new ≡ self.old) }
    {
        self.removed.reserve(order.len())?;
        remove_each(&mut self.index, &mut self.removed, order, self.number);
        self.number += order.len() as u64;
        Ok(())
    }

    /// Removes an item and all below it, or says why not.
    pub fn take_out(&mut self, number: u64, condition: &Condition) -> Result<(), StoreFault>
        ensures answer { Answers (remove_refusal self.old number condition.now) result
            (λ _. self.new ≡ after_all self.old (remove_effects self.old number)) }
        ensures kept { OnErr result (self.new ≡ self.old) }
    {
        if number == 1 {
            return Err(StoreFault::Root);
        }
        // What always holds of a store is used below.
        let _ = &self.index;
        let order = self.order_of_removal(number)?;
        let is_met = self.meets_at(number, condition)?;
        match self.removal_refusal(number, condition, order.as_slice(), is_met) {
            Some(fault) => return Err(fault),
            None => {}
        }
        self.remove_all(order.as_slice())?;
        Ok(())
    }
}
