ghost use Rattle.std.specs.Prelude.{◌≡◌, map, take, nat_lt, length, true, Some, IfOk};
ghost use Rattle.std.specs.List.{All};
ghost use Rattle.std.specs.Option.{option_copied};
ghost use Rattle.gd_item.specs.Children.{first_children, has_more_children};
ghost use Rattle.gd_item.specs.Inventory.{live_at};
ghost use Rattle.gd_item.specs.Records.{record_with};
ghost use Rattle.gd_item.specs.Refusals.{folder_refusal as not_folder};

use super::Items;
use crate::look::{is_a_folder, is_known};
use crate::record::record_of;
use gd_item::{Item, LiveItem, StoreFault};
use gd_names::{List, NoMemory, Text};

impl Items {
    ghost use Rattle.gd_store.specs.Stands.{Answers};

    /// The records of these items, with the paths of their folders.
    fn records_of(&self, items: &[&LiveItem]) -> Result<Vec<Item>, NoMemory>
        requires { All (λ item. live_at item.now.number self.now.items ≡ Some item.now) items.now }
        ensures { IfOk result (λ records. records.items ≡ map (λ item. record_with true self.now item.now) items.now) }
    {
        let mut records = Vec::new(self.alloc);
        for item in items {
            let made = record_of(self.alloc, &self.index, *item, true)?;
            records.push(made)?;
        }
        Ok(records)
    }

    /// The records of the first of these items, at most so many.
    fn first_records(&self, items: Vec<&LiveItem>, most: u64) -> Result<List<Item>, NoMemory>
        requires { All (λ item. live_at item.now.number self.now.items ≡ Some item.now) items.items }
        ensures { IfOk result (λ records. records ≡ map (λ item. record_with true self.now item.now) (take most items.entry.items)) }
    {
        let mut first = items;
        first.truncate(most as usize);
        let records = self.records_of(first.as_slice())?;
        Ok(List::from_vec(records))
    }

    /// The first children of a folder that follow a name, and whether there are more.
    fn list_found(
        &self,
        number: u64,
        after: Option<&Text>,
        most: u64,
    ) -> Result<(List<Item>, bool), NoMemory>
        ensures { IfOk result (λ found. (found.0 ≡ first_children number (option_copied after.entry) most self.now)
            × (found.1 ≡ has_more_children number (option_copied after.entry) most self.now)) }
    {
        // One more tells whether more follow.
        let count = (most as usize).saturating_add(1);
        let found = self.index.children(number, after, count)?;
        let more = most < found.as_slice().len() as u64;
        let records = self.first_records(found, most)?;
        Ok((records, more))
    }

    /// The first children of a folder that follow a name, and whether there are more, or why they are not listed.
    pub fn list_children(
        &self,
        number: u64,
        after: Option<&Text>,
        most: u64,
    ) -> Result<(List<Item>, bool), StoreFault>
        ensures { Answers (not_folder self.now number) result (λ found. (found.0 ≡ first_children number (option_copied after.entry) most self.now)
            × (found.1 ≡ has_more_children number (option_copied after.entry) most self.now)) }
    {
        if !is_known(&self.index, number) {
            return Err(StoreFault::NotFound);
        }
        if !is_a_folder(&self.index, number) {
            return Err(StoreFault::NotFolder);
        }
        let found = self.list_found(number, after, most)?;
        Ok(found)
    }
}
