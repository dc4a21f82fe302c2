ghost use Rattle.std.specs.Prelude.{◌≡◌, ◌≢◌, ◌<◌, List, [], ◌∷◌, ◌++◌, None, not, false, map, filter, nat_eq, OnOk, IfOk, OnErr};
ghost use Rattle.std.specs.List.{All};
ghost use Rattle.std.specs.Option.{option_map, option_to_list};
ghost use Rattle.gd_item.specs.Inventory.{live_at, changed, with_place, with_bytes, version_of};
ghost use Rattle.gd_item.specs.Moves.{is_taken_by_other};
ghost use Rattle.gd_item.specs.Nodes.{live_node, child_at};
ghost use Rattle.gd_item.specs.declared.live.LiveItem.{LiveItem};

use super::Index;
use crate::counts::{count_less, count_more};
use crate::row::Row;
use crate::rows::{fill_row, insert_row, move_row, remove_row};
use crate::spot::make_spot;
use gd_item::{LiveItem, Version};
use gd_names::{Bytes, NoMemory, Text};

impl Index {
    /// Puts an item behind the others.
    pub fn push(&mut self, item: LiveItem) -> Result<(), NoMemory>
        requires above { All (λ (x : LiveItem). x.number < item.number) self.old }
        requires fresh { All (λ (x : LiveItem). x.change ≢ item.change) self.old }
        requires free { child_at item.parent item.name (map live_node self.old) ≡ None }
        ensures ok { OnOk result (self.new ≡ self.old ++ item ∷ []) }
        ensures kept { OnErr result (self.new ≡ self.old) }
    {
        let key = make_spot(self.alloc, item.parent, &item.name)?;
        let spot = make_spot(self.alloc, item.parent, &item.name)?;
        let parent = item.parent;
        // No folder has more children than there are items.
        let _count = self.rows.len();
        count_more(&mut self.counts, parent)?;
        match insert_row(
            &mut self.rows,
            &mut self.names,
            &mut self.changes,
            item,
            key,
            spot,
        ) {
            Ok(()) => Ok(()),
            Err(NoMemory) => {
                count_less(&mut self.counts, parent);
                Err(NoMemory)
            }
        }
    }

    /// The folder of the item of a number.
    fn folder_of(&self, number: u64) -> Option<u64>
        ensures { result ≡ option_map (λ (item : LiveItem). item.parent) (live_at number self.now) }
    {
        match self.get(number) {
            None => None,
            Some(item) => Some(item.parent),
        }
    }

    /// Gives the item of a number another folder and another name.
    pub fn place(
        &mut self,
        number: u64,
        change: u64,
        parent: u64,
        name: Text,
    ) -> Result<(), NoMemory>
        requires fresh { All (λ (x : LiveItem). x.change ≢ change) self.old }
        requires free { is_taken_by_other number parent name self.old ≡ false }
        ensures ok { OnOk result (self.new ≡ changed number (with_place change parent name) self.old) }
        ensures kept { OnErr result (self.new ≡ self.old) }
    {
        let Some(from) = self.folder_of(number) else {
            return Ok(());
        };
        let key = make_spot(self.alloc, parent, &name)?;
        let spot = make_spot(self.alloc, parent, &name)?;
        let _count = self.rows.len();
        count_more(&mut self.counts, parent)?;
        match move_row(
            &mut self.rows,
            &mut self.names,
            &mut self.changes,
            number,
            change,
            name,
            key,
            spot,
        ) {
            Ok(()) => {
                count_less(&mut self.counts, from);
                Ok(())
            }
            Err(NoMemory) => {
                count_less(&mut self.counts, parent);
                Err(NoMemory)
            }
        }
    }

    /// Gives new bytes to the item of a number, and takes out the version that stood in it.
    pub fn overwrite(
        &mut self,
        number: u64,
        change: u64,
        bytes: Bytes,
    ) -> Result<Option<Version>, NoMemory>
        requires fresh { All (λ (x : LiveItem). x.change ≢ change) self.old }
        ensures ok { OnOk result (self.new ≡ changed number (with_bytes change bytes) self.old) }
        ensures version { IfOk result (λ version. option_to_list version ≡ version_of (live_at number self.old)) }
        ensures kept { OnErr result (self.new ≡ self.old) }
    {
        let version = fill_row(&mut self.rows, &mut self.changes, number, change, bytes)?;
        Ok(version)
    }

    /// Takes out the item of a number.
    pub fn remove(&mut self, number: u64) -> Option<LiveItem>
        ensures item { result ≡ live_at number self.old }
        ensures others { self.new ≡ filter (λ item. not (nat_eq item.number number)) self.old }
    {
        match remove_row(&mut self.rows, &mut self.names, &mut self.changes, number) {
            None => None,
            Some(item) => {
                count_less(&mut self.counts, item.parent);
                Some(item)
            }
        }
    }
}
