ghost use Rattle.std.specs.Prelude.{◌≡◌, ℕ, List, ◌+◌, ◌-◌, ◌^◌, ◌<◌, ◌≤◌, ◌++◌, [], ◌∷◌, length, max, min, Some, None, IfOk, OnErr};
ghost use Rattle.std.specs.Option.{option_copied, option_map};
ghost use Rattle.gd_item.specs.Children.{first_children, has_more_children};
ghost use Rattle.gd_item.specs.Ids.{item_id};
ghost use Rattle.gd_item.specs.Inventory.{Effect, inventory};
ghost use Rattle.gd_item.specs.Moves.{patch_refusal, patch_effect, remove_refusal, remove_effects};
ghost use Rattle.gd_item.specs.Nodes.{number_at, child_at};
ghost use Rattle.gd_item.specs.Records.{record_at, feed, first_of, last_of};
ghost use Rattle.gd_item.specs.Refusals.{is_made, missing, folder_refusal as not_folder, file_refusal as not_file, make_folder_refusal, make_folder_effect, put_refusal, put_effect};
ghost use Rattle.gd_item.specs.Refused.{id_number, but_quota};
ghost use Rattle.gd_item.specs.Steps.{state_of, held_by, accepted_by};
ghost use Rattle.gd_item.specs.Trees.{nodes_of};
ghost use Rattle.gd_item.specs.Versions.{version_at, content_at, versions_of};
ghost use Rattle.gd_store.specs.Stands.{pruned, given_unless, put_result, record_after};

use crate::items::Items;
use gd_item::{Condition, Item, ItemId, Place, Step, StoreFault, VersionInfo};
use gd_names::{Bytes, Conflict, List, NoMemory, Path, Text};
use std::alloc::Global;
use std::marker::Model;

/// A drive's items, the epoch of its tokens, and the floor up to which its removals are forgotten.
#[derive(Debug, Drop)]
pub struct Store {
    items: Items,
    epoch: u64,
    floor: u64,
}

impl Model for Store {
    ghost use Rattle.gd_store.specs.Stands.{StoreValue};

    ghost Value = { StoreValue };

    ghost view = { λ s. record { held = s.items; epoch = s.epoch; floor = s.floor } };
}

impl Store {
    ghost use Rattle.gd_store.specs.Stands.{Stands, Answers};

    /// A drive with its root alone, in its first epoch.
    pub fn new(alloc: Global) -> Result<Store, NoMemory>
        ensures { IfOk result (λ store. Stands store [] 1 0) }
    {
        Ok(Store {
            items: Items::new(alloc),
            epoch: 1,
            floor: 0,
        })
    }

    /// The drive's change number: 1, and one more for each effect. Takes no memory.
    pub fn number(&self) -> u64
        ensures { (log : List Effect) (epoch floor : ℕ) → Stands self.now log epoch floor → result ≡ length log + 1 }
    {
        self.items.number()
    }

    /// The epoch of the drive's tokens: 1, and one more each time that the drive was restored. Takes no memory.
    pub fn epoch(&self) -> u64
        ensures { (log : List Effect) (epoch floor : ℕ) → Stands self.now log epoch floor → result ≡ epoch }
    {
        self.epoch
    }

    /// The change number up to which the drive forgot what it removed. Takes no memory.
    pub fn floor(&self) -> u64
        ensures { (log : List Effect) (epoch floor : ℕ) → Stands self.now log epoch floor → result ≡ floor }
    {
        self.floor
    }

    /// Forgets what was removed up to a change number, or up to the drive's own if that is less. Takes no memory.
    pub fn expire(&mut self, number: u64)
        ensures { (log : List Effect) (epoch floor : ℕ) → Stands self.old log epoch floor → Stands self.new log epoch (max floor (min number (inventory log).number)) }
    {
        let floor = self.floor.max(number.min(self.items.number()));
        self.items.forget(floor);
        self.floor = floor;
    }

    /// Begins the next epoch, so that no token of an earlier one is served. Takes no memory.
    pub fn restore(&mut self)
        ensures { (log : List Effect) (epoch floor : ℕ) → Stands self.old log epoch floor → Stands self.new log (min (epoch + 1) (2 ^ 64 - 1)) floor }
    {
        self.epoch = self.epoch.saturating_add(1);
    }

    /// How many bytes all puts brought, those of replaced and of removed files among them. Takes no memory.
    pub fn kept_bytes(&self) -> u64
        ensures { (log : List Effect) (epoch floor : ℕ) → Stands self.now log epoch floor → result ≡ (inventory log).kept }
    {
        self.items.kept_bytes()
    }

    /// How many items live, the root among them. Takes no memory.
    pub fn live_items(&self) -> u64
        ensures { (log : List Effect) (epoch floor : ℕ) → Stands self.now log epoch floor → result ≡ length (inventory log).items + 1 }
    {
        self.items.count()
    }

    /// The item of a folder that has the name, but for case. Takes no memory.
    pub fn child(&self, parent: ItemId, name: &Text) -> Option<ItemId>
        ensures { (log : List Effect) (epoch floor : ℕ) → Stands self.now log epoch floor → result ≡ option_map item_id (child_at parent.0 name.now (nodes_of (inventory log))) }
    {
        match self.items.find_child(parent.0, name) {
            Some(number) => Some(ItemId(number)),
            None => None,
        }
    }

    /// The content number of a file. Takes no memory.
    pub fn content_number(&self, id: ItemId) -> Result<u64, StoreFault>
        ensures { (log : List Effect) (epoch floor : ℕ) → Stands self.now log epoch floor → result ≡ given_unless (not_file (inventory log) id.0) (content_at id.0 (inventory log)) }
    {
        self.items.content_of(id.0)
    }

    /// The bytes of a version of a living file.
    pub fn version(&self, id: ItemId, version: u64) -> Result<Bytes, StoreFault>
        ensures { (log : List Effect) (epoch floor : ℕ) → Stands self.now log epoch floor
            → Answers (missing (version_at id.0 version (inventory log))) result (λ bytes. version_at id.0 version (inventory log) ≡ Some bytes) }
    {
        match self.items.find_version(id.0, version)? {
            Some(bytes) => Ok(bytes),
            None => Err(StoreFault::NotFound),
        }
    }

    /// The versions of a living file that the drive accepted, the newest first.
    pub fn versions(&self, id: ItemId) -> Result<List<VersionInfo>, StoreFault>
        ensures { (log : List Step) (epoch floor : ℕ) → Stands self.now (state_of log).effects epoch floor
            → Answers (not_file (held_by log) id.0) result (λ found. found ≡ versions_of id.0 (accepted_by log)) }
    {
        self.items.list_versions(id.0)
    }

    /// The children of a folder in order of their names in lower case, those past a name, and at most so many. Says
    /// also whether more follow.
    pub fn children(
        &self,
        id: ItemId,
        after: Option<&Text>,
        most: u64,
    ) -> Result<(List<Item>, bool), StoreFault>
        ensures { (log : List Effect) (epoch floor : ℕ) → Stands self.now log epoch floor
            → Answers (not_folder (inventory log) id.0) result (λ found. (found.0 ≡ first_children id.0 (option_copied after.entry) most (inventory log))
            × (found.1 ≡ has_more_children id.0 (option_copied after.entry) most (inventory log))) }
    {
        self.items.list_children(id.0, after, most)
    }

    /// The item at a path. Takes no memory.
    pub fn by_path(&self, path: &Path) -> Option<ItemId>
        ensures { (log : List Effect) (epoch floor : ℕ) → Stands self.now log epoch floor → result ≡ option_map item_id (number_at path.now (nodes_of (inventory log))) }
    {
        match self.items.find(path) {
            Some(number) => Some(ItemId(number)),
            None => None,
        }
    }

    /// The record of an item, with the path of its folder if it is asked for.
    pub fn get(&self, id: ItemId, with_path: bool) -> Result<Item, StoreFault>
        ensures { (log : List Effect) (epoch floor : ℕ) → Stands self.now log epoch floor
            → Answers (missing (record_at id.0 with_path (inventory log))) result (λ item. record_at id.0 with_path (inventory log) ≡ Some item) }
    {
        match self.items.find_record(id.0, with_path)? {
            Some(item) => Ok(item),
            None => Err(StoreFault::NotFound),
        }
    }

    /// The feed past a position, at most so many records of it, and the change number of the last one where more
    /// follow. What was removed up to the floor is left out; where one of the two numbers has reached the floor that is
    /// nothing. Of the greatest number of records none follow, since no list has more.
    pub fn changed_after(
        &self,
        position: u64,
        removed_after: u64,
        most: u64,
    ) -> Result<(List<Item>, Option<u64>), NoMemory>
        requires { 0 < most }
        ensures found { IfOk result (λ found. (log : List Effect) (epoch floor : ℕ) → Stands self.now log epoch floor
            → (found.0 ≡ first_of most (feed (pruned floor (inventory log)) position removed_after)) × (found.1 ≡ last_of most (feed (pruned floor (inventory log)) position removed_after))) }
        ensures complete { IfOk result (λ found. (log : List Effect) (epoch floor : ℕ) → Stands self.now log epoch floor → floor ≤ max position removed_after
            → (found.0 ≡ first_of most (feed (inventory log) position removed_after)) × (found.1 ≡ last_of most (feed (inventory log) position removed_after))) }
        ensures whole { IfOk result (λ found. most ≡ 2 ^ 64 - 1 → found.1 ≡ None) }
    {
        let found = self.items.changed_after(position, removed_after, most)?;
        Ok(found)
    }

    /// Tells whether a file might be put, whatever its bytes and the drive's limits are.
    pub fn may_put(
        &self,
        place: &Place,
        behaviour: Conflict,
        condition: &Condition,
    ) -> Result<(), StoreFault>
        ensures { (log : List Effect) (epoch floor : ℕ) → Stands self.now log epoch floor
            → Answers (but_quota (put_refusal (inventory log) place.now [] behaviour condition.now 0)) result (λ _. Unit {0}) }
    {
        match place {
            Place::Over(id) => self.items.may_put_over(id.0, condition),
            Place::Under(id, name) => self.items.may_put_under(id.0, name, behaviour, condition),
        }
    }

    /// Makes a folder.
    pub fn make_folder(
        &mut self,
        parent: ItemId,
        name: &Text,
        behaviour: Conflict,
    ) -> Result<ItemId, StoreFault>
        ensures answer { (log : List Effect) (epoch floor : ℕ) → Stands self.old log epoch floor
            → Answers (make_folder_refusal (inventory log) parent.0 name.now behaviour) result
            (λ id. (id ≡ item_id (inventory log).next) × Stands self.new (log ++ make_folder_effect (inventory log) parent.0 name.now behaviour ∷ []) epoch floor) }
        ensures kept { OnErr result (self.new ≡ self.old) }
    {
        self.items.make(parent.0, name, behaviour)
    }

    /// Puts a file, and says which item it is and whether it was made. A file that is replaced keeps the spelling of
    /// its name. Other bytes that count against the limit are those of upload sessions.
    pub fn put(
        &mut self,
        place: &Place,
        bytes: &[u8],
        behaviour: Conflict,
        condition: &Condition,
        session_bytes: u64,
    ) -> Result<(ItemId, bool), StoreFault>
        ensures answer { (log : List Effect) (epoch floor : ℕ) → Stands self.old log epoch floor
            → Answers (put_refusal (inventory log) place.now bytes.now behaviour condition.now session_bytes) result
            (λ put. (put ≡ put_result (inventory log) (put_effect (inventory log) place.now bytes.now behaviour))
            × Stands self.new (log ++ put_effect (inventory log) place.now bytes.now behaviour ∷ []) epoch floor) }
        ensures kept { OnErr result (self.new ≡ self.old) }
    {
        match place {
            Place::Over(id) => self.items.put_over(id.0, bytes, condition, session_bytes),
            Place::Under(id, name) => self
                .items
                .put_under(id.0, name, bytes, behaviour, condition, session_bytes),
        }
    }

    /// Moves an item to another folder, another name or both.
    pub fn patch(
        &mut self,
        id: ItemId,
        name: Option<&Text>,
        parent: Option<ItemId>,
        condition: &Condition,
    ) -> Result<(), StoreFault>
        ensures answer { (log : List Effect) (epoch floor : ℕ) → Stands self.old log epoch floor
            → Answers (patch_refusal (inventory log) id.0 (option_copied name.entry) (id_number parent) condition.now) result
            (λ _. Stands self.new (log ++ patch_effect (inventory log) id.0 (option_copied name.entry) (id_number parent) ∷ []) epoch floor) }
        ensures kept { OnErr result (self.new ≡ self.old) }
    {
        self.items.relocate(id.0, name, parent, condition)
    }

    /// Removes an item and all below it, the deepest first.
    pub fn remove(&mut self, id: ItemId, condition: &Condition) -> Result<(), StoreFault>
        ensures answer { (log : List Effect) (epoch floor : ℕ) → Stands self.old log epoch floor
            → Answers (remove_refusal (inventory log) id.0 condition.now) result (λ _. Stands self.new (log ++ remove_effects (inventory log) id.0) epoch floor) }
        ensures kept { OnErr result (self.new ≡ self.old) }
    {
        self.items.take_out(id.0, condition)
    }

    /// Makes a folder, and gives its record with the path of the folder above.
    pub fn make_folder_and_get(
        &mut self,
        parent: ItemId,
        name: &Text,
        behaviour: Conflict,
    ) -> Result<Item, StoreFault>
        ensures answer { (log : List Effect) (epoch floor : ℕ) → Stands self.old log epoch floor
            → Answers (make_folder_refusal (inventory log) parent.0 name.now behaviour) result
            (λ item. (record_after (inventory log) (make_folder_effect (inventory log) parent.0 name.now behaviour) ≡ Some item)
            × Stands self.new (log ++ make_folder_effect (inventory log) parent.0 name.now behaviour ∷ []) epoch floor) }
        ensures kept { OnErr result (self.new ≡ self.old) }
    {
        self.items.make_and_get(parent.0, name, behaviour)
    }

    /// Puts a file, and gives its record with the path of its folder, and whether it was made.
    pub fn put_and_get(
        &mut self,
        place: &Place,
        bytes: &[u8],
        behaviour: Conflict,
        condition: &Condition,
        session_bytes: u64,
    ) -> Result<(Item, bool), StoreFault>
        ensures answer { (log : List Effect) (epoch floor : ℕ) → Stands self.old log epoch floor
            → Answers (put_refusal (inventory log) place.now bytes.now behaviour condition.now session_bytes) result
            (λ put. (record_after (inventory log) (put_effect (inventory log) place.now bytes.now behaviour) ≡ Some put.0)
            × (put.1 ≡ is_made (put_effect (inventory log) place.now bytes.now behaviour))
            × Stands self.new (log ++ put_effect (inventory log) place.now bytes.now behaviour ∷ []) epoch floor) }
        ensures kept { OnErr result (self.new ≡ self.old) }
    {
        match place {
            Place::Over(id) => self
                .items
                .put_over_and_get(id.0, bytes, condition, session_bytes),
            Place::Under(id, name) => self
                .items
                .put_under_and_get(id.0, name, bytes, behaviour, condition, session_bytes),
        }
    }

    /// Moves an item, and gives its record with the path of its new folder.
    pub fn patch_and_get(
        &mut self,
        id: ItemId,
        name: Option<&Text>,
        parent: Option<ItemId>,
        condition: &Condition,
    ) -> Result<Item, StoreFault>
        ensures answer { (log : List Effect) (epoch floor : ℕ) → Stands self.old log epoch floor
            → Answers (patch_refusal (inventory log) id.0 (option_copied name.entry) (id_number parent) condition.now) result
            (λ item. (record_after (inventory log) (patch_effect (inventory log) id.0 (option_copied name.entry) (id_number parent)) ≡ Some item)
            × Stands self.new (log ++ patch_effect (inventory log) id.0 (option_copied name.entry) (id_number parent) ∷ []) epoch floor) }
        ensures kept { OnErr result (self.new ≡ self.old) }
    {
        self.items.relocate_and_get(id.0, name, parent, condition)
    }
}
