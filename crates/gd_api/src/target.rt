ghost use Rattle.std.specs.Prelude.{◌≡◌, ℕ, List, IfOk};
ghost use Rattle.std.specs.Option.{option_map};
ghost use Rattle.gd_item.specs.Ids.{item_id};
ghost use Rattle.gd_item.specs.Inventory.{Effect, inventory};
ghost use Rattle.gd_item.specs.Targets.{target_of, place_of, place_at};
ghost use Rattle.gd_store.specs.Stands.{Stands};

use gd_item::{Address, ItemId, Place, split_last};
use gd_names::{NoMemory, Path};
use gd_store::Store;
use std::alloc::Global;

/// The id that an address names; an address by id may name no item. Takes no memory.
pub fn find_target(store: &Store, at: &Address) -> Option<ItemId>
    ensures { (log : List Effect) (epoch floor : ℕ) → Stands store.now log epoch floor → result ≡ option_map item_id (target_of (inventory log) at.now) }
{
    match at {
        Address::Id(id) => Some(*id),
        Address::ByPath(path) => store.by_path(path),
        Address::Child(id, name) => store.child(*id, name),
    }
}

/// Where an address by path puts a file.
fn find_place_at(alloc: Global, store: &Store, path: &Path) -> Result<Option<Place>, NoMemory>
    ensures { IfOk result (λ place. (log : List Effect) (epoch floor : ℕ) → Stands store.now log epoch floor → place ≡ place_at (inventory log) path.now) }
{
    if path.names().is_empty() {
        return Ok(Some(Place::Over(ItemId(1))));
    }
    let (above, name) = split_last(alloc, path)?;
    match store.by_path(&above) {
        Some(parent) => Ok(Some(Place::Under(parent, name))),
        None => Ok(None),
    }
}

/// Where an address puts a file, if the folder above it is there.
pub fn find_place(alloc: Global, store: &Store, at: &Address) -> Result<Option<Place>, NoMemory>
    ensures { IfOk result (λ place. (log : List Effect) (epoch floor : ℕ) → Stands store.now log epoch floor → place ≡ place_of (inventory log) at.now) }
{
    match at {
        Address::Id(id) => Ok(Some(Place::Over(*id))),
        Address::ByPath(path) => find_place_at(alloc, store, path),
        Address::Child(id, name) => {
            let name = name.clone()?;
            Ok(Some(Place::Under(*id, name)))
        }
    }
}
