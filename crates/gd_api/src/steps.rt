ghost use Rattle.std.specs.Prelude.{◌≡◌, ℕ, List, ◌++◌, [], ◌∷◌, Some, IfOk, OnErr, false};
ghost use Rattle.std.specs.Option.{option_copied};
ghost use Rattle.gd_item.specs.Inventory.{Inventory, Effect, inventory};
ghost use Rattle.gd_item.specs.Moves.{patch_refusal, patch_effect, remove_refusal, remove_effects};
ghost use Rattle.gd_item.specs.Refused.{at_target, id_number};
ghost use Rattle.gd_item.specs.Refusals.{make_folder_refusal, make_folder_effect, put_refusal, put_effect};
ghost use Rattle.gd_item.specs.Steps.{effects_at};
ghost use Rattle.gd_item.specs.Targets.{target_of, place_of};
ghost use Rattle.gd_store.specs.Stands.{Stands, Answers};
ghost use Rattle.gd_api.specs.Drives.{is_refusal};
ghost use Rattle.gd_api.specs.Replies.{Steps};

use crate::target::{find_place, find_target};
use gd_item::{Address, Condition, ItemId, Place, Reply, StoreFault};
use gd_names::{Conflict, Text};
use gd_store::Store;
use std::alloc::Global;

/// Makes a folder in a folder.
fn make_folder_in(
    store: &mut Store,
    parent: ItemId,
    name: &Text,
    behaviour: Conflict,
) -> Result<Reply, StoreFault>
    ensures answer { (log : List Effect) (epoch floor : ℕ) → Stands store.old log epoch floor
        → Answers (make_folder_refusal (inventory log) parent.0 name.now behaviour) result
        (Steps store.new epoch floor log (make_folder_effect (inventory log) parent.0 name.now behaviour ∷ [])) }
    ensures kept { OnErr result (store.new ≡ store.old) }
    ensures served { IfOk result (λ reply. is_refusal reply ≡ false) }
{
    let item = store.make_folder_and_get(parent, name, behaviour)?;
    Ok(Reply::Made(item))
}

/// Makes a folder in the folder that an address names.
pub fn make_folder(
    store: &mut Store,
    at: &Address,
    name: &Text,
    behaviour: Conflict,
) -> Result<Reply, StoreFault>
    ensures answer { (log : List Effect) (epoch floor : ℕ) → Stands store.old log epoch floor
        → Answers (at_target (λ parent. make_folder_refusal (inventory log) parent name.now behaviour) (target_of (inventory log) at.now)) result
        (Steps store.new epoch floor log (effects_at (λ parent. make_folder_effect (inventory log) parent name.now behaviour ∷ []) (target_of (inventory log) at.now))) }
    ensures kept { OnErr result (store.new ≡ store.old) }
    ensures served { IfOk result (λ reply. is_refusal reply ≡ false) }
{
    match find_target(store, at) {
        Some(parent) => make_folder_in(store, parent, name, behaviour),
        None => Err(StoreFault::NotFound),
    }
}

/// Puts a file at a place. Other bytes that count against the limit are those of upload sessions.
pub fn put_in(
    store: &mut Store,
    place: &Place,
    bytes: &[u8],
    behaviour: Conflict,
    condition: &Condition,
    others: u64,
) -> Result<Reply, StoreFault>
    ensures answer { (log : List Effect) (epoch floor : ℕ) → Stands store.old log epoch floor
        → Answers (put_refusal (inventory log) place.now bytes.now behaviour condition.now others) result
        (Steps store.new epoch floor log (put_effect (inventory log) place.now bytes.now behaviour ∷ [])) }
    ensures kept { OnErr result (store.new ≡ store.old) }
    ensures served { IfOk result (λ reply. is_refusal reply ≡ false) }
{
    let (item, made) = store.put_and_get(place, bytes, behaviour, condition, others)?;
    if made {
        Ok(Reply::Made(item))
    } else {
        Ok(Reply::Is(item))
    }
}

/// Puts a file where an address says.
pub fn put(
    alloc: Global,
    store: &mut Store,
    at: &Address,
    bytes: &[u8],
    behaviour: Conflict,
    condition: &Condition,
    others: u64,
) -> Result<Reply, StoreFault>
    ensures answer { (log : List Effect) (epoch floor : ℕ) → Stands store.old log epoch floor
        → Answers (at_target (λ place. put_refusal (inventory log) place bytes.now behaviour condition.now others) (place_of (inventory log) at.now)) result
        (Steps store.new epoch floor log (effects_at (λ place. put_effect (inventory log) place bytes.now behaviour ∷ []) (place_of (inventory log) at.now))) }
    ensures kept { OnErr result (store.new ≡ store.old) }
    ensures served { IfOk result (λ reply. is_refusal reply ≡ false) }
{
    match find_place(alloc, store, at)? {
        Some(place) => put_in(store, &place, bytes, behaviour, condition, others),
        None => Err(StoreFault::NotFound),
    }
}

/// Moves the item of an id.
fn patch_at(
    store: &mut Store,
    id: ItemId,
    name: Option<&Text>,
    parent: Option<ItemId>,
    condition: &Condition,
) -> Result<Reply, StoreFault>
    ensures answer { (log : List Effect) (epoch floor : ℕ) → Stands store.old log epoch floor
        → Answers (patch_refusal (inventory log) id.0 (option_copied name.entry) (id_number parent) condition.now) result
        (Steps store.new epoch floor log (patch_effect (inventory log) id.0 (option_copied name.entry) (id_number parent) ∷ [])) }
    ensures kept { OnErr result (store.new ≡ store.old) }
    ensures served { IfOk result (λ reply. is_refusal reply ≡ false) }
{
    let item = store.patch_and_get(id, name, parent, condition)?;
    Ok(Reply::Is(item))
}

/// Moves the item that an address names.
pub fn patch(
    store: &mut Store,
    at: &Address,
    name: Option<&Text>,
    parent: Option<ItemId>,
    condition: &Condition,
) -> Result<Reply, StoreFault>
    ensures answer { (log : List Effect) (epoch floor : ℕ) → Stands store.old log epoch floor
        → Answers (at_target (λ number. patch_refusal (inventory log) number (option_copied name.entry) (id_number parent) condition.now) (target_of (inventory log) at.now)) result
        (Steps store.new epoch floor log (effects_at (λ number. patch_effect (inventory log) number (option_copied name.entry) (id_number parent) ∷ []) (target_of (inventory log) at.now))) }
    ensures kept { OnErr result (store.new ≡ store.old) }
    ensures served { IfOk result (λ reply. is_refusal reply ≡ false) }
{
    match find_target(store, at) {
        Some(id) => patch_at(store, id, name, parent, condition),
        None => Err(StoreFault::NotFound),
    }
}

/// Removes the item of an id.
fn remove_at(store: &mut Store, id: ItemId, condition: &Condition) -> Result<Reply, StoreFault>
    ensures answer { (log : List Effect) (epoch floor : ℕ) → Stands store.old log epoch floor
        → Answers (remove_refusal (inventory log) id.0 condition.now) result
        (λ reply. (reply ≡ Reply.Done) × Stands store.new (log ++ remove_effects (inventory log) id.0) epoch floor) }
    ensures kept { OnErr result (store.new ≡ store.old) }
    ensures served { IfOk result (λ reply. is_refusal reply ≡ false) }
{
    store.remove(id, condition)?;
    Ok(Reply::Done)
}

/// Removes the item that an address names, and all below it.
pub fn remove(store: &mut Store, at: &Address, condition: &Condition) -> Result<Reply, StoreFault>
    ensures answer { (log : List Effect) (epoch floor : ℕ) → Stands store.old log epoch floor
        → Answers (at_target (λ number. remove_refusal (inventory log) number condition.now) (target_of (inventory log) at.now)) result
        (λ reply. (reply ≡ Reply.Done) × Stands store.new (log ++ effects_at (remove_effects (inventory log)) (target_of (inventory log) at.now)) epoch floor) }
    ensures kept { OnErr result (store.new ≡ store.old) }
    ensures served { IfOk result (λ reply. is_refusal reply ≡ false) }
{
    match find_target(store, at) {
        Some(id) => remove_at(store, id, condition),
        None => Err(StoreFault::NotFound),
    }
}
