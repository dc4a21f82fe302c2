ghost use Rattle.std.specs.Prelude.{◌≡◌, ℕ, List, IfOk, None, cond, true};
ghost use Rattle.std.specs.Option.{option_copied};
ghost use Rattle.gd_item.specs.Answers.{about, record_reply, children_reply, content_reply};
ghost use Rattle.gd_item.specs.Inventory.{Inventory, Effect, inventory};
ghost use Rattle.gd_item.specs.Records.{record_at};
ghost use Rattle.gd_item.specs.Refused.{at_target};
ghost use Rattle.gd_item.specs.Refusals.{missing, folder_refusal, file_refusal};
ghost use Rattle.gd_item.specs.Targets.{target_of};
ghost use Rattle.gd_item.specs.Versions.{version_at};
ghost use Rattle.gd_store.specs.Stands.{Stands, Answers, given_unless};
ghost use Rattle.gd_api.specs.Replies.{last_item_name};

use crate::target::find_target;
use gd_item::{Address, Item, ItemId, Reply, StoreFault};
use gd_names::{NoMemory, Text};
use gd_store::Store;

/// The record of an item.
fn get_at(store: &Store, id: ItemId) -> Result<Reply, StoreFault>
    ensures answer { (log : List Effect) (epoch floor : ℕ) → Stands store.now log epoch floor
        → Answers (missing (record_at id.0 true (inventory log))) result (λ reply. reply ≡ record_reply (inventory log) id.0) }
{
    let item = store.get(id, true)?;
    Ok(Reply::Is(item))
}

/// The record of the item that an address names.
pub fn get(store: &Store, at: &Address) -> Result<Reply, StoreFault>
    ensures answer { (log : List Effect) (epoch floor : ℕ) → Stands store.now log epoch floor
        → Answers (at_target (λ number. missing (record_at number true (inventory log))) (target_of (inventory log) at.now)) result
        (λ reply. reply ≡ about (record_reply (inventory log)) (target_of (inventory log) at.now)) }
{
    match find_target(store, at) {
        Some(id) => get_at(store, id),
        None => Err(StoreFault::NotFound),
    }
}

/// The name of the last one of some items.
fn last_name_of(items: &[Item]) -> Result<Option<Text>, NoMemory>
    ensures { IfOk result (λ name. name ≡ last_item_name items.now) }
{
    let [.., last] = items else {
        return Ok(None);
    };
    let name = last.name.clone()?;
    Ok(Some(name))
}

/// The name of the last item, where more follow.
fn next_after(items: &[Item], more: bool) -> Result<Option<Text>, NoMemory>
    ensures { IfOk result (λ name. name ≡ cond more (last_item_name items.now) None) }
{
    if more { last_name_of(items) } else { Ok(None) }
}

/// The children of a folder past a name, at most so many.
fn children_at(
    store: &Store,
    id: ItemId,
    after: Option<&Text>,
    size: u64,
) -> Result<Reply, StoreFault>
    ensures answer { (log : List Effect) (epoch floor : ℕ) → Stands store.now log epoch floor
        → Answers (folder_refusal (inventory log) id.0) result (λ reply. reply ≡ children_reply (inventory log) (option_copied after.entry) size id.0) }
{
    let (items, more) = store.children(id, after, size)?;
    let next = next_after(items.as_slice(), more)?;
    Ok(Reply::Listed { items, next })
}

/// The children of the folder that an address names, past a name and at most so many.
pub fn children(
    store: &Store,
    at: &Address,
    after: Option<&Text>,
    size: u64,
) -> Result<Reply, StoreFault>
    ensures answer { (log : List Effect) (epoch floor : ℕ) → Stands store.now log epoch floor
        → Answers (at_target (folder_refusal (inventory log)) (target_of (inventory log) at.now)) result
        (λ reply. reply ≡ about (children_reply (inventory log) (option_copied after.entry) size) (target_of (inventory log) at.now)) }
{
    match find_target(store, at) {
        Some(id) => children_at(store, id, after, size),
        None => Err(StoreFault::NotFound),
    }
}

/// Where the bytes of a file are to be had. Takes no memory.
fn content_at(store: &Store, id: ItemId) -> Result<Reply, StoreFault>
    ensures answer { (log : List Effect) (epoch floor : ℕ) → Stands store.now log epoch floor
        → result ≡ given_unless (file_refusal (inventory log) id.0) (content_reply (inventory log) id.0) }
{
    match store.content_number(id) {
        Ok(version) => Ok(Reply::Found { id, version }),
        Err(fault) => Err(fault),
    }
}

/// Where the bytes of the file that an address names are to be had. Takes no memory.
pub fn content(store: &Store, at: &Address) -> Result<Reply, StoreFault>
    ensures answer { (log : List Effect) (epoch floor : ℕ) → Stands store.now log epoch floor
        → result ≡ given_unless (at_target (file_refusal (inventory log)) (target_of (inventory log) at.now)) (about (content_reply (inventory log)) (target_of (inventory log) at.now)) }
{
    match find_target(store, at) {
        Some(id) => content_at(store, id),
        None => Err(StoreFault::NotFound),
    }
}

/// The bytes of a version.
pub fn download(store: &Store, id: ItemId, version: u64) -> Result<Reply, StoreFault>
    ensures answer { (log : List Effect) (epoch floor : ℕ) → Stands store.now log epoch floor
        → Answers (missing (version_at id.0 version (inventory log))) result (λ reply. reply ≡ about Reply.Content (version_at id.0 version (inventory log))) }
{
    let bytes = store.version(id, version)?;
    Ok(Reply::Content(bytes))
}
