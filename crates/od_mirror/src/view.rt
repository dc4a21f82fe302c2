ghost use Rattle.std.specs.Prelude.{◌≡◌, [], ◌∷◌, false, filter, map, not, nat_eq, IfOk, OnOk};
ghost use Rattle.std.specs.List.{list_any};
ghost use Rattle.gd_names.specs.Ordered.{in_order_from};
ghost use Rattle.gd_item.specs.Trees as trees;
ghost use Rattle.od_mirror.specs.Digests as digests;
ghost use Rattle.od_mirror.specs.Digests.{bare_of, learned};
ghost use Rattle.od_mirror.specs.Places.{ArePlaces};
ghost use Rattle.od_mirror.specs.Pulled.{paths_of, nodes};

use crate::climb::path_up;
use crate::places::places_of;
use gd_item::{Digest, Item, ItemId, Kind, Tag};
use gd_names::{List, NoMemory, Path, Text};
use std::alloc::Global;
use std::collections::BTreeMap;
use std::mem;

/// The items of a drive, the root among them, in order of number, and the token with which the next pull begins.
#[derive(Debug, Drop)]
pub struct MirrorView {
    pub items: List<Item>,
    pub token: Text,
}

impl MirrorView {
    /// The items but the root, each beside its path, in order of path. An item that no folders lead to has none.
    pub fn paths(&self, alloc: Global) -> Result<List<(Path, Item)>, NoMemory>
        ensures { IfOk result (λ paths. paths ≡ paths_of self.now.items) }
    {
        let places = places_of(alloc, self.items.as_slice())?;
        let placed = place_all(alloc, self.items.as_slice(), &places)?;
        let paths = placed.into_iter().collect(alloc)?;
        Ok(List::from_vec(paths))
    }

    /// The id and the eTag of each file without a digest, in the order of the items, which is that of their ids where a pull
    /// made the view.
    pub fn bare(&self, alloc: Global) -> Result<List<(ItemId, Tag)>, NoMemory>
        ensures { IfOk result (λ found. found ≡ bare_of self.now.items) }
    {
        let mut found = Vec::new(alloc);
        for item in self.items.as_slice() {
            if is_bare_kind(item.kind) {
                found.push((item.id, item.etag.clone()?))?;
            }
        }
        Ok(List::from_vec(found))
    }

    /// Whether a file without a digest has this id and this eTag. It has this digest then. Takes no memory.
    pub fn learn(&mut self, alloc: Global, id: ItemId, etag: &Tag, digest: Digest) -> bool
        ensures found { result ≡ list_any (digests.is_unknown id etag.now) self.old.items }
        ensures learnt { self.new.items ≡ map (learned id etag.now digest) self.old.items }
        ensures same { result ≡ false → self.new.items ≡ self.old.items }
        ensures token { self.new.token ≡ self.old.token }
    {
        if !has_unknown(self.items.as_slice(), id, etag) {
            return false;
        }
        let mut items = mem::replace(&mut self.items, List::new(alloc)).into_vec();
        learn_each(items.as_mut_slice(), id, etag, digest);
        self.items = List::from_vec(items);
        true
    }
}

fn is_bare_kind(kind: Kind) -> bool
    ensures { result ≡ digests.is_bare_kind kind }
{
    match kind {
        Kind::Folder { .. } | Kind::File { .. } | Kind::Deleted => false,
        Kind::Bare => true,
    }
}

/// Whether an item is the file without a digest that has this id and this eTag.
fn is_unknown(item: &Item, id: ItemId, etag: &Tag) -> bool
    ensures { result ≡ digests.is_unknown id etag.now item.now }
{
    is_bare_kind(item.kind) && item.id.0 == id.0 && item.etag == *etag
}

fn has_unknown(items: &[Item], id: ItemId, etag: &Tag) -> bool
    ensures { result ≡ list_any (digests.is_unknown id etag.now) items.now }
{
    for item in items {
        if is_unknown(item, id, etag) {
            return true;
        }
    }
    false
}

fn learn_one(item: &mut Item, id: ItemId, etag: &Tag, digest: Digest)
    ensures { item.new ≡ learned id etag.now digest item.old }
{
    if is_unknown(item, id, etag) {
        item.kind = Kind::File { digest };
    }
}

fn learn_each(items: &mut [Item], id: ItemId, etag: &Tag, digest: Digest)
    ensures { items.new ≡ map (learned id etag.now digest) items.old }
{
    for item in items.iter_mut() {
        learn_one(item, id, etag, digest);
    }
}

fn place_all(
    alloc: Global,
    items: &[Item],
    places: &BTreeMap<u64, usize>,
) -> Result<BTreeMap<Path, Item>, NoMemory>
    requires { ArePlaces items.now places.now.entries }
    ensures { IfOk result (λ placed. placed.entries ≡ paths_of items.now) }
{
    let mut placed = BTreeMap::new(alloc);
    for item in items {
        if item.id.0 != 1 {
            place(alloc, items, places, item, &mut placed)?;
        }
    }
    Ok(placed)
}

fn place(
    alloc: Global,
    items: &[Item],
    places: &BTreeMap<u64, usize>,
    item: &Item,
    placed: &mut BTreeMap<Path, Item>,
) -> Result<(), NoMemory>
    requires { ArePlaces items.now places.now.entries }
    ensures { OnOk result (placed.new.entries ≡ in_order_from placed.old.entries (trees.placed (λ item. item.id.0) (nodes items.now) (item.now ∷ []))) }
{
    match path_up(alloc, items, places, item.id.0)? {
        Some(path) => {
            placed.insert(path, item.clone()?)?;
        }
        None => {}
    }
    Ok(())
}
