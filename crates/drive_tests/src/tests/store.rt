ghost use Rattle.std.specs.Prelude.{◌<◌};

use super::{condition, text};
use gd_item::{Condition, Item, ItemId, Kind, Place, StoreFault};
use gd_names::{Conflict, Path};
use gd_store::Store;
use std::alloc::Global;
use std::test::Fail;

/// As many bytes as a store keeps.
const MOST_BYTES: u64 = 536_870_912;

/// Makes a folder.
fn folder(alloc: Global, store: &mut Store, parent: u64, name: &str) -> Result<ItemId, Fail> {
    let name = text(alloc, name)?;
    let id = store.make_folder(ItemId(parent), &name, Conflict::Fail)?;
    Ok(id)
}

/// Puts bytes under a folder, over a file that has the name.
fn put(
    alloc: Global,
    store: &mut Store,
    parent: u64,
    name: &str,
    bytes: &[u8],
) -> Result<(ItemId, bool), Fail> {
    let place = Place::Under(ItemId(parent), text(alloc, name)?);
    let put = store.put(&place, bytes, Conflict::Replace, &Condition::Free, 0)?;
    Ok(put)
}

/// The item at a path.
fn at(alloc: Global, store: &Store, path: &str) -> Result<Option<ItemId>, Fail> {
    let path = Path::read(alloc, path.as_bytes())?;
    Ok(store.by_path(&path))
}

/// The number, the tag, the size, the path and the name of an item, or that it is deleted.
fn told(alloc: Global, item: &Item) -> Result<String, Fail> {
    if item.kind == Kind::Deleted {
        return Ok(format!(in alloc; "{} {} deleted", item.id.0, item.etag.0.as_str())?);
    }
    let path = match &item.parent_path {
        None => "",
        Some(path) => path.as_str(),
    };
    Ok(format!(in alloc;
        "{} {} {} {path}/{}",
        item.id.0,
        item.etag.0.as_str(),
        item.size,
        item.name.as_str()
    )?)
}

/// The same of items in a row.
fn told_all(alloc: Global, items: &[Item]) -> Result<String, Fail> {
    let mut all = String::new(alloc);
    for item in items {
        let one = told(alloc, item)?;
        all.push_str(one.as_str())?;
        all.push_str(", ")?;
    }
    Ok(all)
}

/// The feed past a position and past a removal, at most so many records.
fn feed(
    alloc: Global,
    store: &Store,
    position: u64,
    removed: u64,
    most: u64,
) -> Result<String, Fail>
    requires { 0 < most }
{
    let (items, _) = store.changed_after(position, removed, most)?;
    told_all(alloc, items.as_slice())
}

/// The change number at which a part of the feed ends.
fn feed_end(store: &Store, position: u64, most: u64) -> Result<Option<u64>, Fail>
    requires { 0 < most }
{
    let (_, more) = store.changed_after(position, 0, most)?;
    Ok(more)
}

/// Folder 2 `/d`, and file 3 `/d/a.txt`, which was put twice.
fn small(alloc: Global) -> Result<Store, Fail> {
    let mut store = Store::new(alloc)?;
    folder(alloc, &mut store, 1, "d")?;
    put(alloc, &mut store, 2, "a.txt", b"hi")?;
    put(alloc, &mut store, 2, "A.TXT", b"three")?;
    Ok(store)
}

#[test]
fn items_have_numbers(rt: HostRuntime) -> Result<(), Fail> {
    let alloc = rt.alloc();
    let mut store = Store::new(alloc)?;
    assert_eq!(rt; folder(alloc, &mut store, 1, "d")?, ItemId(2));
    for (name, number, made) in [("a", 3, true), ("A", 3, false), ("b", 4, true)] {
        assert_eq!(rt;
            put(alloc, &mut store, 2, name, b"1")?,
            (ItemId(number), made),
            "{name}"
        );
    }
    assert_eq!(rt; store.number(), 5);
    assert_eq!(rt; store.live_items(), 4);
    Ok(())
}

#[test]
fn items_are_found_by_path(rt: HostRuntime) -> Result<(), Fail> {
    let alloc = rt.alloc();
    let store = small(alloc)?;
    for (path, number) in [("/", 1), ("/d", 2), ("/D/A.txt", 3)] {
        assert_eq!(rt; at(alloc, &store, path)?, Some(ItemId(number)), "{path}");
    }
    for path in ["/x", "/d/b", "/d/a.txt/b"] {
        assert_eq!(rt; at(alloc, &store, path)?, None, "{path}");
    }
    let name = text(alloc, "A.txt")?;
    assert_eq!(rt; store.child(ItemId(2), &name), Some(ItemId(3)));
    assert_eq!(rt; store.child(ItemId(1), &name), None);
    Ok(())
}

#[test]
fn records_are_given_by_number(rt: HostRuntime) -> Result<(), Fail> {
    let alloc = rt.alloc();
    let store = small(alloc)?;
    let rows = [
        (1, true, "1 e1 0 /root"),
        (2, true, "2 e2 0 /drive/root:/d"),
        (3, true, "3 e4 5 /drive/root:/d/a.txt"),
        (3, false, "3 e4 5 /a.txt"),
    ];
    for (number, with_path, record) in rows {
        let item = store.get(ItemId(number), with_path)?;
        assert_eq!(rt; told(alloc, &item)?.as_str(), record);
    }
    assert_eq!(rt;
        store.get(ItemId(4), true).err(),
        Some(StoreFault::NotFound)
    );
    Ok(())
}

#[test]
fn steps_give_records(rt: HostRuntime) -> Result<(), Fail> {
    let alloc = rt.alloc();
    let mut store = small(alloc)?;
    let free = Condition::Free;
    let name = text(alloc, "e")?;
    let made = store.make_folder_and_get(ItemId(2), &name, Conflict::Fail)?;
    assert_eq!(rt; told(alloc, &made)?.as_str(), "4 e5 0 /drive/root:/d/e");
    let moved = store.patch_and_get(ItemId(3), Some(&name), Some(ItemId(4)), &free)?;
    assert_eq!(rt; told(alloc, &moved)?.as_str(), "3 e6 5 /drive/root:/d/e/e");
    Ok(())
}

#[test]
fn puts_give_records(rt: HostRuntime) -> Result<(), Fail> {
    let alloc = rt.alloc();
    let mut store = small(alloc)?;
    let rows = [
        ("A.txt", "3 e5 2 /drive/root:/d/a.txt", false),
        ("b", "4 e6 2 /drive/root:/d/b", true),
    ];
    for (name, record, is_new) in rows {
        let place = Place::Under(ItemId(2), text(alloc, name)?);
        let (item, made) = store.put_and_get(
            &place,
            b"by",
            Conflict::Replace,
            &Condition::Free,
            0,
        )?;
        assert_eq!(rt; told(alloc, &item)?.as_str(), record);
        assert_eq!(rt; made, is_new);
    }
    Ok(())
}

#[test]
fn taken_names_get_a_number(rt: HostRuntime) -> Result<(), Fail> {
    let alloc = rt.alloc();
    let mut store = small(alloc)?;
    let place = Place::Under(ItemId(2), text(alloc, "a.txt")?);
    for record in [
        "4 e5 1 /drive/root:/d/a 1.txt",
        "5 e6 1 /drive/root:/d/a 2.txt",
    ] {
        let (item, _) = store.put_and_get(&place, b"1", Conflict::Rename, &Condition::Free, 0)?;
        assert_eq!(rt; told(alloc, &item)?.as_str(), record);
    }
    Ok(())
}

#[test]
fn files_are_put_over_by_their_tags(rt: HostRuntime) -> Result<(), Fail> {
    let alloc = rt.alloc();
    let mut store = small(alloc)?;
    for tag in ["c4", "e5", "*"] {
        let place = Place::Over(ItemId(3));
        let condition = condition(alloc, tag)?;
        assert_eq!(rt;
            store.put(&place, b"1", Conflict::Fail, &condition, 0),
            Ok((ItemId(3), false)),
            "{tag}"
        );
    }
    Ok(())
}

/// Whether a file has these bytes as a version.
fn has_version(store: &Store, version: u64, bytes: &[u8]) -> bool {
    match store.version(ItemId(3), version) {
        Ok(found) => found.as_slice() == bytes,
        Err(_) => false,
    }
}

#[test]
fn versions_stay(rt: HostRuntime) -> Result<(), Fail> {
    let alloc = rt.alloc();
    let mut store = small(alloc)?;
    assert!(rt; has_version(&store, 3, b"hi"));
    assert!(rt; has_version(&store, 4, b"three"));
    assert!(rt; !has_version(&store, 2, b""));
    store.remove(ItemId(3), &Condition::Free)?;
    assert_eq!(rt;
        store.version(ItemId(3), 4).err(),
        Some(StoreFault::NotFound)
    );
    assert_eq!(rt; store.kept_bytes(), 7);
    Ok(())
}

#[test]
fn files_have_content_numbers(rt: HostRuntime) -> Result<(), Fail> {
    let store = small(rt.alloc())?;
    for (number, content) in [
        (1, Err(StoreFault::NotFile)),
        (2, Err(StoreFault::NotFile)),
        (3, Ok(4)),
        (4, Err(StoreFault::NotFound)),
    ] {
        assert!(rt; store.content_number(ItemId(number)) == content, "{number}");
    }
    Ok(())
}

/// The children of the root past a name or none (`""`), at most two.
fn two_children(alloc: Global, store: &Store, after: &str) -> Result<(String, bool), Fail> {
    let after_name = text(alloc, after)?;
    let earlier = if after.is_empty() {
        None
    } else {
        Some(&after_name)
    };
    let (items, more) = store.children(ItemId(1), earlier, 2)?;
    let all = told_all(alloc, items.as_slice())?;
    Ok((all, more))
}

#[test]
fn children_are_in_order(rt: HostRuntime) -> Result<(), Fail> {
    let alloc = rt.alloc();
    let mut store = Store::new(alloc)?;
    for name in ["b", "C", "a"] {
        put(alloc, &mut store, 1, name, b"1")?;
    }
    let rows = [
        ("", "4 e4 1 /drive/root:/a, 2 e2 1 /drive/root:/b, ", true),
        ("A", "2 e2 1 /drive/root:/b, 3 e3 1 /drive/root:/C, ", false),
        ("B", "3 e3 1 /drive/root:/C, ", false),
        ("c", "", false),
    ];
    for (after, children, more_follow) in rows {
        let (found, more) = two_children(alloc, &store, after)?;
        assert_eq!(rt; found.as_str(), children);
        assert_eq!(rt; more, more_follow);
    }
    Ok(())
}

#[test]
fn the_feed_is_given_in_parts(rt: HostRuntime) -> Result<(), Fail> {
    let alloc = rt.alloc();
    let store = small(alloc)?;
    assert_eq!(rt;
        feed(alloc, &store, 0, 0, 2)?.as_str(),
        "1 e1 0 /root, 2 e2 0 /d, "
    );
    assert_eq!(rt; feed(alloc, &store, 2, 0, 2)?.as_str(), "3 e4 5 /a.txt, ");
    assert_eq!(rt; feed_end(&store, 0, 2)?, Some(2));
    assert_eq!(rt; feed_end(&store, 2, 1)?, None);
    Ok(())
}

#[test]
fn the_feed_has_removed_items(rt: HostRuntime) -> Result<(), Fail> {
    let alloc = rt.alloc();
    let mut store = small(alloc)?;
    store.remove(ItemId(2), &Condition::Free)?;
    for (removed, changes) in [
        (0, "3 e5 deleted, 2 e6 deleted, "),
        (5, "2 e6 deleted, "),
        (6, ""),
    ] {
        assert_eq!(rt; feed(alloc, &store, 4, removed, 9)?.as_str(), changes);
    }
    Ok(())
}

/// Why a file of one byte is not put, if it is not, beside so many bytes of sessions.
fn fault_beside(alloc: Global, store: &mut Store, others: u64) -> Result<Option<StoreFault>, Fail> {
    let place = Place::Under(ItemId(1), text(alloc, "f")?);
    let put = store.put(&place, b"1", Conflict::Replace, &Condition::Free, others);
    Ok(put.err())
}

#[test]
fn kept_bytes_have_a_limit(rt: HostRuntime) -> Result<(), Fail> {
    let alloc = rt.alloc();
    let mut store = small(alloc)?;
    store.remove(ItemId(3), &Condition::Free)?;
    assert_eq!(rt; store.kept_bytes(), 7);
    for (others, fault) in [
        (MOST_BYTES - 7, Some(StoreFault::Quota)),
        (u64::MAX, Some(StoreFault::Quota)),
        (MOST_BYTES - 8, None),
        (MOST_BYTES - 8, Some(StoreFault::Quota)),
    ] {
        assert_eq!(rt; fault_beside(alloc, &mut store, others)?, fault, "{others}");
    }
    assert_eq!(rt; store.kept_bytes(), 8);
    Ok(())
}

/// Puts 22 files into a folder.
fn fill(alloc: Global, store: &mut Store, parent: u64) -> Result<(), Fail> {
    for number in 0..22 {
        let name = format!(in alloc; "{number}")?;
        put(alloc, store, parent, name.as_str(), b"1")?;
    }
    Ok(())
}

#[test]
fn many_items_are_removed_at_once(rt: HostRuntime) -> Result<(), Fail> {
    let alloc = rt.alloc();
    let mut store = Store::new(alloc)?;
    let mut parent = 1;
    for _ in 0..90 {
        parent = folder(alloc, &mut store, parent, "d")?.0;
        fill(alloc, &mut store, parent)?;
    }
    assert_eq!(rt; store.live_items(), 2071);
    store.remove(ItemId(2), &Condition::Free)?;
    assert_eq!(rt; store.live_items(), 1);
    assert_eq!(rt; store.number(), 4141);
    Ok(())
}
