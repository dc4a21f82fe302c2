use super::{condition, long, make, put, text};
use gd_item::{Condition, ItemId, StoreFault};
use gd_names::Text;
use gd_store::Store;
use std::alloc::Global;
use std::test::Fail;

/// Folders 2 `/a`, 3 `/a/b`, 4 `/a/b/a`, 6 of 250 letters and 7 `/h`, files 5 `/f`, 8 of 200 letters in 7, and 9 `h`
/// in 6.
fn nested(alloc: Global) -> Result<Store, Fail> {
    let mut store = Store::new(alloc)?;
    make(&mut store, 1, &text(alloc, "a")?)?;
    make(&mut store, 2, &text(alloc, "b")?)?;
    make(&mut store, 3, &text(alloc, "a")?)?;
    put(&mut store, 1, text(alloc, "f")?)?;
    make(&mut store, 1, &long(alloc, "", 250)?)?;
    make(&mut store, 1, &text(alloc, "h")?)?;
    put(&mut store, 7, long(alloc, "", 200)?)?;
    put(&mut store, 6, text(alloc, "h")?)?;
    Ok(store)
}

/// A folder, or none (0).
fn folder(number: u64) -> Option<ItemId> {
    if number == 0 {
        None
    } else {
        Some(ItemId(number))
    }
}

/// Why an item is not moved, by a new name or none (`""`), a new folder or none (0), and a condition or none (`""`).
fn fault_of(
    alloc: Global,
    store: &mut Store,
    id: u64,
    name: &str,
    parent: u64,
    tag: &str,
) -> Result<Option<StoreFault>, Fail> {
    let condition = condition(alloc, tag)?;
    let new_name = Text::from_str(alloc, name)?;
    let new_name = if name.is_empty() {
        None
    } else {
        Some(&new_name)
    };
    Ok(
        store
            .patch(ItemId(id), new_name, folder(parent), &condition)
            .err(),
    )
}

#[test]
fn moved_items(rt: HostRuntime) -> Result<(), Fail> {
    let alloc = rt.alloc();
    let mut store = nested(alloc)?;
    for (id, name, parent) in [(5, "F", 0), (5, "", 4), (2, "", 7), (7, "x", 0)] {
        assert_eq!(rt;
            fault_of(alloc, &mut store, id, name, parent, "")?,
            None,
            "{id}"
        );
    }
    let item = store.get(ItemId(5), true)?;
    assert_eq!(rt; item.name, text(alloc, "F")?);
    assert_eq!(rt;
        item.parent_path,
        Some(text(alloc, "/drive/root:/x/a/b/a")?)
    );
    assert_eq!(rt; store.number(), 13);
    Ok(())
}

#[test]
fn refused_moves(rt: HostRuntime) -> Result<(), Fail> {
    let alloc = rt.alloc();
    let mut store = nested(alloc)?;
    let rows = [
        (99, "", 1, "", StoreFault::NotFound),
        (1, "r", 1, "", StoreFault::Root),
        (5, "a:", 0, "", StoreFault::BadName),
        (5, "", 99, "", StoreFault::NotFound),
        (2, "", 5, "", StoreFault::NotFolder),
        (5, "g", 0, "e1", StoreFault::Modified),
        (2, "", 3, "", StoreFault::IntoItself),
        (5, "A", 0, "", StoreFault::NameTaken),
    ];
    for (id, name, parent, tag, fault) in rows {
        assert_eq!(rt;
            fault_of(alloc, &mut store, id, name, parent, tag)?,
            Some(fault)
        );
    }
    assert_eq!(rt; store.number(), 9);
    Ok(())
}

#[test]
fn moves_refused_for_the_first_of_two_causes(rt: HostRuntime) -> Result<(), Fail> {
    let alloc = rt.alloc();
    let mut store = nested(alloc)?;
    let rows = [
        (99, "a:", 1, "", StoreFault::NotFound),
        (99, "", 5, "", StoreFault::NotFound),
        (99, "", 1, "e1", StoreFault::NotFound),
        (99, "a", 1, "", StoreFault::NotFound),
        (1, "a:", 1, "", StoreFault::Root),
        (1, "r", 99, "", StoreFault::Root),
        (1, "r", 5, "", StoreFault::Root),
        (1, "r", 1, "e9", StoreFault::Root),
        (1, "a", 1, "", StoreFault::Root),
        (5, "a:", 99, "", StoreFault::BadName),
        (2, "a:", 5, "", StoreFault::BadName),
        (5, "a:", 0, "e1", StoreFault::BadName),
        (2, "a:", 3, "", StoreFault::BadName),
        (5, "", 99, "e1", StoreFault::NotFound),
        (2, "", 5, "e1", StoreFault::NotFolder),
        (5, "", 5, "", StoreFault::NotFolder),
        (2, "", 3, "e1", StoreFault::Modified),
        (5, "a", 0, "e1", StoreFault::Modified),
        (2, "a", 3, "", StoreFault::IntoItself),
        (7, "", 6, "", StoreFault::NameTaken),
    ];
    for (id, name, parent, tag, fault) in rows {
        assert_eq!(rt;
            fault_of(alloc, &mut store, id, name, parent, tag)?,
            Some(fault)
        );
    }
    Ok(())
}

#[test]
fn moves_to_long_paths(rt: HostRuntime) -> Result<(), Fail> {
    let alloc = rt.alloc();
    let mut store = nested(alloc)?;
    let long_name = long(alloc, "", 200)?;
    let bad_name = long(alloc, ":", 200)?;
    let rows = [
        (long_name.as_str(), "", StoreFault::PathTooLong),
        (bad_name.as_str(), "", StoreFault::BadName),
        (long_name.as_str(), "e1", StoreFault::Modified),
    ];
    for (name, tag, fault) in rows {
        assert_eq!(rt; fault_of(alloc, &mut store, 5, name, 6, tag)?, Some(fault));
    }
    Ok(())
}

/// Why an item is not removed, with a condition or none (`""`).
fn removal_fault(
    alloc: Global,
    store: &mut Store,
    id: u64,
    tag: &str,
) -> Result<Option<StoreFault>, Fail> {
    let condition = condition(alloc, tag)?;
    Ok(store.remove(ItemId(id), &condition).err())
}

#[test]
fn refused_removals(rt: HostRuntime) -> Result<(), Fail> {
    let alloc = rt.alloc();
    let mut store = nested(alloc)?;
    let rows = [
        (99, "", StoreFault::NotFound),
        (99, "e1", StoreFault::NotFound),
        (1, "", StoreFault::Root),
        (1, "e1", StoreFault::Root),
        (2, "e1", StoreFault::Modified),
    ];
    for (id, tag, fault) in rows {
        assert_eq!(rt;
            removal_fault(alloc, &mut store, id, tag)?,
            Some(fault),
            "{id}, {tag}"
        );
    }
    assert_eq!(rt; store.number(), 9);
    Ok(())
}
