use super::{condition, filled, long};
use gd_item::{Condition, ItemId, Place, StoreFault};
use gd_names::{Conflict, Text};
use gd_store::Store;
use std::alloc::Global;
use std::test::Fail;

/// So many bytes of sessions that a byte more is too much: the two files have a byte each.
const OTHERS: u64 = 536_870_910;

/// Why a file of one byte is not put under a folder, with a condition or none (`""`) and bytes of sessions.
fn fault_under(
    alloc: Global,
    store: &mut Store,
    parent: u64,
    name: &str,
    tag: &str,
    others: u64,
) -> Result<Option<StoreFault>, Fail> {
    let place = Place::Under(ItemId(parent), Text::from_str(alloc, name)?);
    let condition = condition(alloc, tag)?;
    let put = store.put(&place, b"1", Conflict::Fail, &condition, others);
    Ok(put.err())
}

/// Why a file of one byte is not put over an item, with a condition or none (`""`) and bytes of sessions.
fn fault_over(
    alloc: Global,
    store: &mut Store,
    id: u64,
    tag: &str,
    others: u64,
) -> Result<Option<StoreFault>, Fail> {
    let place = Place::Over(ItemId(id));
    let condition = condition(alloc, tag)?;
    let put = store.put(&place, b"1", Conflict::Fail, &condition, others);
    Ok(put.err())
}

#[test]
fn refused_files(rt: HostRuntime) -> Result<(), Fail> {
    let alloc = rt.alloc();
    let mut store = filled(alloc)?;
    let rows = [
        (99, "n", "", 0, StoreFault::NotFound),
        (3, "n", "", 0, StoreFault::NotFolder),
        (1, "a:", "", 0, StoreFault::BadName),
        (1, "n", "e1", 0, StoreFault::Modified),
        (1, "F", "", 0, StoreFault::NameTaken),
        (6, "n", "", 0, StoreFault::PathTooLong),
        (1, "n", "", OTHERS, StoreFault::Quota),
    ];
    for (parent, name, tag, others, fault) in rows {
        assert_eq!(rt;
            fault_under(alloc, &mut store, parent, name, tag, others)?,
            Some(fault),
            "{name} in {parent}"
        );
    }
    assert_eq!(rt; store.number(), 6);
    Ok(())
}

#[test]
fn files_refused_for_the_first_of_two_causes(rt: HostRuntime) -> Result<(), Fail> {
    let alloc = rt.alloc();
    let mut store = filled(alloc)?;
    let rows = [
        (99, "a:", "", 0, StoreFault::NotFound),
        (99, "n", "e1", 0, StoreFault::NotFound),
        (99, "n", "", OTHERS, StoreFault::NotFound),
        (3, "a:", "", 0, StoreFault::NotFolder),
        (3, "n", "e1", 0, StoreFault::NotFolder),
        (3, "n", "", OTHERS, StoreFault::NotFolder),
        (1, "a:", "e1", 0, StoreFault::BadName),
        (1, "a:", "", OTHERS, StoreFault::BadName),
        (1, "f", "e1", 0, StoreFault::Modified),
        (1, "d", "e1", 0, StoreFault::Modified),
        (6, "n", "e1", 0, StoreFault::Modified),
        (1, "n", "e1", OTHERS, StoreFault::Modified),
        (1, "f", "e3", 0, StoreFault::NameTaken),
        (1, "f", "", OTHERS, StoreFault::NameTaken),
        (6, "n", "", OTHERS, StoreFault::PathTooLong),
    ];
    for (parent, name, tag, others, fault) in rows {
        assert_eq!(rt;
            fault_under(alloc, &mut store, parent, name, tag, others)?,
            Some(fault),
            "{name} in {parent}, {tag}"
        );
    }
    Ok(())
}

#[test]
fn files_with_long_paths(rt: HostRuntime) -> Result<(), Fail> {
    let alloc = rt.alloc();
    let mut store = filled(alloc)?;
    let taken = long(alloc, "", 148)?;
    let long_name = long(alloc, "", 200)?;
    let bad_name = long(alloc, ":", 200)?;
    let rows = [
        (4, long_name.as_str(), "", StoreFault::PathTooLong),
        (5, long_name.as_str(), "", StoreFault::NotFolder),
        (4, bad_name.as_str(), "", StoreFault::BadName),
        (4, long_name.as_str(), "e1", StoreFault::Modified),
        (4, taken.as_str(), "", StoreFault::NameTaken),
    ];
    for (parent, name, tag, fault) in rows {
        assert_eq!(rt;
            fault_under(alloc, &mut store, parent, name, tag, 0)?,
            Some(fault),
            "{name} in {parent}, {tag}"
        );
    }
    let place = Place::Under(ItemId(4), taken);
    assert_eq!(rt;
        store.put(&place, b"1", Conflict::Rename, &Condition::Free, 0),
        Err(StoreFault::PathTooLong)
    );
    Ok(())
}

#[test]
fn files_not_replaced(rt: HostRuntime) -> Result<(), Fail> {
    let alloc = rt.alloc();
    let mut store = filled(alloc)?;
    let rows = [
        ("d", "", StoreFault::NameTaken),
        ("d", "e2", StoreFault::NameTaken),
        ("d", "e1", StoreFault::Modified),
        ("f", "e1", StoreFault::Modified),
    ];
    for (name, tag, fault) in rows {
        let place = Place::Under(ItemId(1), Text::from_str(alloc, name)?);
        let condition = condition(alloc, tag)?;
        let put = store.put(&place, b"1", Conflict::Replace, &condition, 0);
        assert_eq!(rt; put, Err(fault), "{name}, {tag}");
    }
    Ok(())
}

#[test]
fn files_not_put_over_an_item(rt: HostRuntime) -> Result<(), Fail> {
    let alloc = rt.alloc();
    let mut store = filled(alloc)?;
    let rows = [
        (99, "", 0, StoreFault::NotFound),
        (99, "e1", 0, StoreFault::NotFound),
        (99, "", OTHERS, StoreFault::NotFound),
        (1, "", 0, StoreFault::NotFile),
        (2, "", 0, StoreFault::NotFile),
        (1, "e9", 0, StoreFault::NotFile),
        (2, "e9", 0, StoreFault::NotFile),
        (2, "", OTHERS, StoreFault::NotFile),
        (3, "e9", 0, StoreFault::Modified),
        (3, "e9", OTHERS, StoreFault::Modified),
        (3, "", OTHERS, StoreFault::Quota),
        (3, "e3", OTHERS, StoreFault::Quota),
    ];
    for (id, tag, others, fault) in rows {
        assert_eq!(rt;
            fault_over(alloc, &mut store, id, tag, others)?,
            Some(fault),
            "{id}, {tag}"
        );
    }
    assert_eq!(rt; store.number(), 6);
    assert_eq!(rt; fault_over(alloc, &mut store, 3, "e3", OTHERS - 1)?, None);
    Ok(())
}
