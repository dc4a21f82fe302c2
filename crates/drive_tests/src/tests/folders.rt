use super::{filled, long};
use gd_item::{ItemId, StoreFault};
use gd_names::{Conflict, Text};
use gd_store::Store;
use std::alloc::Global;
use std::test::Fail;

/// Why a folder is not made.
fn fault_of(
    alloc: Global,
    store: &mut Store,
    parent: u64,
    name: &str,
    behaviour: Conflict,
) -> Result<Option<StoreFault>, Fail> {
    let name = Text::from_str(alloc, name)?;
    Ok(store.make_folder(ItemId(parent), &name, behaviour).err())
}

#[test]
fn refused_folders(rt: HostRuntime) -> Result<(), Fail> {
    let alloc = rt.alloc();
    let mut store = filled(alloc)?;
    let rows = [
        (99, "n", Conflict::Fail, StoreFault::NotFound),
        (3, "n", Conflict::Fail, StoreFault::NotFolder),
        (1, "a:", Conflict::Fail, StoreFault::BadName),
        (1, "", Conflict::Rename, StoreFault::BadName),
        (1, "D", Conflict::Fail, StoreFault::NameTaken),
        (1, "D", Conflict::Replace, StoreFault::NameTaken),
        (1, "F", Conflict::Fail, StoreFault::NameTaken),
        (1, "F", Conflict::Replace, StoreFault::NameTaken),
    ];
    for (parent, name, behaviour, fault) in rows {
        assert_eq!(rt;
            fault_of(alloc, &mut store, parent, name, behaviour)?,
            Some(fault),
            "{name} in {parent}"
        );
    }
    assert_eq!(rt; store.number(), 6);
    Ok(())
}

#[test]
fn folders_refused_for_the_first_of_two_causes(rt: HostRuntime) -> Result<(), Fail> {
    let alloc = rt.alloc();
    let mut store = filled(alloc)?;
    let long_name = long(alloc, "", 200)?;
    let bad_name = long(alloc, ":", 200)?;
    let rows = [
        (99, "a:", StoreFault::NotFound),
        (3, "a:", StoreFault::NotFolder),
        (5, long_name.as_str(), StoreFault::NotFolder),
        (4, bad_name.as_str(), StoreFault::BadName),
    ];
    for (parent, name, fault) in rows {
        assert_eq!(rt;
            fault_of(alloc, &mut store, parent, name, Conflict::Fail)?,
            Some(fault),
            "{name} in {parent}"
        );
    }
    Ok(())
}

#[test]
fn folders_with_long_paths(rt: HostRuntime) -> Result<(), Fail> {
    let alloc = rt.alloc();
    let mut store = filled(alloc)?;
    let taken = long(alloc, "", 148)?;
    let long_name = long(alloc, "", 149)?;
    let rows = [
        (
            4,
            long_name.as_str(),
            Conflict::Fail,
            StoreFault::PathTooLong,
        ),
        (4, taken.as_str(), Conflict::Rename, StoreFault::PathTooLong),
        (4, taken.as_str(), Conflict::Fail, StoreFault::NameTaken),
        (6, "n", Conflict::Fail, StoreFault::PathTooLong),
    ];
    for (parent, name, behaviour, fault) in rows {
        assert_eq!(rt;
            fault_of(alloc, &mut store, parent, name, behaviour)?,
            Some(fault),
            "{name} in {parent}"
        );
    }
    Ok(())
}
