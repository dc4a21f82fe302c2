use gd_item::{Item, ItemId, Kind, Tag};
use gd_names::{List, NoMemory, Path, Text};
use od_keeper::{Agreed, BaseRow, Change, Keeper, KeeperFault, MemoryKeeper};
use std::alloc::Global;
use std::test::Fail;

fn no_change(alloc: Global) -> Change {
    Change {
        reset: false,
        rules: None,
        token: None,
        gone: List::new(alloc),
        put: List::new(alloc),
        dropped: List::new(alloc),
        rows: List::new(alloc),
    }
}

fn item_of(alloc: Global, number: u64) -> Result<Item, NoMemory> {
    let name = Text::from_str(alloc, "a")?;
    let etag = Tag(Text::from_str(alloc, "e2")?);
    Ok(Item {
        id: ItemId(number),
        parent: Some(ItemId(1)),
        parent_path: None,
        name,
        size: 0,
        etag,
        ctag: None,
        kind: Kind::Folder { child_count: 0 },
    })
}

fn items_of(alloc: Global, first: u64, second: u64) -> Result<List<Item>, NoMemory> {
    let mut items = List::new(alloc);
    items.push(item_of(alloc, first)?)?;
    items.push(item_of(alloc, second)?)?;
    Ok(items)
}

fn row_of(alloc: Global, path: &[u8]) -> Result<BaseRow, NoMemory> {
    match Path::read(alloc, path) {
        Ok(path) => Ok(BaseRow {
            path,
            what: Agreed::Folder,
            flight: None,
        }),
        Err(_) => Err(NoMemory),
    }
}

/// The empty image at first, and then that with the token.
#[test]
fn commit_of_a_token(rt: HostRuntime) -> Result<(), Fail> {
    let alloc = rt.alloc();
    let mut keeper = MemoryKeeper::new(alloc, List::new(alloc));
    let first = keeper.load(alloc)?;
    assert_eq!(rt; first.token, None);
    assert_eq!(rt; first.items.as_slice().len(), 0);
    let mut change = no_change(alloc);
    change.token = Some(Text::from_str(alloc, "t1.2.1")?);
    assert_eq!(rt; keeper.commit(&change), Ok(()));
    assert_eq!(rt; keeper.load(alloc)?.token, change.token);
    Ok(())
}

/// Items and rows stand in their order.
#[test]
fn commit_in_order(rt: HostRuntime) -> Result<(), Fail> {
    let alloc = rt.alloc();
    let mut keeper = MemoryKeeper::new(alloc, List::new(alloc));
    let mut change = no_change(alloc);
    change.put = items_of(alloc, 3, 1)?;
    change.rows.push(row_of(alloc, b"/a")?)?;
    assert_eq!(rt; keeper.commit(&change), Ok(()));
    let image = keeper.load(alloc)?;
    assert_eq!(rt; image.items, items_of(alloc, 1, 3)?);
    assert_eq!(rt; image.rows, change.rows);
    Ok(())
}

/// A failing call changes nothing.
#[test]
fn second_call_fails(rt: HostRuntime) -> Result<(), Fail> {
    let alloc = rt.alloc();
    let mut failing = List::new(alloc);
    failing.push(2)?;
    let mut keeper = MemoryKeeper::new(alloc, failing);
    let mut change = no_change(alloc);
    change.put = items_of(alloc, 1, 3)?;
    assert_eq!(rt; keeper.commit(&change), Ok(()));
    change.reset = true;
    assert_eq!(rt; keeper.commit(&change), Err(KeeperFault::Failed));
    assert_eq!(rt; keeper.load(alloc)?.items.as_slice().len(), 2);
    Ok(())
}

/// From its stop on a keeper fails, until it is armed anew.
#[test]
fn stopped(rt: HostRuntime) -> Result<(), Fail> {
    let alloc = rt.alloc();
    let mut keeper = MemoryKeeper::new(alloc, List::new(alloc));
    keeper.arm(List::new(alloc), Some(2));
    assert_eq!(rt; keeper.commit(&no_change(alloc)), Ok(()));
    assert_eq!(rt; keeper.commit(&no_change(alloc)), Err(KeeperFault::Failed));
    assert_eq!(rt; keeper.commit(&no_change(alloc)), Err(KeeperFault::Failed));
    keeper.arm(List::new(alloc), None);
    assert_eq!(rt; keeper.commit(&no_change(alloc)), Ok(()));
    Ok(())
}
