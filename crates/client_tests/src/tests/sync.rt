use super::drives::{Empty, OneFile};
use super::{at_root, in_folder};
use gd_item::digest_of;
use gd_names::{List, NoMemory};
use od_keeper::{Agreed, Keeper, MemoryKeeper};
use od_mirror::MirrorView;
use od_sync::{
    Node, PullStop, Sides, SyncEnd, ask_delta, is_same, look, make_plan, pull, scan, sync_now,
};
use od_tree::{MemoryTree, Tree, TreeCall, TreeFault, UserEdit};
use std::alloc::Global;
use std::test::Fail;

fn folder(alloc: Global) -> MemoryTree {
    MemoryTree::new(alloc, List::new(alloc), List::new(alloc))
}

fn keeper(alloc: Global) -> MemoryKeeper {
    MemoryKeeper::new(alloc, List::new(alloc))
}

/// A folder with a file `e`, and a file `f` in a folder `d`.
fn filled(alloc: Global) -> Result<MemoryTree, Fail> {
    let mut tree = folder(alloc);
    tree.place(&at_root(alloc, "e")?, b"e")?;
    tree.make_dir(&at_root(alloc, "d")?)?;
    tree.place(&in_folder(alloc, "d", "f")?, b"abc")?;
    Ok(tree)
}

/// What is scanned is in order of path: what a folder has comes before what follows it.
#[test]
fn scanned(rt: HostRuntime) -> Result<(), Fail> {
    let alloc = rt.alloc();
    let mut tree = filled(alloc)?;
    let mut found = scan(&mut tree, alloc)?;
    let abc = Node::File(digest_of(b"abc"));
    let e = Node::File(digest_of(b"e"));
    assert_eq!(rt; found.pop(), Some((at_root(alloc, "e")?, e)));
    assert_eq!(rt; found.pop(), Some((in_folder(alloc, "d", "f")?, abc)));
    assert_eq!(rt; found.pop(), Some((at_root(alloc, "d")?, Node::Folder)));
    assert_eq!(rt; found.pop(), None);
    Ok(())
}

fn pull_from(alloc: Global, wanting: u64) -> Result<MirrorView, PullStop> {
    let mut drive = Empty {
        wanting,
        answers: 0,
    };
    pull(&mut drive, alloc, List::new(alloc), None)
}

/// A drive that lacks memory is asked three times.
#[test]
fn pulled(rt: HostRuntime) -> Result<(), Fail> {
    let alloc = rt.alloc();
    let view = pull_from(alloc, 2)?;
    assert_eq!(rt; view.token.as_str(), "t1.1.1");
    assert_eq!(rt; view.items.as_slice().len(), 1);
    assert_eq!(rt; is_same(&[], view.paths(alloc)?.as_slice()), true);
    match pull_from(alloc, 3) {
        Ok(_) => assert_eq!(rt; true, false),
        Err(stop) => assert_eq!(rt; stop, PullStop::Unserved),
    }
    Ok(())
}

/// The page of the first reply is given.
#[test]
fn asked(rt: HostRuntime) -> Result<(), Fail> {
    let alloc = rt.alloc();
    let mut drive = Empty {
        wanting: 0,
        answers: 0,
    };
    let page = ask_delta(&mut drive, alloc, None)?;
    assert_eq!(rt; page.items.as_slice().len(), 1);
    Ok(())
}

fn look_at_file(alloc: Global) -> Result<Sides, Fail> {
    let mut drive = OneFile { answers: 0 };
    let mut tree = folder(alloc);
    let mut keeper = keeper(alloc);
    let image = keeper.load(alloc)?;
    Ok(look(alloc, &mut drive, &mut tree, &mut keeper, image)?)
}

/// A look at an empty folder and a drive with a file agrees on nothing, and the plan is to fetch the file.
#[test]
fn looked(rt: HostRuntime) -> Result<(), Fail> {
    let alloc = rt.alloc();
    let sides = look_at_file(alloc)?;
    assert_eq!(rt; sides.image.rows.as_slice().len(), 0);
    assert_eq!(rt; sides.local.as_slice().len(), 0);
    assert_eq!(rt; sides.remote.as_slice().len(), 1);
    let plan = make_plan(alloc, &[], &[], sides.remote.as_slice())?;
    assert_eq!(rt; plan.folders.as_slice().len(), 0);
    assert_eq!(rt; plan.fetches.as_slice().len(), 1);
    Ok(())
}

fn sync_file(alloc: Global, tree: &mut MemoryTree, keeper: &mut MemoryKeeper) -> SyncEnd {
    let mut drive = OneFile { answers: 0 };
    sync_now(alloc, &mut drive, tree, keeper)
}

/// A sync fetches the file of a drive, and keeps that both sides agree on it.
#[test]
fn synced(rt: HostRuntime) -> Result<(), Fail> {
    let alloc = rt.alloc();
    let mut tree = folder(alloc);
    let mut keeper = keeper(alloc);
    assert_eq!(rt; sync_file(alloc, &mut tree, &mut keeper), SyncEnd::Settled);
    let bytes = tree.read(alloc, &at_root(alloc, "a")?)?;
    assert_eq!(rt; bytes.as_slice(), b"abc".as_slice());
    let mut image = keeper.load(alloc)?;
    match image.rows.pop() {
        Some(row) => assert_eq!(rt; row.what, Agreed::File(digest_of(b"abc"))),
        None => assert_eq!(rt; true, false),
    }
    Ok(())
}

/// A folder whose user removes `a` before the second listing.
fn emptied(alloc: Global) -> Result<MemoryTree, NoMemory> {
    let mut edits = List::new(alloc);
    edits.push((TreeCall::List, 2, UserEdit::Remove(at_root(alloc, "a")?)))?;
    Ok(MemoryTree::new(alloc, edits, List::new(alloc)))
}

/// A file that the user removes right after it was placed is not fetched again.
#[test]
fn removed_once_placed(rt: HostRuntime) -> Result<(), Fail> {
    let alloc = rt.alloc();
    let mut tree = emptied(alloc)?;
    let mut keeper = keeper(alloc);
    assert_eq!(rt;
        sync_file(alloc, &mut tree, &mut keeper),
        SyncEnd::Unsettled
    );
    assert_eq!(rt;
        tree.read(alloc, &at_root(alloc, "a")?),
        Err(TreeFault::Missing)
    );
    Ok(())
}

/// Where the folder cannot be reached, a sync says so.
#[test]
fn failed(rt: HostRuntime) -> Result<(), Fail> {
    let alloc = rt.alloc();
    let mut failing = List::new(alloc);
    failing.push((TreeCall::Place, 1))?;
    let mut tree = MemoryTree::new(alloc, List::new(alloc), failing);
    let mut keeper = keeper(alloc);
    assert_eq!(rt;
        sync_file(alloc, &mut tree, &mut keeper),
        SyncEnd::TreeFault
    );
    Ok(())
}
