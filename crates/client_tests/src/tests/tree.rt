ghost use Rattle.std.specs.Prelude.{◌<◌, length, IfOk};

use gd_names::{Bytes, List, NoMemory, Path, Text};
use od_tree::{MemoryTree, Tree, TreeCall, TreeFault, UserEdit};
use std::alloc::Global;
use std::test::Fail;

fn at_root(alloc: Global, name: &str) -> Result<Path, NoMemory>
    ensures { IfOk result (λ path. 0 < length path) }
{
    let mut names = List::new(alloc);
    names.push(Text::from_str(alloc, name)?)?;
    Ok(Path::from_names(names))
}

fn in_folder(alloc: Global, folder: &str, name: &str) -> Result<Path, NoMemory>
    ensures { IfOk result (λ path. 0 < length path) }
{
    let mut names = List::new(alloc);
    names.push(Text::from_str(alloc, folder)?)?;
    names.push(Text::from_str(alloc, name)?)?;
    Ok(Path::from_names(names))
}

/// What is there already is not made again.
#[test]
fn made_and_placed(rt: HostRuntime) -> Result<(), Fail> {
    let alloc = rt.alloc();
    let mut tree = MemoryTree::new(alloc, List::new(alloc), List::new(alloc));
    let folder = at_root(alloc, "d")?;
    let file = in_folder(alloc, "d", "f")?;
    assert_eq!(rt; tree.make_dir(&folder), Ok(()));
    assert_eq!(rt; tree.make_dir(&folder), Err(TreeFault::Taken));
    assert_eq!(rt; tree.place(&file, b"one"), Ok(()));
    assert_eq!(rt; tree.place(&file, b"two"), Err(TreeFault::Taken));
    assert_eq!(rt; tree.read(alloc, &file)?.as_slice(), b"one".as_slice());
    Ok(())
}

/// A folder is listed and not read, and a file is read and not listed.
#[test]
fn listed(rt: HostRuntime) -> Result<(), Fail> {
    let alloc = rt.alloc();
    let mut tree = MemoryTree::new(alloc, List::new(alloc), List::new(alloc));
    let file = at_root(alloc, "f")?;
    assert_eq!(rt; tree.read(alloc, &file), Err(TreeFault::Missing));
    tree.place(&file, b"one")?;
    let entries = tree.list(alloc, &Path::root(alloc))?;
    assert_eq!(rt; entries.as_slice().len(), 1);
    assert_eq!(rt; entries.as_slice()[0].name.as_str(), "f");
    assert_eq!(rt; entries.as_slice()[0].size, 3);
    assert_eq!(rt; tree.list(alloc, &file), Err(TreeFault::Missing));
    Ok(())
}

/// An edit and a fault come at the calls to which they are tied.
#[test]
fn tied_to_calls(rt: HostRuntime) -> Result<(), Fail> {
    let alloc = rt.alloc();
    let file = at_root(alloc, "a")?;
    let mut edits = List::new(alloc);
    edits.push((
        TreeCall::Place,
        2,
        UserEdit::Write(file.clone()?, Bytes::from_slice(alloc, b"mine")?),
    ))?;
    let mut failing = List::new(alloc);
    failing.push((TreeCall::Place, 3))?;
    let mut tree = MemoryTree::new(alloc, edits, failing);
    let missing = in_folder(alloc, "d", "f")?;
    assert_eq!(rt; tree.place(&missing, b"1"), Err(TreeFault::Missing));
    assert_eq!(rt; tree.place(&file, b"1"), Err(TreeFault::Taken));
    assert_eq!(rt; tree.place(&missing, b"1"), Err(TreeFault::Failed));
    Ok(())
}

/// An edit of the user is made where it has a place.
#[test]
fn edited(rt: HostRuntime) -> Result<(), Fail> {
    let alloc = rt.alloc();
    let mut tree = MemoryTree::new(alloc, List::new(alloc), List::new(alloc));
    let file = at_root(alloc, "a")?;
    tree.place(&file, b"1")?;
    assert_eq!(rt;
        tree.user(&UserEdit::Move(file.clone()?, at_root(alloc, "b")?))?,
        true
    );
    assert_eq!(rt; tree.user(&UserEdit::Remove(file))?, false);
    let entries = tree.entries(alloc)?;
    assert_eq!(rt; entries.as_slice().len(), 1);
    assert_eq!(rt; entries.as_slice()[0].0, at_root(alloc, "b")?);
    Ok(())
}

/// A file that is set aside is put back to a free path alone, and its number is given again.
#[test]
fn set_aside(rt: HostRuntime) -> Result<(), Fail> {
    let alloc = rt.alloc();
    let mut tree = MemoryTree::new(alloc, List::new(alloc), List::new(alloc));
    let file = at_root(alloc, "a")?;
    let taken = at_root(alloc, "b")?;
    tree.place(&file, b"one")?;
    tree.make_dir(&taken)?;
    assert_eq!(rt; tree.set_aside(&taken), Err(TreeFault::Missing));
    assert_eq!(rt; tree.set_aside(&file), Ok(1));
    assert_eq!(rt; tree.read_aside(alloc, 1)?.as_slice(), b"one".as_slice());
    assert_eq!(rt; tree.put_back(1, &taken), Err(TreeFault::Taken));
    assert_eq!(rt; tree.put_back(1, &file), Ok(()));
    assert_eq!(rt; tree.set_aside(&file), Ok(1));
    Ok(())
}

/// Held files are listed by number until they are discarded.
#[test]
fn discarded(rt: HostRuntime) -> Result<(), Fail> {
    let alloc = rt.alloc();
    let mut tree = MemoryTree::new(alloc, List::new(alloc), List::new(alloc));
    let file = at_root(alloc, "a")?;
    tree.place(&file, b"one")?;
    tree.set_aside(&file)?;
    tree.place(&file, b"two")?;
    assert_eq!(rt; tree.set_aside(&file), Ok(2));
    assert_eq!(rt; tree.discard(1), Ok(()));
    assert_eq!(rt; tree.discard(1), Err(TreeFault::Missing));
    let asides = tree.asides(alloc)?;
    assert_eq!(rt; asides.as_slice().len(), 1);
    assert_eq!(rt; asides.as_slice()[0].number, 2);
    let held = tree.held(alloc)?;
    assert_eq!(rt; held.as_slice().len(), 1);
    assert_eq!(rt; held.as_slice()[0].1.as_slice(), b"two".as_slice());
    Ok(())
}

/// A folder `d` with a file `f`.
fn with_file(alloc: Global) -> Result<MemoryTree, Fail> {
    let mut tree = MemoryTree::new(alloc, List::new(alloc), List::new(alloc));
    tree.make_dir(&at_root(alloc, "d")?)?;
    tree.place(&in_folder(alloc, "d", "f")?, b"1")?;
    Ok(tree)
}

/// A folder is not moved into itself.
#[test]
fn not_moved(rt: HostRuntime) -> Result<(), Fail> {
    let alloc = rt.alloc();
    let mut tree = with_file(alloc)?;
    let folder = at_root(alloc, "d")?;
    let inside = in_folder(alloc, "d", "g")?;
    assert_eq!(rt; tree.rename(&folder, &inside), Err(TreeFault::Missing));
    Ok(())
}

/// A folder is moved with what is in it.
#[test]
fn moved(rt: HostRuntime) -> Result<(), Fail> {
    let alloc = rt.alloc();
    let mut tree = with_file(alloc)?;
    let from = at_root(alloc, "d")?;
    let to = at_root(alloc, "e")?;
    tree.rename(&from, &to)?;
    let file = in_folder(alloc, "e", "f")?;
    assert_eq!(rt; tree.read(alloc, &file)?.as_slice(), b"1".as_slice());
    Ok(())
}

/// A folder is removed once it is empty.
#[test]
fn removed(rt: HostRuntime) -> Result<(), Fail> {
    let alloc = rt.alloc();
    let mut tree = with_file(alloc)?;
    let folder = at_root(alloc, "d")?;
    assert_eq!(rt; tree.remove_dir(&folder), Err(TreeFault::NotEmpty));
    tree.set_aside(&in_folder(alloc, "d", "f")?)?;
    assert_eq!(rt; tree.remove_dir(&folder), Ok(()));
    Ok(())
}

/// From a stop on every call fails, until other calls are armed.
#[test]
fn stopped(rt: HostRuntime) -> Result<(), Fail> {
    let alloc = rt.alloc();
    let mut tree = MemoryTree::new(alloc, List::new(alloc), List::new(alloc));
    let mut stops = List::new(alloc);
    stops.push((TreeCall::MakeDir, 2))?;
    tree.arm(List::new(alloc), List::new(alloc), stops);
    let folder = at_root(alloc, "d")?;
    assert_eq!(rt; tree.make_dir(&folder), Ok(()));
    assert_eq!(rt; tree.make_dir(&folder), Err(TreeFault::Failed));
    assert_eq!(rt; tree.remove_dir(&folder), Err(TreeFault::Failed));
    tree.arm(List::new(alloc), List::new(alloc), List::new(alloc));
    assert_eq!(rt; tree.remove_dir(&folder), Ok(()));
    Ok(())
}
