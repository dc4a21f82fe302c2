ghost use Rattle.std.specs.Prelude.{◌<◌, length, IfOk};

use crate::tests::drive::OneFile;
use gd_item::{Digest, ItemId, Reply, Request};
use gd_names::{Bytes, List, NoMemory, Path, Text};
use od_keeper::{Change, Keeper, MemoryKeeper};
use od_outside::{Bundle, Outside};
use od_tree::{MemoryTree, Tree};
use std::alloc::Global;
use std::test::Fail;

fn at_root(alloc: Global, name: &str) -> Result<Path, NoMemory>
    ensures { IfOk result (λ path. 0 < length path) }
{
    let mut names = List::new(alloc);
    names.push(Text::from_str(alloc, name)?)?;
    Ok(Path::from_names(names))
}

fn change(alloc: Global) -> Result<Change, NoMemory> {
    Ok(Change {
        reset: false,
        rules: Some(Digest([7; 32])),
        token: Some(Text::from_str(alloc, "t1.1.1")?),
        gone: List::new(alloc),
        put: List::new(alloc),
        dropped: List::new(alloc),
        rows: List::new(alloc),
    })
}

/// What is asked, done and kept through a bundle comes to the drive, the folder and the keeper that it was lent.
#[test]
fn a_bundle_hands_on(rt: HostRuntime) -> Result<(), Fail> {
    let alloc = rt.alloc();
    let mut drive = OneFile::new(alloc, 0)?;
    let mut tree = MemoryTree::new(alloc, List::new(alloc), List::new(alloc));
    let mut keeper = MemoryKeeper::new(alloc, List::new(alloc));
    let mut outside = Bundle {
        remote: &mut drive,
        tree: &mut tree,
        keeper: &mut keeper,
    };
    let file = at_root(alloc, "a")?;
    let request = Request::Download {
        id: ItemId(2),
        version: 2,
    };
    match outside.ask(alloc, &request)? {
        Reply::Content(bytes) => outside.place(&file, bytes.as_slice())?,
        other => panic!(rt; "{other:?}"),
    }
    outside.commit(&change(alloc)?)?;
    assert_eq!(rt; tree.read(alloc, &file)?, Bytes::from_slice(alloc, b"abc")?);
    assert_eq!(rt;
        keeper.load(alloc)?.token,
        Some(Text::from_str(alloc, "t1.1.1")?)
    );
    Ok(())
}
