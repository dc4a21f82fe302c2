ghost use Rattle.std.specs.Prelude.{◌<◌, length, IfOk};

use crate::tests::silent::Silent;
use gd_item::Digest;
use gd_names::{List, NoMemory, Path, Text};
use od_keeper::MemoryKeeper;
use od_outside::Bundle;
use od_reconcile::Node;
use od_scan::scan;
use od_synclist::Rules;
use od_tree::{MemoryTree, Tree};
use std::alloc::Global;
use std::test::Fail;

fn at_root(alloc: Global, name: &str) -> Result<Path, NoMemory>
    ensures { IfOk result (λ path. 0 < length path) }
{
    let mut names = List::new(alloc);
    names.push(Text::from_str(alloc, name)?)?;
    Ok(Path::from_names(names))
}

fn in_folder(alloc: Global, folder: &str, name: &str) -> Result<Path, NoMemory>
    ensures { IfOk result (λ path. 0 < length path) }
{
    let mut names = List::new(alloc);
    names.push(Text::from_str(alloc, folder)?)?;
    names.push(Text::from_str(alloc, name)?)?;
    Ok(Path::from_names(names))
}

/// What `/d/*` lets pass is read, and the rest is listed with its size (the digest of `abc` is the one of FIPS 180-4's example).
#[test]
fn what_passes_is_read(rt: HostRuntime) -> Result<(), Fail> {
    let alloc = rt.alloc();
    let mut drive = Silent { faults: 0 };
    let mut tree = MemoryTree::new(alloc, List::new(alloc), List::new(alloc));
    let mut keeper = MemoryKeeper::new(alloc, List::new(alloc));
    let folder = at_root(alloc, "d")?;
    let inside = in_folder(alloc, "d", "f")?;
    let beside = at_root(alloc, "g")?;
    tree.make_dir(&folder)?;
    tree.place(&inside, b"abc")?;
    tree.place(&beside, b"wxyz")?;
    let rules = Rules::read(alloc, b"/d/*\n")?;
    let mut outside = Bundle {
        remote: &mut drive,
        tree: &mut tree,
        keeper: &mut keeper,
    };
    let found = scan(alloc, &mut outside, &rules)?;
    let read = Node::File {
        size: 3,
        digest: Some(Digest([
            0xba, 0x78, 0x16, 0xbf, 0x8f, 0x01, 0xcf, 0xea, 0x41, 0x41, 0x40, 0xde, 0x5d, 0xae,
            0x22, 0x23, 0xb0, 0x03, 0x61, 0xa3, 0x96, 0x17, 0x7a, 0x9c, 0xb4, 0x10, 0xff, 0x61,
            0xf2, 0x00, 0x15, 0xad,
        ])),
    };
    let listed = Node::File {
        size: 4,
        digest: None,
    };
    assert_eq!(rt; found.as_slice().len(), 3);
    assert_eq!(rt; found.as_slice()[0], (folder, Node::Folder));
    assert_eq!(rt; found.as_slice()[1], (inside, read));
    assert_eq!(rt; found.as_slice()[2], (beside, listed));
    Ok(())
}
