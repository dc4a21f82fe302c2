use crate::tests::drive::OneFile;
use crate::tests::feed::{OneBareFile, OneFolder};
use gd_item::{Digest, ItemId, Kind};
use gd_names::{List, NoMemory, Text};
use od_keeper::{Change, Keeper, MemoryKeeper};
use od_outside::Bundle;
use od_pull::{PullStop, pull, pull_with_digests};
use od_tree::MemoryTree;
use std::alloc::Global;
use std::test::Fail;

/// A token of an older state of the drive, and the digest of a rules file.
fn older(alloc: Global) -> Result<Change, NoMemory> {
    Ok(Change {
        reset: false,
        rules: Some(Digest([7; 32])),
        token: Some(Text::from_str(alloc, "t1.7.7")?),
        gone: List::new(alloc),
        put: List::new(alloc),
        dropped: List::new(alloc),
        rows: List::new(alloc),
    })
}

/// Where the drive says that the client send what it has, the image is emptied, and the pull begins anew and takes all pages.
#[test]
fn a_pull_begins_anew(rt: HostRuntime) -> Result<(), Fail> {
    let alloc = rt.alloc();
    let mut drive = OneFolder { answers: 0 };
    let mut tree = MemoryTree::new(alloc, List::new(alloc), List::new(alloc));
    let mut keeper = MemoryKeeper::new(alloc, List::new(alloc));
    keeper.commit(&older(alloc)?)?;
    let image = keeper.load(alloc)?;
    let mut outside = Bundle {
        remote: &mut drive,
        tree: &mut tree,
        keeper: &mut keeper,
    };
    let view = pull(alloc, &mut outside, image.items, image.token)?;
    assert_eq!(rt; view.token, Text::from_str(alloc, "t2.2.2")?);
    assert!(rt;
        matches!(view.items.as_slice(), [root, inside] if root.id == ItemId(1) && inside.id == ItemId(2))
    );
    assert_eq!(rt; drive.answers, 3);
    let image = keeper.load(alloc)?;
    assert!(rt; image.token.is_none() && image.rules.is_none());
    Ok(())
}

/// A drive that does not serve is told as that.
#[test]
fn an_unserved_pull_is_told(rt: HostRuntime) -> Result<(), Fail> {
    let alloc = rt.alloc();
    let mut drive = OneFile::new(alloc, 0)?;
    let mut tree = MemoryTree::new(alloc, List::new(alloc), List::new(alloc));
    let mut keeper = MemoryKeeper::new(alloc, List::new(alloc));
    let mut outside = Bundle {
        remote: &mut drive,
        tree: &mut tree,
        keeper: &mut keeper,
    };
    match pull(alloc, &mut outside, List::new(alloc), None) {
        Err(stop) => assert_eq!(rt; stop, PullStop::Unserved),
        Ok(view) => panic!(rt; "{view:?}"),
    }
    Ok(())
}

/// Where the drive gives a file without its digest, that of its bytes is learned (the digest of `abc` is the one of FIPS 180-4's
/// example).
#[test]
fn a_digest_is_learned(rt: HostRuntime) -> Result<(), Fail> {
    let alloc = rt.alloc();
    let mut drive = OneBareFile { answers: 0 };
    let mut tree = MemoryTree::new(alloc, List::new(alloc), List::new(alloc));
    let mut keeper = MemoryKeeper::new(alloc, List::new(alloc));
    let mut outside = Bundle {
        remote: &mut drive,
        tree: &mut tree,
        keeper: &mut keeper,
    };
    let view = pull_with_digests(alloc, &mut outside, List::new(alloc), None)?;
    let digest = Digest([
        0xba, 0x78, 0x16, 0xbf, 0x8f, 0x01, 0xcf, 0xea, 0x41, 0x41, 0x40, 0xde, 0x5d, 0xae, 0x22,
        0x23, 0xb0, 0x03, 0x61, 0xa3, 0x96, 0x17, 0x7a, 0x9c, 0xb4, 0x10, 0xff, 0x61, 0xf2, 0x00,
        0x15, 0xad,
    ]);
    assert!(rt;
        matches!(view.items.as_slice(), [_root, file] if file.kind == Kind::File { digest })
    );
    assert_eq!(rt; drive.answers, 4);
    Ok(())
}
