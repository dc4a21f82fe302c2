use gd_item::{Digest, ItemId, Tag};
use gd_names::{List, Path};
use od_merge::Why;

/// What a scan found at a path.
#[derive(Clone, Copy, Debug, PartialEq, Eq)]
pub enum Node {
    Folder,
    /// The digest is that of the bytes, where they were read.
    File { size: u64, digest: Option<Digest> },
}

/// What is to be done in the folder.
#[derive(Debug, Drop)]
pub enum Down {
    /// The file goes, if it still has the digest.
    RemoveFile(Path, Digest),
    RemoveFolder(Path),
    MakeFolder(Path),
    /// The drive's bytes come to the path, over a file of the digest `over` if there is one.
    Fetch {
        path: Path,
        id: ItemId,
        digest: Digest,
        size: u64,
        over: Option<Digest>,
    },
    /// The file goes from one path to another, if it still has the digest.
    Move {
        from: Path,
        to: Path,
        digest: Digest,
    },
}

/// What is to be done on the drive.
#[derive(Debug, Drop)]
pub enum Up {
    Remove {
        path: Path,
        id: ItemId,
        etag: Tag,
    },
    MakeFolder(Path),
    /// The folder's bytes go to the drive, over an item if there is one.
    Send {
        path: Path,
        over: Option<(ItemId, Tag)>,
    },
    /// The item goes from one path to another.
    Move {
        from: Path,
        to: Path,
        id: ItemId,
        etag: Tag,
    },
}

/// An entry of the folder that is not sent, and why.
#[derive(Debug, Drop)]
pub struct Held {
    pub path: Path,
    pub why: Why,
}

/// An entry of the folder that gives way to the drive's.
#[derive(Debug, Drop)]
pub struct Rename {
    pub from: Path,
    pub to: Path,
}

/// What is to be done: the renames, then the folder's list and then the drive's, each from its beginning; but the source of
/// a move in the folder is taken among the removals.
#[derive(Debug, Drop)]
pub struct Plan {
    pub renames: List<Rename>,
    pub down: List<Down>,
    pub up: List<Up>,
    pub held: List<Held>,
}
