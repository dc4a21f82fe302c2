use gd_names::{Bytes, Path};

/// The content of a file.
#[derive(Debug, Drop)]
pub enum Content {
    Text(Bytes),
    /// So many times this byte.
    Fill(u32, u8),
}

/// A line of a replay script.
#[derive(Debug, Drop)]
pub enum Line {
    /// Another client puts a file at a path, over the one that is there.
    OtherPut(Path, Content),
    /// Another client makes a folder at a path.
    OtherMakeFolder(Path),
    /// Another client moves an item to another path.
    OtherMove(Path, Path),
    /// Another client removes an item and all below it.
    OtherRemove(Path),
    /// Tokens that the drive gave out below this change number expire.
    Expire(u64),
    /// The drive is restored from elsewhere.
    Restore,
    /// This upload session ends.
    EndSession(u64),
    /// A page of the drive has at most so many items.
    Page(u64),
    /// Another client pulls the drive afresh.
    Pull,
    /// The drive's change number and its tree.
    Drive,
    /// A sync of the folder with the drive.
    Sync,
    /// The folder's tree.
    Local,
    /// How many requests of each kind this client made since the last such line.
    Requests,
}
