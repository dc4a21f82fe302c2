use gd_item::Digest;

/// What stands at a path: a folder, or a file with its digest where that is known.
#[derive(Clone, Copy, Debug, PartialEq, Eq)]
pub enum Content {
    Folder,
    File(Option<Digest>),
}
