ghost use Rattle.std.specs.Prelude.{◌≡◌};
ghost use Rattle.gd_index.specs.Indexed.{digest_in};

use crate::spot::Spot;
use gd_item::{Digest, LiveItem, digest_of};
use gd_names::Bytes;

/// An item, where it stands among the names, and the digest of its bytes.
#[derive(Debug, Drop)]
pub struct Row {
    pub item: LiveItem,
    pub spot: Spot,
    pub digest: Option<Digest>,
}

/// The digest of a file's bytes, and none for a folder.
pub fn digest_of_bytes(bytes: &Option<Bytes>) -> Option<Digest>
    ensures { result ≡ digest_in bytes.now }
{
    match bytes {
        None => None,
        Some(bytes) => Some(digest_of(bytes.as_slice())),
    }
}
