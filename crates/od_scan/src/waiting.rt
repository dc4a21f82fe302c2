ghost use Rattle.std.specs.Prelude.{ℕ, ◌<◌, length};

use gd_names::Path;

/// An entry that a scan is to look at, as it was listed.
#[derive(Debug, Drop)]
pub(crate) struct Waiting {
    pub(crate) path: Path,
    pub(crate) folder: bool,
    pub(crate) size: u64,
    ghost is_below_root: { 0 < length path },
}
