ghost use Rattle.std.specs.Prelude.{◌≡◌};

use gd_names::Exact;

/// Up to where a client has seen the feed of changes.
#[derive(Clone, Copy, Debug, PartialEq, Eq)]
pub struct Token {
    /// The drive's epoch when the enumeration began.
    pub epoch: u64,
    /// The change number up to which all was sent: that of the last record, or the drive's where no more followed.
    pub position: u64,
    /// The drive's number when the enumeration began: what was removed up to there was never sent.
    pub start: u64,
}

impl Exact for Token {
    ghost use Rattle.std.proofs.Common.{rules};

    ghost exact = { Prim.search rules };
}
