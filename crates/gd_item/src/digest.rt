ghost use Rattle.std.specs.Prelude.{◌≡◌};
ghost use Rattle.sha2.specs.Sha256.{sha256};

use gd_names::Exact;
use sha2::{Digest as _, Sha256};

/// The SHA-256 digest of a file's bytes (FIPS 180-4).
#[derive(Clone, Copy, Debug, PartialEq, Eq)]
pub struct Digest(pub [u8; 32]);

impl Exact for Digest {
    ghost use Rattle.std.proofs.Common.{rules};

    ghost exact = { Prim.search rules };
}

pub fn digest_of(bytes: &[u8]) -> Digest
    ensures { result.0 ≡ sha256 bytes.now }
{
    Digest(Sha256::digest(bytes))
}
