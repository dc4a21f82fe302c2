ghost use Rattle.std.specs.Prelude.{◌≡◌};

use gd_names::{Exact, Path};
use std::alloc::AllocError;

/// A held file, as it is listed.
#[derive(Debug, PartialEq, Eq, Drop)]
pub struct Aside {
    pub number: u64,
    /// The path at which it stood.
    pub from: Path,
}

impl Clone for Aside {
    ghost is_clone = { λ a b. b ≡ a };

    fn clone(&self) -> Result<Aside, AllocError> {
        Ok(Aside {
            number: self.number,
            from: self.from.clone()?,
        })
    }
}

impl Exact for Aside {
    ghost exact = { λ x y h. h };
}
