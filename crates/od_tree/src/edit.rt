ghost use Rattle.std.specs.Prelude.{◌≡◌};

use gd_names::{Bytes, Exact, Path};
use std::alloc::AllocError;

/// What the user does to the folder.
#[derive(Debug, PartialEq, Eq, Drop)]
pub enum UserEdit {
    /// Makes or overwrites a file in a folder that is there.
    Write(Path, Bytes),
    /// Removes an entry and all below it.
    Remove(Path),
    /// Moves an entry and all below it: over a file only if it is a file, and else to a free path outside itself.
    Move(Path, Path),
    MakeFolder(Path),
}

impl Clone for UserEdit {
    ghost is_clone = { λ a b. b ≡ a };

    fn clone(&self) -> Result<UserEdit, AllocError> {
        match self {
            UserEdit::Write(at, bytes) => Ok(UserEdit::Write(at.clone()?, bytes.clone()?)),
            UserEdit::Remove(at) => Ok(UserEdit::Remove(at.clone()?)),
            UserEdit::Move(from, to) => Ok(UserEdit::Move(from.clone()?, to.clone()?)),
            UserEdit::MakeFolder(at) => Ok(UserEdit::MakeFolder(at.clone()?)),
        }
    }
}

impl Exact for UserEdit {
    ghost exact = { λ x y h. h };
}
