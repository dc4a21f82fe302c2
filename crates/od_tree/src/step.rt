ghost use Rattle.std.specs.Prelude.{◌≡◌};

use crate::edit::UserEdit;
use gd_names::{Bytes, Exact, Path};
use std::alloc::AllocError;

/// What the client does to the folder and to its holding folder: one call of `Tree`.
#[derive(Debug, PartialEq, Eq, Drop)]
pub enum TreeOp {
    List(Path),
    Read(Path),
    MakeDir(Path),
    RemoveDir(Path),
    Place(Path, Bytes),
    Rename(Path, Path),
    SetAside(Path),
    ReadAside(u64),
    PutBack(u64, Path),
    Discard(u64),
    Asides,
}

impl Clone for TreeOp {
    ghost is_clone = { λ a b. b ≡ a };

    fn clone(&self) -> Result<TreeOp, AllocError> {
        match self {
            TreeOp::List(at) => Ok(TreeOp::List(at.clone()?)),
            TreeOp::Read(at) => Ok(TreeOp::Read(at.clone()?)),
            TreeOp::MakeDir(at) => Ok(TreeOp::MakeDir(at.clone()?)),
            TreeOp::RemoveDir(at) => Ok(TreeOp::RemoveDir(at.clone()?)),
            TreeOp::Place(at, bytes) => Ok(TreeOp::Place(at.clone()?, bytes.clone()?)),
            TreeOp::Rename(from, to) => Ok(TreeOp::Rename(from.clone()?, to.clone()?)),
            TreeOp::SetAside(at) => Ok(TreeOp::SetAside(at.clone()?)),
            TreeOp::ReadAside(aside) => Ok(TreeOp::ReadAside(*aside)),
            TreeOp::PutBack(aside, to) => Ok(TreeOp::PutBack(*aside, to.clone()?)),
            TreeOp::Discard(aside) => Ok(TreeOp::Discard(*aside)),
            TreeOp::Asides => Ok(TreeOp::Asides),
        }
    }
}

impl Exact for TreeOp {
    ghost exact = { λ x y h. h };
}

/// One step of a local log.
#[derive(Debug, PartialEq, Eq, Drop)]
pub enum LocalStep {
    User(UserEdit),
    Op(TreeOp),
}

impl Clone for LocalStep {
    ghost is_clone = { λ a b. b ≡ a };

    fn clone(&self) -> Result<LocalStep, AllocError> {
        match self {
            LocalStep::User(edit) => Ok(LocalStep::User(edit.clone()?)),
            LocalStep::Op(op) => Ok(LocalStep::Op(op.clone()?)),
        }
    }
}

impl Exact for LocalStep {
    ghost exact = { λ x y h. h };
}
