ghost use Rattle.std.specs.Prelude.{◌≡◌, ◌<◌, ◌++◌, ◌∷◌, [], true, false, length, IfOk, OnOk};
ghost use Rattle.std.specs.List.{All};
ghost use Rattle.od_tree.specs.Undisturbed.{Undisturbed};
ghost use Rattle.od_tree.specs.declared.step.TreeOp.TheVariants as op;
ghost use Rattle.od_sync.specs.Scans.{GrowsByLooks, Finds, HasFolderCause};
ghost use Rattle.od_sync.specs.Findings.{digest_at, listing_at, found_file};
ghost use Rattle.od_sync.specs.Visits.{Shows, Sees, Visits, Begins, turns, pushed};

use crate::waiting::Waiting;
use gd_item::{Digest, digest_of};
use gd_names::{Exact, List, NoMemory, Path, Text};
use od_tree::{Entry, Tree, TreeFault};
use std::alloc::{AllocError, AllocFailed, Global};
use thiserror::Error;

/// What stands at a path.
#[derive(Clone, Copy, Debug, PartialEq, Eq)]
pub enum Node {
    Folder,
    File(Digest),
}

impl Exact for Node {
    ghost use Rattle.std.proofs.Common.{rules};

    ghost exact = { Prim.search rules };
}

/// Why the folder could not be looked at, or changed.
#[derive(Clone, Copy, Debug, PartialEq, Eq, Error)]
pub enum FolderFault {
    #[error("the folder cannot be reached")]
    Failed,
    #[error("out of memory")]
    Memory,
}

impl From<NoMemory> for FolderFault {
    ghost use Rattle.od_sync.specs.declared.scanning.FolderFault.TheVariants.{Memory};

    ghost from_gives = { λ _ fault. fault ≡ Memory };

    fn from(_error: NoMemory) -> FolderFault {
        FolderFault::Memory
    }
}

impl From<AllocError> for FolderFault {
    ghost use Rattle.od_sync.specs.declared.scanning.FolderFault.TheVariants.{Memory};

    ghost from_gives = { λ _ fault. fault ≡ Memory };

    fn from(_error: AllocError) -> FolderFault {
        FolderFault::Memory
    }
}

impl<T: Drop> From<AllocFailed<T>> for FolderFault {
    ghost use Rattle.od_sync.specs.declared.scanning.FolderFault.TheVariants.{Memory};

    ghost from_gives = { λ _ fault. fault ≡ Memory };

    fn from(_error: AllocFailed<T>) -> FolderFault {
        FolderFault::Memory
    }
}

/// The digest of a file, and None where it is gone.
fn look_at_file<T: Tree>(
    tree: &mut T,
    alloc: Global,
    at: &Path,
) -> Result<Option<Digest>, FolderFault>
    requires { 0 < length at.now }
    ensures log { GrowsByLooks 0 (T.log tree.old) (T.log tree.new) }
    ensures cause { HasFolderCause (T.faults tree.old) (T.faults tree.new) result }
    ensures undisturbed { Undisturbed (T.undisturbed tree.old) (T.undisturbed tree.new) (T.faults tree.old) (T.faults tree.new) (T.log tree.old) (T.log tree.new) }
    ensures found { IfOk result (λ digest. Shows (op.Read at.now) (digest_at at.now) digest (T.log tree.old) (T.log tree.new)) }
{
    match tree.read(alloc, at) {
        Ok(bytes) => Ok(Some(digest_of(bytes.as_slice()))),
        Err(TreeFault::Missing) => Ok(None),
        Err(TreeFault::Failed) => Err(FolderFault::Failed),
        Err(TreeFault::Memory) => Err(FolderFault::Memory),
        Err(TreeFault::Taken) => unreachable!(),
        Err(TreeFault::NotEmpty) => unreachable!(),
    }
}

/// The entries of a folder, and None where it is gone.
fn look_at_folder<T: Tree>(
    tree: &mut T,
    alloc: Global,
    at: &Path,
) -> Result<Option<List<Entry>>, FolderFault>
    ensures log { GrowsByLooks 1 (T.log tree.old) (T.log tree.new) }
    ensures below { 0 < length at.now → GrowsByLooks 0 (T.log tree.old) (T.log tree.new) }
    ensures cause { HasFolderCause (T.faults tree.old) (T.faults tree.new) result }
    ensures undisturbed { Undisturbed (T.undisturbed tree.old) (T.undisturbed tree.new) (T.faults tree.old) (T.faults tree.new) (T.log tree.old) (T.log tree.new) }
    ensures found { IfOk result (λ entries. Shows (op.List at.now) (listing_at at.now) entries (T.log tree.old) (T.log tree.new)) }
{
    match tree.list(alloc, at) {
        Ok(entries) => Ok(Some(entries)),
        Err(TreeFault::Missing) => Ok(None),
        Err(TreeFault::Failed) => Err(FolderFault::Failed),
        Err(TreeFault::Memory) => Err(FolderFault::Memory),
        Err(TreeFault::Taken) => unreachable!(),
        Err(TreeFault::NotEmpty) => unreachable!(),
    }
}

/// The path of an entry of a folder.
fn path_in(folder: &Path, name: &Text) -> Result<Path, AllocError>
    ensures { IfOk result (λ path. path ≡ folder.now ++ name.now ∷ []) }
{
    let mut names = folder.clone()?.into_names();
    match names.push(name.clone()?) {
        Ok(()) => Ok(Path::from_names(names)),
        Err(_) => Err(AllocError),
    }
}

/// Lets the entries of a folder wait, the first of them on top.
fn push_entries(
    waiting: &mut Vec<Waiting>,
    folder: &Path,
    entries: &[Entry],
) -> Result<(), NoMemory>
    ensures { OnOk result (turns waiting.new.items ≡ pushed folder.now entries.now (turns waiting.old.items)) }
{
    let mut left = entries.len();
    while left > 0 {
        left -= 1;
        let entry = &entries[left];
        let path = path_in(folder, &entry.name)?;
        waiting.push(Waiting {
            path,
            folder: entry.folder,
        })?;
    }
    Ok(())
}

/// Scans a file, if it is still there.
fn visit_file<T: Tree>(
    tree: &mut T,
    alloc: Global,
    at: Path,
    found: &mut Vec<(Path, Node)>,
) -> Result<(), FolderFault>
    requires { 0 < length at }
    ensures log { GrowsByLooks 0 (T.log tree.old) (T.log tree.new) }
    ensures cause { HasFolderCause (T.faults tree.old) (T.faults tree.new) result }
    ensures undisturbed { Undisturbed (T.undisturbed tree.old) (T.undisturbed tree.new) (T.faults tree.old) (T.faults tree.new) (T.log tree.old) (T.log tree.new) }
    ensures found { OnOk result (Sees found.old.items found.new.items (λ spots. found.new.items ≡ found.old.items ++ found_file at (digest_at at spots)) (T.log tree.old) (T.log tree.new)) }
{
    let digest = look_at_file(tree, alloc, &at)?;
    match digest {
        Some(digest) => {
            found.push((at, Node::File(digest)))?;
            Ok(())
        }
        None => Ok(()),
    }
}

/// Scans a folder, if it is still there, and lets its entries wait.
fn visit_folder<T: Tree>(
    tree: &mut T,
    alloc: Global,
    at: Path,
    waiting: &mut Vec<Waiting>,
    found: &mut Vec<(Path, Node)>,
) -> Result<(), FolderFault>
    requires { 0 < length at }
    ensures log { GrowsByLooks 0 (T.log tree.old) (T.log tree.new) }
    ensures cause { HasFolderCause (T.faults tree.old) (T.faults tree.new) result }
    ensures undisturbed { Undisturbed (T.undisturbed tree.old) (T.undisturbed tree.new) (T.faults tree.old) (T.faults tree.new) (T.log tree.old) (T.log tree.new) }
    ensures found { OnOk result (Sees found.old.items found.new.items (Visits at true found.old.items found.new.items (turns waiting.old.items) (turns waiting.new.items)) (T.log tree.old) (T.log tree.new)) }
{
    let entries = look_at_folder(tree, alloc, &at)?;
    match entries {
        Some(entries) => {
            push_entries(waiting, &at, entries.as_slice())?;
            found.push((at, Node::Folder))?;
            Ok(())
        }
        None => Ok(()),
    }
}

fn visit<T: Tree>(
    tree: &mut T,
    alloc: Global,
    next: Waiting,
    waiting: &mut Vec<Waiting>,
    found: &mut Vec<(Path, Node)>,
) -> Result<(), FolderFault>
    ensures log { GrowsByLooks 0 (T.log tree.old) (T.log tree.new) }
    ensures cause { HasFolderCause (T.faults tree.old) (T.faults tree.new) result }
    ensures undisturbed { Undisturbed (T.undisturbed tree.old) (T.undisturbed tree.new) (T.faults tree.old) (T.faults tree.new) (T.log tree.old) (T.log tree.new) }
    ensures found { OnOk result (Sees found.old.items found.new.items (Visits next.path next.folder found.old.items found.new.items (turns waiting.old.items) (turns waiting.new.items)) (T.log tree.old) (T.log tree.new)) }
{
    let Waiting { path, folder } = next;
    if folder {
        visit_folder(tree, alloc, path, waiting, found)
    } else {
        visit_file(tree, alloc, path, found)
    }
}

/// Lets the entries of the root wait.
fn begin<T: Tree>(
    tree: &mut T,
    alloc: Global,
    waiting: &mut Vec<Waiting>,
) -> Result<(), FolderFault>
    ensures log { GrowsByLooks 1 (T.log tree.old) (T.log tree.new) }
    ensures cause { HasFolderCause (T.faults tree.old) (T.faults tree.new) result }
    ensures undisturbed { Undisturbed (T.undisturbed tree.old) (T.undisturbed tree.new) (T.faults tree.old) (T.faults tree.new) (T.log tree.old) (T.log tree.new) }
    ensures found { OnOk result (Begins (turns waiting.old.items) (turns waiting.new.items) (T.log tree.old) (T.log tree.new)) }
{
    let root = Path::root(alloc);
    let entries = look_at_folder(tree, alloc, &root)?;
    match entries {
        Some(entries) => {
            push_entries(waiting, &root, entries.as_slice())?;
            Ok(())
        }
        None => Ok(()),
    }
}

/// All entries in order of path: a folder is listed, and a file read, when its turn comes. What is gone then is left out.
pub fn scan<T: Tree>(tree: &mut T, alloc: Global) -> Result<List<(Path, Node)>, FolderFault>
    ensures log { GrowsByLooks 1 (T.log tree.old) (T.log tree.new) }
    ensures cause { HasFolderCause (T.faults tree.old) (T.faults tree.new) result }
    ensures undisturbed { Undisturbed (T.undisturbed tree.old) (T.undisturbed tree.new) (T.faults tree.old) (T.faults tree.new) (T.log tree.old) (T.log tree.new) }
    ensures found { IfOk result (λ found. Finds (T.log tree.old) (T.log tree.new) found) }
{
    let mut found = Vec::new(alloc);
    let mut waiting = Vec::new(alloc);
    begin(tree, alloc, &mut waiting)?;
    for _turn in 0..u64::MAX {
        match waiting.pop() {
            Some(next) => visit(tree, alloc, next, &mut waiting, &mut found)?,
            None => return Ok(List::from_vec(found)),
        }
    }
    Err(FolderFault::Memory)
}
