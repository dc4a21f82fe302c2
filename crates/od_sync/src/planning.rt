ghost use Rattle.std.specs.Prelude.{◌≡◌, ◌&&◌, cond, not, IfOk};
ghost use Rattle.std.specs.Option.{option_copied};
ghost use Rattle.od_tree.specs.Local.{is_from};
ghost use Rattle.od_sync.specs.Planning.{file_in, folder_in, has_file_above, is_agreed_kind, is_file_above, is_free, is_new, is_new_below, is_wanted, planned_fetches, planned_folders, row_on};

use crate::agreeing::{entry_on, push_if_some};
use crate::scanning::Node;
use gd_item::{Digest, Item, ItemId, Kind};
use gd_names::{List, NoMemory, Path};
use od_keeper::{Agreed, BaseRow};
use std::alloc::{AllocError, Global};

/// A file that is to be fetched to a path.
#[derive(Debug, Drop)]
pub struct Fetching {
    pub path: Path,
    pub id: ItemId,
    pub digest: Digest,
    /// In bytes.
    pub size: u64,
}

/// What is to be done in the local folder, each in order of path.
#[derive(Debug, Drop)]
pub struct Plan {
    pub folders: List<Path>,
    pub fetches: List<Fetching>,
}

fn is_agreed_kind(what: Agreed, kind: Kind) -> bool
    ensures { result ≡ is_agreed_kind what kind }
{
    match (what, kind) {
        (Agreed::Folder, Kind::Folder { .. }) => true,
        (Agreed::File(digest), Kind::File { digest: other }) => digest == other,
        _ => false,
    }
}

fn row_on<'a>(rows: &'a [BaseRow], path: &Path) -> Option<&'a BaseRow>
    ensures { option_copied result ≡ row_on rows.now path.now }
{
    for row in rows {
        if row.path == *path {
            return Some(row);
        }
    }
    None
}

fn is_file_above(path: &Path, entry: &(Path, Node)) -> bool
    ensures { result ≡ is_file_above path.now entry.now }
{
    match entry.1 {
        Node::Folder => false,
        Node::File(_) => path.names().starts_with(entry.0.names()),
    }
}

fn has_file_above(local: &[(Path, Node)], path: &Path) -> bool
    ensures { result ≡ has_file_above local.now path.now }
{
    for entry in local {
        if is_file_above(path, entry) {
            return true;
        }
    }
    false
}

fn is_free(local: &[(Path, Node)], entry: &(Path, Item)) -> bool
    ensures { result ≡ is_free local.now entry.now }
{
    entry_on(local, &entry.0).is_none() && !has_file_above(local, &entry.0)
}

fn is_new(rows: &[BaseRow], local: &[(Path, Node)], entry: &(Path, Item)) -> bool
    ensures { result ≡ is_new rows.now local.now entry.now }
{
    if !is_free(local, entry) {
        return false;
    }
    match row_on(rows, &entry.0) {
        Some(row) => !is_agreed_kind(row.what, entry.1.kind),
        None => true,
    }
}

/// Whether an entry is new and is the one at a path or below it.
fn is_new_from(rows: &[BaseRow], local: &[(Path, Node)], top: &Path, entry: &(Path, Item)) -> bool
    ensures { result ≡ (is_from top.now entry.now.0 && is_new rows.now local.now entry.now) }
{
    entry.0.names().starts_with(top.names()) && is_new(rows, local, entry)
}

fn is_new_below(
    rows: &[BaseRow],
    local: &[(Path, Node)],
    remote: &[(Path, Item)],
    top: &Path,
) -> bool
    ensures { result ≡ is_new_below rows.now local.now remote.now top.now }
{
    for entry in remote {
        if is_new_from(rows, local, top, entry) {
            return true;
        }
    }
    false
}

/// Whether an entry is to be made, for its own sake or for what is below it.
fn is_wanted(
    rows: &[BaseRow],
    local: &[(Path, Node)],
    remote: &[(Path, Item)],
    entry: &(Path, Item),
) -> bool
    ensures { result ≡ is_wanted rows.now local.now remote.now entry.now }
{
    is_free(local, entry) && is_new_below(rows, local, remote, &entry.0)
}

fn folder_in(entry: &(Path, Item)) -> Result<Option<Path>, AllocError>
    ensures { IfOk result (λ folder. folder ≡ folder_in entry.now entry.now.1.kind) }
{
    match entry.1.kind {
        Kind::Folder { .. } => Ok(Some(entry.0.clone()?)),
        Kind::File { .. } => Ok(None),
        Kind::Bare => Ok(None),
        Kind::Deleted => Ok(None),
    }
}

fn wanted_folder(
    rows: &[BaseRow],
    local: &[(Path, Node)],
    remote: &[(Path, Item)],
    entry: &(Path, Item),
) -> Result<Option<Path>, AllocError>
    ensures { IfOk result (λ folder. folder ≡ cond (is_wanted rows.now local.now remote.now entry.now) (folder_in entry.now entry.now.1.kind) None) }
{
    if is_wanted(rows, local, remote, entry) {
        Ok(folder_in(entry)?)
    } else {
        Ok(None)
    }
}

fn plan_folders(
    alloc: Global,
    rows: &[BaseRow],
    local: &[(Path, Node)],
    remote: &[(Path, Item)],
) -> Result<List<Path>, NoMemory>
    ensures { IfOk result (λ folders. folders ≡ planned_folders rows.now local.now remote.now) }
{
    let mut folders = List::new(alloc);
    for entry in remote {
        let folder = wanted_folder(rows, local, remote, entry)?;
        push_if_some(&mut folders, folder)?;
    }
    Ok(folders)
}

fn file_in(entry: &(Path, Item)) -> Result<Option<Fetching>, AllocError>
    ensures { IfOk result (λ file. file ≡ file_in entry.now entry.now.1.kind) }
{
    match entry.1.kind {
        Kind::Folder { .. } => Ok(None),
        Kind::File { digest } => Ok(Some(Fetching {
            path: entry.0.clone()?,
            id: entry.1.id,
            digest,
            size: entry.1.size,
        })),
        Kind::Bare => Ok(None),
        Kind::Deleted => Ok(None),
    }
}

fn new_file(
    rows: &[BaseRow],
    local: &[(Path, Node)],
    entry: &(Path, Item),
) -> Result<Option<Fetching>, AllocError>
    ensures { IfOk result (λ file. file ≡ cond (is_new rows.now local.now entry.now) (file_in entry.now entry.now.1.kind) None) }
{
    if is_new(rows, local, entry) {
        Ok(file_in(entry)?)
    } else {
        Ok(None)
    }
}

fn plan_fetches(
    alloc: Global,
    rows: &[BaseRow],
    local: &[(Path, Node)],
    remote: &[(Path, Item)],
) -> Result<List<Fetching>, NoMemory>
    ensures { IfOk result (λ fetches. fetches ≡ planned_fetches rows.now local.now remote.now) }
{
    let mut fetches = List::new(alloc);
    for entry in remote {
        let file = new_file(rows, local, entry)?;
        push_if_some(&mut fetches, file)?;
    }
    Ok(fetches)
}

/// What is to be done in the local folder for it to have what the drive has.
pub fn make_plan(
    alloc: Global,
    rows: &[BaseRow],
    local: &[(Path, Node)],
    remote: &[(Path, Item)],
) -> Result<Plan, NoMemory>
    ensures folders { IfOk result (λ plan. plan.folders ≡ planned_folders rows.now local.now remote.now) }
    ensures fetches { IfOk result (λ plan. plan.fetches ≡ planned_fetches rows.now local.now remote.now) }
{
    let folders = plan_folders(alloc, rows, local, remote)?;
    let fetches = plan_fetches(alloc, rows, local, remote)?;
    Ok(Plan { folders, fetches })
}
