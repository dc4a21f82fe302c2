ghost use Rattle.std.specs.Prelude.{◌≡◌, ◌++◌, cond, IfOk, OnOk};
ghost use Rattle.std.specs.Option.{option_copied, option_map, option_to_list};
ghost use Rattle.od_sync.specs.Agreeing.{agreed_file, agreed_folder, agreed_on, agreed_row, agreed_rows, agreement, dropped_paths, entry_on, is_dropped, landed_as, landed_row, landed_rows, row_of};

use crate::scanning::Node;
use gd_item::{Digest, Item, Kind};
use gd_names::{List, NoMemory, Path};
use od_keeper::{Agreed, BaseRow, Change};
use std::alloc::{AllocError, Global};

/// What stands at a path of entries, if anything does.
pub(crate) fn entry_on<'a, X>(entries: &'a [(Path, X)], path: &Path) -> Option<&'a X>
    ensures { option_copied result ≡ entry_on entries.now path.now }
{
    for entry in entries {
        if entry.0 == *path {
            return Some(&entry.1);
        }
    }
    None
}

/// Adds a thing to a list, if there is one.
pub(crate) fn push_if_some<T: Drop>(list: &mut List<T>, thing: Option<T>) -> Result<(), NoMemory>
    ensures { OnOk result (list.new ≡ list.old ++ option_to_list thing) }
{
    match thing {
        Some(thing) => {
            list.push(thing)?;
            Ok(())
        }
        None => Ok(()),
    }
}

fn agreed_file(digest: Digest, kind: Kind) -> Option<Agreed>
    ensures { result ≡ agreed_file digest kind }
{
    match kind {
        Kind::Folder { .. } => None,
        Kind::File { digest: other } => {
            if digest == other {
                Some(Agreed::File(digest))
            } else {
                None
            }
        }
        Kind::Bare => None,
        Kind::Deleted => None,
    }
}

fn agreed_folder(kind: Kind) -> Option<Agreed>
    ensures { result ≡ agreed_folder kind }
{
    match kind {
        Kind::Folder { .. } => Some(Agreed::Folder),
        Kind::File { .. } => None,
        Kind::Bare => None,
        Kind::Deleted => None,
    }
}

/// What a local entry and one of the drive agree on, where they are the same.
fn agreed_on(node: Node, item: Option<&Item>) -> Option<Agreed>
    ensures { result ≡ agreed_on node (option_copied item.entry) }
{
    match item {
        Some(item) => match node {
            Node::Folder => agreed_folder(item.kind),
            Node::File(digest) => agreed_file(digest, item.kind),
        },
        None => None,
    }
}

/// What both sides agree on once the bytes that were on their way are on the drive.
fn landed_as(flight: Option<Digest>, item: Option<&Item>) -> Option<Agreed>
    ensures { result ≡ landed_as flight (option_copied item.entry) }
{
    match flight {
        Some(digest) => match item {
            Some(item) => agreed_file(digest, item.kind),
            None => None,
        },
        None => None,
    }
}

/// The row of an agreement, if there is one.
fn row_of(path: &Path, what: Option<Agreed>) -> Result<Option<BaseRow>, AllocError>
    ensures { IfOk result (λ row. row ≡ option_map (row_of path.now) what) }
{
    match what {
        Some(what) => Ok(Some(BaseRow {
            path: path.clone()?,
            what,
            flight: None,
        })),
        None => Ok(None),
    }
}

fn landed_row(remote: &[(Path, Item)], row: &BaseRow) -> Result<Option<BaseRow>, AllocError>
    ensures { IfOk result (λ landed. landed ≡ landed_row remote.now row.now) }
{
    row_of(
        &row.path,
        landed_as(row.flight, entry_on(remote, &row.path)),
    )
}

fn agreed_row(remote: &[(Path, Item)], entry: &(Path, Node)) -> Result<Option<BaseRow>, AllocError>
    ensures { IfOk result (λ row. row ≡ agreed_row remote.now entry.now) }
{
    row_of(&entry.0, agreed_on(entry.1, entry_on(remote, &entry.0)))
}

/// Adds the rows whose bytes have come to the drive.
fn push_landed(
    agreed: &mut List<BaseRow>,
    rows: &[BaseRow],
    remote: &[(Path, Item)],
) -> Result<(), NoMemory>
    ensures { OnOk result (agreed.new ≡ agreed.old ++ landed_rows rows.now remote.now) }
{
    for row in rows {
        let landed = landed_row(remote, row)?;
        push_if_some(agreed, landed)?;
    }
    Ok(())
}

/// Adds the rows of the entries that both sides have.
fn push_agreed(
    agreed: &mut List<BaseRow>,
    local: &[(Path, Node)],
    remote: &[(Path, Item)],
) -> Result<(), NoMemory>
    ensures { OnOk result (agreed.new ≡ agreed.old ++ agreed_rows local.now remote.now) }
{
    for entry in local {
        let row = agreed_row(remote, entry)?;
        push_if_some(agreed, row)?;
    }
    Ok(())
}

fn is_dropped(local: &[(Path, Node)], remote: &[(Path, Item)], row: &BaseRow) -> bool
    ensures { result ≡ is_dropped local.now remote.now row.now }
{
    row.flight.is_none()
        && entry_on(local, &row.path).is_none()
        && entry_on(remote, &row.path).is_none()
}

/// The path of a row that neither side has.
fn dropped_path(
    local: &[(Path, Node)],
    remote: &[(Path, Item)],
    row: &BaseRow,
) -> Result<Option<Path>, AllocError>
    ensures { IfOk result (λ path. path ≡ cond (is_dropped local.now remote.now row.now) (Some row.now.path) None) }
{
    if is_dropped(local, remote, row) {
        Ok(Some(row.path.clone()?))
    } else {
        Ok(None)
    }
}

/// The paths of rows that neither side has.
fn dropped_paths(
    alloc: Global,
    rows: &[BaseRow],
    local: &[(Path, Node)],
    remote: &[(Path, Item)],
) -> Result<List<Path>, NoMemory>
    ensures { IfOk result (λ paths. paths ≡ dropped_paths rows.now local.now remote.now) }
{
    let mut paths = List::new(alloc);
    for row in rows {
        let path = dropped_path(local, remote, row)?;
        push_if_some(&mut paths, path)?;
    }
    Ok(paths)
}

/// The change of the image after a look at both sides: what they agree on now.
pub fn agree(
    alloc: Global,
    rows: &[BaseRow],
    local: &[(Path, Node)],
    remote: &[(Path, Item)],
) -> Result<Change, NoMemory>
    ensures { IfOk result (λ change. change ≡ agreement rows.now local.now remote.now) }
{
    let dropped = dropped_paths(alloc, rows, local, remote)?;
    let mut agreed = List::new(alloc);
    push_landed(&mut agreed, rows, remote)?;
    push_agreed(&mut agreed, local, remote)?;
    Ok(Change {
        reset: false,
        rules: None,
        token: None,
        gone: List::new(alloc),
        put: List::new(alloc),
        dropped,
        rows: agreed,
    })
}
