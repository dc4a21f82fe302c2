ghost use Rattle.std.specs.Prelude.{◌≡◌, ℕ, List, [], IfOk, OnOk};
ghost use Rattle.std.specs.List.{list_any};
ghost use Rattle.od_merge.specs.Core.{is_in};
ghost use Rattle.od_merge.specs.Merging.{in_order_from};
ghost use Rattle.od_merge.specs.Sides.{is_below, is_from};
ghost use Rattle.od_reconcile.specs.Above.{fronts_from, with_fronts};

use gd_names::{List, NoMemory, Path, Text};
use std::alloc::Global;
use std::collections::BTreeSet;

pub(crate) fn has(folders: &BTreeSet<Path>, path: &Path) -> bool
    ensures { result ≡ is_in path.now folders.now.keys }
{
    folders.contains(path)
}

/// Adds the folders above a path, the root too.
fn add_above(alloc: Global, folders: &mut BTreeSet<Path>, path: &Path) -> Result<(), NoMemory>
    ensures { OnOk result (folders.new.keys ≡ in_order_from folders.old.keys (fronts_from [] path.now)) }
{
    let mut above: List<Text> = List::new(alloc);
    for name in path.names() {
        folders.insert(Path::from_names(above.clone()?))?;
        above.push(name.clone()?)?;
    }
    Ok(())
}

fn above_each(alloc: Global, marked: &[Path]) -> Result<BTreeSet<Path>, NoMemory>
    ensures { IfOk result (λ folders. folders.keys ≡ with_fronts [] marked.now) }
{
    let mut folders = BTreeSet::new(alloc);
    for path in marked {
        add_above(alloc, &mut folders, path)?;
    }
    Ok(folders)
}

/// The folders above paths, the root too.
pub(crate) fn above_all(alloc: Global, marked: &[Path]) -> Result<BTreeSet<Path>, NoMemory>
    ensures { IfOk result (λ folders. (path : List (List ℕ)) → is_in path folders.keys ≡ list_any (λ other. is_below path other) marked.now) }
{
    let folders = above_each(alloc, marked)?;
    Ok(folders)
}

fn add_all(folders: &mut BTreeSet<Path>, marked: &[Path]) -> Result<(), NoMemory>
    ensures { OnOk result (folders.new.keys ≡ in_order_from folders.old.keys marked.now) }
{
    for path in marked {
        folders.insert(path.clone()?)?;
    }
    Ok(())
}

/// Paths with the folders above them, the root too.
pub(crate) fn from_all(alloc: Global, marked: &[Path]) -> Result<BTreeSet<Path>, NoMemory>
    ensures { IfOk result (λ folders. (path : List (List ℕ)) → is_in path folders.keys ≡ list_any (λ other. is_from path other) marked.now) }
{
    let mut folders = above_each(alloc, marked)?;
    add_all(&mut folders, marked)?;
    Ok(folders)
}

/// Paths as a set.
pub(crate) fn set_of(alloc: Global, marked: &[Path]) -> Result<BTreeSet<Path>, NoMemory>
    ensures { IfOk result (λ found. (path : List (List ℕ)) → is_in path found.keys ≡ is_in path marked.now) }
{
    let mut found = BTreeSet::new(alloc);
    add_all(&mut found, marked)?;
    Ok(found)
}
