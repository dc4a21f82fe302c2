ghost use Rattle.std.specs.Prelude.{◌≡◌, ℕ, ◌++◌, [], ◌∷◌, List, cond, is_none, IfOk, OnOk};
ghost use Rattle.std.specs.Option.{option_copied, option_map, option_to_list};
ghost use Rattle.od_merge.specs.Merging.{copied, renames, without_copy};
ghost use Rattle.od_merge.specs.Sides.{paths_of};
ghost use Rattle.od_reconcile.specs.Copying.{copy_among, copy_beside, copy_path, left_of, moves_of, names_in};
ghost use Rattle.od_reconcile.specs.Ready.{IsBothReady, sides_found};
ghost use Rattle.od_reconcile.specs.Taken.{HasNames, names_at, names_or_none};

use crate::both::Both;
use crate::conflicts::conflicts;
use crate::entries::is_folder;
use crate::side::standing;
use crate::taken::{add_path, add_tree, split_last};
use gd_names::{List, NoMemory, Path, Text, copy_name};
use std::alloc::Global;
use std::collections::BTreeMap;

/// The conflicts that get copy names, each beside its new path, and those that get none.
#[derive(Drop)]
pub struct Renaming {
    pub renames: Vec<(Path, Path)>,
    pub left: Vec<Path>,
}

fn copy_among(
    alloc: Global,
    name: &Text,
    folder: bool,
    host: &Text,
    names: &List<Text>,
) -> Result<Option<Text>, NoMemory>
    ensures { IfOk result (λ copy. copy ≡ copy_among name.now folder host.now names.now) }
{
    let copy = copy_name(alloc, name, folder, host, names)?;
    Ok(copy)
}

/// The same, where a folder that is not there has no names.
fn copy_in(
    alloc: Global,
    name: &Text,
    folder: bool,
    host: &Text,
    names: Option<&List<Text>>,
) -> Result<Option<Text>, NoMemory>
    ensures { IfOk result (λ copy. copy ≡ copy_among name.now folder host.now (names_or_none (option_copied names.entry))) }
{
    match names {
        Some(names) => copy_among(alloc, name, folder, host, names),
        None => {
            let none = List::new(alloc);
            copy_among(alloc, name, folder, host, &none)
        }
    }
}

fn joined(mut folder: List<Text>, name: Option<Text>) -> Result<Option<Path>, NoMemory>
    ensures { IfOk result (λ path. path ≡ option_map (λ last. folder ++ last ∷ []) name) }
{
    match name {
        Some(name) => {
            folder.push(name)?;
            Ok(Some(Path::from_names(folder)))
        }
        None => Ok(None),
    }
}

/// The path of a conflict copy, if one is left.
fn copy_beside(
    alloc: Global,
    host: &Text,
    folder: bool,
    taken: &BTreeMap<Path, List<Text>>,
    path: &Path,
) -> Result<Option<Path>, NoMemory>
    ensures { IfOk result (λ found. (paths : List (List (List ℕ))) → HasNames paths taken.now.entries → found ≡ copy_beside host.now folder paths path.now) }
{
    let Some(parts) = split_last(path)? else {
        return Ok(None);
    };
    let (names, name) = parts;
    let above = Path::from_names(names);
    let copy = copy_in(alloc, &name, folder, host, taken.get(&above))?;
    let found = joined(above.into_names(), copy)?;
    Ok(found)
}

fn add_copy(
    alloc: Global,
    copies: &mut Renaming,
    taken: &mut BTreeMap<Path, List<Text>>,
    path: &Path,
    to: Option<Path>,
) -> Result<(), NoMemory>
    ensures renames { OnOk result (copies.new.renames.items ≡ copies.old.renames.items ++ option_to_list (option_map (λ to. (path.now, to)) to)) }
    ensures left { OnOk result (copies.new.left.items ≡ copies.old.left.items ++ cond (is_none to) (path.now ∷ []) []) }
    ensures taken { OnOk result ((q : List (List ℕ)) → names_at taken.new.entries q ≡ names_at taken.old.entries q ++ names_in q (option_to_list to)) }
{
    match to {
        Some(to) => {
            add_path(alloc, taken, &to)?;
            copies.renames.push((path.clone()?, to))?;
            Ok(())
        }
        None => {
            copies.left.push(path.clone()?)?;
            Ok(())
        }
    }
}

fn copy_each(
    alloc: Global,
    host: &Text,
    both: &Both<'_>,
    conflicts: &[Path],
    taken: &mut BTreeMap<Path, List<Text>>,
) -> Result<Renaming, NoMemory>
    requires { IsBothReady both.now }
    ensures renames { IfOk result (λ copies. (paths : List (List (List ℕ))) → HasNames paths taken.old.entries → copies.renames.items ≡ moves_of (copied (copy_path host.now (sides_found both.now).local) paths conflicts.now)) }
    ensures left { IfOk result (λ copies. (paths : List (List (List ℕ))) → HasNames paths taken.old.entries → copies.left.items ≡ left_of (copied (copy_path host.now (sides_found both.now).local) paths conflicts.now)) }
{
    let mut copies = Renaming {
        renames: Vec::new(alloc),
        left: Vec::new(alloc),
    };
    for path in conflicts {
        let folder = is_folder(standing(both.rules, &both.here, path));
        let to = copy_beside(alloc, host, folder, taken, path)?;
        add_copy(alloc, &mut copies, taken, path, to)?;
    }
    Ok(copies)
}

/// The names that both sides have, by their folders.
fn taken_names(alloc: Global, both: &Both<'_>) -> Result<BTreeMap<Path, List<Text>>, NoMemory>
    ensures { IfOk result (λ taken. HasNames (paths_of both.now.here.tree.now ++ paths_of both.now.there.tree.now) taken.entries) }
{
    let mut taken = BTreeMap::new(alloc);
    add_tree(alloc, &mut taken, both.here.tree)?;
    add_tree(alloc, &mut taken, both.there.tree)?;
    Ok(taken)
}

/// What becomes of the conflicts, in the order of the folder's entries.
pub(crate) fn copies(alloc: Global, host: &Text, both: &Both<'_>) -> Result<Renaming, NoMemory>
    requires { IsBothReady both.now }
    ensures renames { IfOk result (λ copies. copies.renames.items ≡ renames (copy_path host.now (sides_found both.now).local) (sides_found both.now)) }
    ensures left { IfOk result (λ copies. copies.left.items ≡ without_copy (copy_path host.now (sides_found both.now).local) (sides_found both.now)) }
{
    let conflicts = conflicts(alloc, both)?;
    let mut taken = taken_names(alloc, both)?;
    let copies = copy_each(alloc, host, both, conflicts.as_slice(), &mut taken)?;
    Ok(copies)
}
