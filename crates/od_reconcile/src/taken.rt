ghost use Rattle.std.specs.Prelude.{◌≡◌, ◌++◌, [], ◌∷◌, ℕ, List, cond, IfOk, OnOk, MatchOption};
ghost use Rattle.std.specs.Ordering.{is_eq};
ghost use Rattle.gd_names.specs.Ordered.{path_cmp};
ghost use Rattle.od_merge.specs.Sides.{paths_of};
ghost use Rattle.od_reconcile.specs.Copying.{names_in};
ghost use Rattle.od_reconcile.specs.Taken.{names_at, names_or_none};

use gd_names::{List, NoMemory, Path, Text};
use od_merge::Content;
use std::alloc::Global;
use std::collections::BTreeMap;

/// The names of the folder of a path, and its last name.
pub(crate) fn split_last(path: &Path) -> Result<Option<(List<Text>, Text)>, NoMemory>
    ensures { IfOk result (λ parts. MatchOption parts (path.now ≡ []) (λ p. path.now ≡ p.0 ++ p.1 ∷ [])) }
{
    let mut names = path.clone()?.into_names();
    match names.pop() {
        Some(last) => Ok(Some((names, last))),
        None => Ok(None),
    }
}

fn names_or_none(alloc: Global, names: Option<List<Text>>) -> List<Text>
    ensures { result ≡ names_or_none names }
{
    match names {
        None => List::new(alloc),
        Some(names) => names,
    }
}

/// Puts a name behind those that a folder has.
fn add_name(
    alloc: Global,
    index: &mut BTreeMap<Path, List<Text>>,
    folder: Path,
    name: Text,
) -> Result<(), NoMemory>
    ensures { OnOk result ((q : List (List ℕ)) → names_at index.new.entries q ≡ cond (is_eq (path_cmp folder q)) (names_at index.old.entries q ++ name ∷ []) (names_at index.old.entries q)) }
{
    let mut names = names_or_none(alloc, index.remove(&folder));
    names.push(name)?;
    index.insert(folder, names)?;
    Ok(())
}

/// Puts the last name of a path behind those that its folder has.
pub(crate) fn add_path(
    alloc: Global,
    index: &mut BTreeMap<Path, List<Text>>,
    path: &Path,
) -> Result<(), NoMemory>
    ensures { OnOk result ((q : List (List ℕ)) → names_at index.new.entries q ≡ names_at index.old.entries q ++ names_in q (path.now ∷ [])) }
{
    let Some(parts) = split_last(path)? else {
        return Ok(());
    };
    let (above, name) = parts;
    add_name(alloc, index, Path::from_names(above), name)?;
    Ok(())
}

/// Adds the names of a tree.
pub(crate) fn add_tree(
    alloc: Global,
    index: &mut BTreeMap<Path, List<Text>>,
    tree: &[(Path, Content)],
) -> Result<(), NoMemory>
    ensures { OnOk result ((q : List (List ℕ)) → names_at index.new.entries q ≡ names_at index.old.entries q ++ names_in q (paths_of tree.now)) }
{
    for entry in tree {
        add_path(alloc, index, &entry.0)?;
    }
    Ok(())
}
