ghost use Rattle.std.specs.Prelude.{◌≡◌, ◌≤◌, ◌++◌, [], ℕ, List, length, drop, cond, Some, None, IfOk, OnOk};
ghost use Rattle.std.specs.Option.{option_copied};
ghost use Rattle.od_merge.specs.Merging.{moved};
ghost use Rattle.od_merge.specs.Sides.{is_path};
ghost use Rattle.od_reconcile.specs.Above.{fronts_from, or_else};
ghost use Rattle.od_reconcile.specs.Copying.{renamed_entries};
ghost use Rattle.od_reconcile.specs.Holding.{stands_at};
ghost use Rattle.od_reconcile.specs.Places.{HasPlaces, earlier, first_place, moved_by, rename_at, tops};

use crate::merge::is_from;
use crate::types::Node;
use gd_names::{List, NoMemory, Path, Text};
use std::alloc::Global;
use std::collections::BTreeMap;

/// Puts the place of a rename at its source, where none stands.
fn put_absent(places: &mut BTreeMap<Path, usize>, path: &Path, place: usize) -> Result<(), NoMemory>
    ensures { OnOk result ((q : List (List ℕ)) → stands_at places.new.entries q ≡ or_else (stands_at places.old.entries q) (cond (is_path path.now q) (Some place) None)) }
{
    if places.contains_key(path) {
        return Ok(());
    }
    places.insert(path.clone()?, place)?;
    Ok(())
}

/// The places of renames by their sources. The first of a source counts.
fn places_of(alloc: Global, renames: &[(Path, Path)]) -> Result<BTreeMap<Path, usize>, NoMemory>
    ensures { IfOk result (λ places. HasPlaces renames.now places.entries) }
{
    let mut places = BTreeMap::new(alloc);
    for (place, rename) in renames.iter().enumerate() {
        put_absent(&mut places, &rename.0, place)?;
    }
    Ok(places)
}

fn place_at(places: &BTreeMap<Path, usize>, path: &Path) -> Option<usize>
    ensures { result ≡ stands_at places.now.entries path.now }
{
    places.get(path).copied()
}

fn earlier(place: Option<usize>, other: Option<usize>) -> Option<usize>
    ensures { result ≡ earlier place other }
{
    match place {
        None => other,
        Some(place) => match other {
            None => Some(place),
            Some(other) => Some(place.min(other)),
        },
    }
}

/// The first place that a folder above a path has.
fn place_above(
    alloc: Global,
    places: &BTreeMap<Path, usize>,
    names: &[Text],
) -> Result<Option<usize>, NoMemory>
    ensures { IfOk result (λ place. place ≡ first_place (stands_at places.now.entries) (fronts_from [] names.now)) }
{
    let mut above: List<Text> = List::new(alloc);
    let mut place = None;
    for name in names {
        let top = Path::from_names(above);
        place = earlier(place, place_at(places, &top));
        above = top.into_names();
        above.push(name.clone()?)?;
    }
    Ok(place)
}

/// The first place that a path or one above it has.
fn first_place(
    alloc: Global,
    places: &BTreeMap<Path, usize>,
    path: &Path,
) -> Result<Option<usize>, NoMemory>
    ensures { IfOk result (λ place. place ≡ first_place (stands_at places.now.entries) (tops path.now)) }
{
    let above = place_above(alloc, places, path.names())?;
    Ok(earlier(above, place_at(places, path)))
}

fn rename_at<'a>(renames: &'a [(Path, Path)], place: Option<usize>) -> Option<&'a (Path, Path)>
    ensures { option_copied result ≡ rename_at renames.now place }
{
    match place {
        None => None,
        Some(place) => renames.get(place),
    }
}

/// A path from one folder on as the same path from another one on.
fn rebased(from: &Path, to: &Path, path: &Path) -> Result<Path, NoMemory>
    requires { length from.now ≤ length path.now }
    ensures { IfOk result (λ new. new ≡ to.now ++ drop (length from.now) path.now) }
{
    let mut names = to.clone()?.into_names();
    let (_, rest) = path.names().split_at(from.names().len());
    for name in rest {
        names.push(name.clone()?)?;
    }
    Ok(Path::from_names(names))
}

fn moved_by(rename: Option<&(Path, Path)>, path: &Path) -> Result<Path, NoMemory>
    ensures { IfOk result (λ new. new ≡ moved_by (option_copied rename.entry) path.now) }
{
    let Some(rename) = rename else {
        return Ok(path.clone()?);
    };
    if is_from(&rename.0, path) {
        return rebased(&rename.0, &rename.1, path);
    }
    Ok(path.clone()?)
}

/// Where a path is after the renames.
fn moved(
    alloc: Global,
    renames: &[(Path, Path)],
    places: &BTreeMap<Path, usize>,
    path: &Path,
) -> Result<Path, NoMemory>
    requires { HasPlaces renames.now places.now.entries }
    ensures { IfOk result (λ new. new ≡ moved renames.now path.now) }
{
    let place = first_place(alloc, places, path)?;
    let new = moved_by(rename_at(renames, place), path)?;
    Ok(new)
}

/// The folder's entries after the renames.
pub(crate) fn renamed_entries(
    alloc: Global,
    renames: &[(Path, Path)],
    local: &[(Path, Node)],
) -> Result<Vec<(Path, Node)>, NoMemory>
    ensures { IfOk result (λ found. found.items ≡ renamed_entries renames.now local.now) }
{
    let places = places_of(alloc, renames)?;
    let mut found = Vec::new(alloc);
    for entry in local {
        let path = moved(alloc, renames, &places, &entry.0)?;
        found.push((path, entry.1))?;
    }
    Ok(found)
}
