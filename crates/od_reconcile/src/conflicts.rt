ghost use Rattle.std.specs.Prelude.{◌≡◌, ◌&&◌, ℕ, List, filter, IfOk};
ghost use Rattle.std.specs.List.{list_any};
ghost use Rattle.od_merge.specs.Core.{is_in};
ghost use Rattle.od_merge.specs.Merging.{conflicts, is_changed_or_skipped, is_conflict};
ghost use Rattle.od_merge.specs.Sides.{is_from, paths_of};
ghost use Rattle.od_reconcile.specs.Ready.{IsBothReady, conflict_by, sides_found, HasEdited, changed_twice};

use crate::both::{Both, base_at, is_changed, is_changed_or_skipped, is_kept_there};
use crate::entries::is_same;
use crate::folders::{from_all, has};
use crate::side::standing;
use gd_names::{NoMemory, Path};
use od_merge::Content;
use std::alloc::Global;
use std::collections::BTreeSet;

/// The paths at which the folder has something that is changed or skipped.
fn edited_paths(alloc: Global, both: &Both<'_>) -> Result<Vec<Path>, NoMemory>
    requires { IsBothReady both.now }
    ensures { IfOk result (λ found. found.items ≡ filter (is_changed_or_skipped (sides_found both.now)) (paths_of both.now.here.tree.now)) }
{
    let mut found = Vec::new(alloc);
    for entry in both.here.tree {
        if is_changed_or_skipped(both, &entry.0) {
            found.push(entry.0.clone()?)?;
        }
    }
    Ok(found)
}

/// The paths from which on the folder has something that is changed or skipped.
fn edited_from(alloc: Global, both: &Both<'_>) -> Result<BTreeSet<Path>, NoMemory>
    requires { IsBothReady both.now }
    ensures { IfOk result (λ edited. HasEdited (sides_found both.now) edited.keys) }
{
    let found = edited_paths(alloc, both)?;
    let edited = from_all(alloc, found.as_slice())?;
    Ok(edited)
}

fn conflict_by(
    here: Option<Content>,
    there: Option<Content>,
    files: bool,
    over_folder: bool,
    over_file: bool,
) -> bool
    ensures { result ≡ conflict_by here there files over_folder over_file }
{
    match (here, there) {
        (Some(Content::File(_)), Some(Content::File(_))) => files,
        (Some(Content::File(_)), Some(Content::Folder)) => over_folder,
        (Some(Content::Folder), Some(Content::File(_))) => over_file,
        _ => false,
    }
}

/// Whether a file that passes was changed on both sides, and differently.
fn is_changed_twice(both: &Both<'_>, path: &Path) -> bool
    requires { IsBothReady both.now }
    ensures { result ≡ changed_twice (sides_found both.now) path.now }
{
    let here = standing(both.rules, &both.here, path);
    let there = standing(both.rules, &both.there, path);
    both.rules.passes(path, false)
        && is_changed(both, path)
        && !is_same(here, there)
        && !is_same(there, base_at(both, path))
}

/// Whether the folder's entry at a path has to give way.
fn is_conflict(both: &Both<'_>, edited: &BTreeSet<Path>, path: &Path) -> bool
    requires both { IsBothReady both.now }
    requires edited { HasEdited (sides_found both.now) edited.now.keys }
    ensures { result ≡ is_conflict (sides_found both.now) path.now }
{
    let files = is_changed_twice(both, path);
    let kept = is_kept_there(both, path);
    let over_folder = is_changed_or_skipped(both, path) && kept;
    let over_file = kept && has(edited, path);
    conflict_by(
        standing(both.rules, &both.here, path),
        standing(both.rules, &both.there, path),
        files,
        over_folder,
        over_file,
    )
}

/// The conflicts, in the order of the folder's entries.
pub(crate) fn conflicts(alloc: Global, both: &Both<'_>) -> Result<Vec<Path>, NoMemory>
    requires { IsBothReady both.now }
    ensures { IfOk result (λ found. found.items ≡ conflicts (sides_found both.now)) }
{
    let edited = edited_from(alloc, both)?;
    let mut found = Vec::new(alloc);
    for entry in both.here.tree {
        if is_conflict(both, &edited, &entry.0) {
            found.push(entry.0.clone()?)?;
        }
    }
    Ok(found)
}
