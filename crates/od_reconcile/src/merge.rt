ghost use Rattle.std.specs.Prelude.{◌≡◌, ℕ, ◌≤◌, true, List, length, filter, cond, is_some, IfOk, OnOk, ◌++◌, IsTrue};
ghost use Rattle.od_merge.specs.Merging.{is_left, is_staying, merged, wanted, in_order_from, all_paths};
ghost use Rattle.od_merge.specs.Sides.{at, is_from, is_kept, is_other_kind, is_skipped, paths_of};
ghost use Rattle.od_synclist.specs.Rules.{passes_file};
ghost use Rattle.od_reconcile.specs.Looks.{HasSkipped, IsMerge, merge_sides, seen_by, wanted_by};
ghost use Rattle.od_reconcile.specs.Ready.{IsReadySide};

use crate::both::{Both, base_at};
use crate::entries::{is_other_kind, is_same};
use crate::folders::{above_all, has};
use crate::side::{Side, is_kept, is_skipped, standing};
use gd_names::{NoMemory, Path};
use od_merge::Content;
use od_synclist::Rules;
use std::alloc::Global;
use std::collections::BTreeSet;

/// The folder after the renames beside the drive, and the conflicts that are left where they are.
#[derive(Drop)]
pub struct Merge<'a> {
    pub both: &'a Both<'a>,
    pub here: &'a Side<'a>,
    pub left: &'a [Path],
}

/// Whether a path is that of the top or one below it.
pub(crate) fn is_from(top: &Path, path: &Path) -> bool
    ensures is { result ≡ is_from top.now path.now }
    ensures within { result ≡ true → length top.now ≤ length path.now }
{
    path.names().starts_with(top.names())
}

/// Whether a path is that of a conflict that is left, or below one.
pub(crate) fn is_left(merge: &Merge<'_>, path: &Path) -> bool
    ensures { result ≡ is_left (merge_sides merge.now) path.now }
{
    for top in merge.left {
        if is_from(top, path) {
            return true;
        }
    }
    false
}

fn merged(base: Option<Content>, here: Option<Content>, there: Option<Content>) -> Option<Content>
    ensures { result ≡ merged base here there }
{
    if is_same(here, base) {
        there
    } else if is_same(there, base) || is_same(here, there) {
        here
    } else if here.is_none() {
        there
    } else {
        here
    }
}

/// What stands on a side, where what is skipped beside the other kind counts as absent.
fn seen_by(other: bool, kept: bool, there: Option<Content>) -> Option<Content>
    ensures { result ≡ seen_by other kept there }
{
    if other && !kept { None } else { there }
}

fn merged_seen(
    kept_here: bool,
    kept_there: bool,
    base: Option<Content>,
    here: Option<Content>,
    there: Option<Content>,
) -> Option<Content>
    ensures { result ≡ merged base (seen_by (is_other_kind here there) kept_here here) (seen_by (is_other_kind here there) kept_there there) }
{
    let other = is_other_kind(here, there);
    merged(
        base,
        seen_by(other, kept_here, here),
        seen_by(other, kept_there, there),
    )
}

fn wanted_by(
    left: bool,
    kept_here: bool,
    kept_there: bool,
    base: Option<Content>,
    here: Option<Content>,
    there: Option<Content>,
) -> Option<Content>
    ensures { result ≡ wanted_by left kept_here kept_there base here there }
{
    if (kept_here || kept_there) && !left {
        merged_seen(kept_here, kept_there, base, here, there)
    } else {
        None
    }
}

pub(crate) fn here_at(merge: &Merge<'_>, path: &Path) -> Option<Content>
    requires { IsMerge merge.now }
    ensures { result ≡ at (merge_sides merge.now).local path.now }
{
    standing(merge.both.rules, merge.here, path)
}

pub(crate) fn there_at(merge: &Merge<'_>, path: &Path) -> Option<Content>
    requires { IsMerge merge.now }
    ensures { result ≡ at (merge_sides merge.now).remote path.now }
{
    standing(merge.both.rules, &merge.both.there, path)
}

/// What is to stand at a path for its own sake.
pub(crate) fn wanted(merge: &Merge<'_>, path: &Path) -> Option<Content>
    requires { IsMerge merge.now }
    ensures { result ≡ wanted (merge_sides merge.now) path.now }
{
    let both = merge.both;
    wanted_by(
        is_left(merge, path),
        is_kept(both.rules, merge.here, path),
        is_kept(both.rules, &both.there, path),
        base_at(both, path),
        here_at(merge, path),
        there_at(merge, path),
    )
}

/// Adds the paths at which a side has something that is skipped.
fn add_skipped(rules: &Rules, side: &Side<'_>, found: &mut Vec<Path>) -> Result<(), NoMemory>
    requires { IsReadySide rules.now side.now }
    ensures { OnOk result (found.new.items ≡ found.old.items ++ filter (is_skipped (passes_file rules.now) side.now.tree.now) (paths_of side.now.tree.now)) }
{
    for entry in side.tree {
        if is_skipped(rules, side, &entry.0) {
            found.push(entry.0.clone()?)?;
        }
    }
    Ok(())
}

fn skipped_paths(alloc: Global, merge: &Merge<'_>) -> Result<Vec<Path>, NoMemory>
    requires { IsMerge merge.now }
    ensures { IfOk result (λ found. found.items ≡ filter (is_skipped (merge_sides merge.now).passes (merge_sides merge.now).local) (paths_of (merge_sides merge.now).local)
        ++ filter (is_skipped (merge_sides merge.now).passes (merge_sides merge.now).remote) (paths_of (merge_sides merge.now).remote)) }
{
    let mut found = Vec::new(alloc);
    add_skipped(merge.both.rules, merge.here, &mut found)?;
    add_skipped(merge.both.rules, &merge.both.there, &mut found)?;
    Ok(found)
}

/// The folders above what is skipped on either side.
pub(crate) fn above_skipped(alloc: Global, merge: &Merge<'_>) -> Result<BTreeSet<Path>, NoMemory>
    requires { IsMerge merge.now }
    ensures { IfOk result (λ folders. HasSkipped (merge_sides merge.now) folders.keys) }
{
    let found = skipped_paths(alloc, merge)?;
    let folders = above_all(alloc, found.as_slice())?;
    Ok(folders)
}

/// Whether a folder passes and something in it is skipped.
fn is_staying(merge: &Merge<'_>, skipped: &BTreeSet<Path>, path: &Path) -> bool
    requires merge { IsMerge merge.now }
    requires skipped { HasSkipped (merge_sides merge.now) skipped.now.keys }
    ensures { result ≡ is_staying (merge_sides merge.now) path.now }
{
    merge.both.rules.passes(path, true) && !is_left(merge, path) && has(skipped, path)
}

fn add_paths(paths: &mut BTreeSet<Path>, tree: &[(Path, Content)]) -> Result<(), NoMemory>
    ensures { OnOk result (paths.new.keys ≡ in_order_from paths.old.keys (paths_of tree.now)) }
{
    for entry in tree {
        paths.insert(entry.0.clone()?)?;
    }
    Ok(())
}

/// The paths of both sides.
pub(crate) fn all_paths(alloc: Global, merge: &Merge<'_>) -> Result<BTreeSet<Path>, NoMemory>
    ensures { IfOk result (λ paths. paths.keys ≡ all_paths (merge_sides merge.now)) }
{
    let here = merge.here;
    let both = merge.both;
    let mut paths = BTreeSet::new(alloc);
    add_paths(&mut paths, here.tree)?;
    add_paths(&mut paths, both.there.tree)?;
    Ok(paths)
}

/// The paths at which something is to stand for its own sake.
pub(crate) fn wanted_paths(
    alloc: Global,
    merge: &Merge<'_>,
    paths: &BTreeSet<Path>,
) -> Result<Vec<Path>, NoMemory>
    requires { IsMerge merge.now }
    ensures { IfOk result (λ found. found.items ≡ filter (λ path. is_some (wanted (merge_sides merge.now) path)) paths.now.keys) }
{
    let mut found = Vec::new(alloc);
    for path in paths.iter() {
        if wanted(merge, path).is_some() {
            found.push(path.clone()?)?;
        }
    }
    Ok(found)
}

/// The paths of folders that stay for what is skipped in them.
pub(crate) fn staying_paths(
    alloc: Global,
    merge: &Merge<'_>,
    paths: &BTreeSet<Path>,
) -> Result<Vec<Path>, NoMemory>
    requires { IsMerge merge.now }
    ensures { IfOk result (λ found. found.items ≡ filter (is_staying (merge_sides merge.now)) paths.now.keys) }
{
    let skipped = above_skipped(alloc, merge)?;
    let mut found = Vec::new(alloc);
    for path in paths.iter() {
        if is_staying(merge, &skipped, path) {
            found.push(path.clone()?)?;
        }
    }
    Ok(found)
}
