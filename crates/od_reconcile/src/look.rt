ghost use Rattle.std.specs.Prelude.{◌≡◌, ◌++◌, ℕ, List, filter, IfOk, OnOk};
ghost use Rattle.od_merge.specs.Merging.{is_going, is_needed, is_unwanted, target};
ghost use Rattle.od_merge.specs.Sides.{is_other_kind};
ghost use Rattle.od_reconcile.specs.Looks.{HasStuck, IsMerge, IsReady, IsSide, goes_by, is_staying_on, merge_sides, unwanted_by};
ghost use Rattle.od_reconcile.specs.Ready.{IsReadySide};

use crate::entries::is_other_kind;
use crate::folders::{above_all, from_all, has};
use crate::merge::{Merge, all_paths, is_left, staying_paths, wanted, wanted_paths};
use crate::side::{Side, is_kept, standing};
use gd_names::{NoMemory, Path};
use od_merge::Content;
use std::alloc::Global;
use std::collections::BTreeSet;

/// A merge with the paths of both sides, and the folders that there have to be for what is below them.
#[derive(Drop)]
pub struct Look<'a> {
    pub merge: &'a Merge<'a>,
    pub paths: BTreeSet<Path>,
    pub above: BTreeSet<Path>,
    pub staying: BTreeSet<Path>,
}

fn add_copies(found: &mut Vec<Path>, paths: &[Path]) -> Result<(), NoMemory>
    ensures { OnOk result (found.new.items ≡ found.old.items ++ paths.now) }
{
    for path in paths {
        found.push(path.clone()?)?;
    }
    Ok(())
}

/// Makes a merge ready.
pub(crate) fn look_at<'a>(alloc: Global, merge: &'a Merge<'a>) -> Result<Look<'a>, NoMemory>
    requires { IsMerge merge.now }
    ensures ready { IfOk result (λ look. IsReady look) }
    ensures merge { IfOk result (λ look. look.merge.now ≡ merge.now) }
{
    let paths = all_paths(alloc, merge)?;
    let mut found = wanted_paths(alloc, merge, &paths)?;
    add_copies(&mut found, merge.left)?;
    let above = above_all(alloc, found.as_slice())?;
    let stays = staying_paths(alloc, merge, &paths)?;
    let staying = from_all(alloc, stays.as_slice())?;
    Ok(Look {
        merge,
        paths,
        above,
        staying,
    })
}

fn is_needed(look: &Look<'_>, path: &Path) -> bool
    requires { IsReady look.now }
    ensures { result ≡ is_needed (merge_sides look.now.merge.now) path.now }
{
    has(&look.above, path) || has(&look.staying, path)
}

/// What is to stand at a path.
pub(crate) fn target(look: &Look<'_>, path: &Path) -> Option<Content>
    requires { IsReady look.now }
    ensures { result ≡ target (merge_sides look.now.merge.now) path.now }
{
    if is_needed(look, path) {
        Some(Content::Folder)
    } else {
        wanted(look.merge, path)
    }
}

fn unwanted_by(kept: bool, left: bool, there: Option<Content>, target: Option<Content>) -> bool
    ensures { result ≡ unwanted_by kept left there target }
{
    kept && !left && (target.is_none() || is_other_kind(there, target))
}

/// Whether what a side has at a path is kept and is not to stand there.
fn is_unwanted(look: &Look<'_>, side: &Side<'_>, path: &Path) -> bool
    requires ready { IsReady look.now }
    requires side { IsReadySide look.now.merge.now.both.now.rules.now side.now }
    ensures { result ≡ is_unwanted (merge_sides look.now.merge.now) side.now.tree.now path.now }
{
    unwanted_by(
        is_kept(look.merge.both.rules, side, path),
        is_left(look.merge, path),
        standing(look.merge.both.rules, side, path),
        target(look, path),
    )
}

fn staying_on(alloc: Global, look: &Look<'_>, side: &Side<'_>) -> Result<Vec<Path>, NoMemory>
    requires ready { IsReady look.now }
    requires side { IsReadySide look.now.merge.now.both.now.rules.now side.now }
    ensures { IfOk result (λ found. found.items ≡ filter (is_staying_on (merge_sides look.now.merge.now) side.now.tree.now) look.now.paths.keys) }
{
    let mut found = Vec::new(alloc);
    for path in look.paths.iter() {
        if standing(look.merge.both.rules, side, path).is_some() && !is_unwanted(look, side, path) {
            found.push(path.clone()?)?;
        }
    }
    Ok(found)
}

/// The folders above what is to stay on a side.
pub(crate) fn stuck_on(
    alloc: Global,
    look: &Look<'_>,
    side: &Side<'_>,
) -> Result<BTreeSet<Path>, NoMemory>
    requires ready { IsReady look.now }
    requires side { IsReadySide look.now.merge.now.both.now.rules.now side.now }
    ensures { IfOk result (λ stuck. HasStuck (merge_sides look.now.merge.now) side.now.tree.now stuck.keys) }
{
    let found = staying_on(alloc, look, side)?;
    let stuck = above_all(alloc, found.as_slice())?;
    Ok(stuck)
}

fn goes_by(there: Option<Content>, unwanted: bool, stuck: bool) -> bool
    ensures { result ≡ goes_by there unwanted stuck }
{
    match there {
        None => false,
        Some(Content::Folder) => unwanted && !stuck,
        Some(Content::File(_)) => unwanted,
    }
}

/// Whether what a side has at a path goes, with all below it.
pub(crate) fn is_going(
    look: &Look<'_>,
    side: &Side<'_>,
    stuck: &BTreeSet<Path>,
    path: &Path,
) -> bool
    requires ready { IsReady look.now }
    requires side { IsReadySide look.now.merge.now.both.now.rules.now side.now }
    requires one { IsSide (merge_sides look.now.merge.now) side.now.tree.now }
    requires stuck { HasStuck (merge_sides look.now.merge.now) side.now.tree.now stuck.now.keys }
    ensures { result ≡ is_going (merge_sides look.now.merge.now) side.now.tree.now path.now }
{
    goes_by(
        standing(look.merge.both.rules, side, path),
        is_unwanted(look, side, path),
        has(stuck, path),
    )
}
