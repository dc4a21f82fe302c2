ghost use Rattle.std.specs.Prelude.{◌≡◌, ℕ, List, filter, IfOk};
ghost use Rattle.od_merge.specs.Sides.{at, entry_passes, is_kept, is_skipped, paths_of};
ghost use Rattle.od_synclist.specs.Rules.{passes_file};
ghost use Rattle.od_reconcile.specs.Ready.{IsReadySide, kept_by};

use crate::entries::{content_at, index, is_folder};
use crate::folders::{from_all, has};
use gd_names::{NoMemory, Path};
use od_merge::Content;
use od_synclist::Rules;
use std::alloc::Global;
use std::collections::{BTreeMap, BTreeSet};

/// One side of a merge: its entries, what it has at each path, and the paths from which on something passes.
#[derive(Drop)]
pub struct Side<'a> {
    pub tree: &'a [(Path, Content)],
    pub index: BTreeMap<Path, Content>,
    pub kept: BTreeSet<Path>,
}

fn passing_paths(
    alloc: Global,
    rules: &Rules,
    tree: &[(Path, Content)],
) -> Result<Vec<Path>, NoMemory>
    ensures { IfOk result (λ found. found.items ≡ paths_of (filter (entry_passes (passes_file rules.now)) tree.now)) }
{
    let mut found = Vec::new(alloc);
    for entry in tree {
        if rules.passes(&entry.0, is_folder(Some(entry.1))) {
            found.push(entry.0.clone()?)?;
        }
    }
    Ok(found)
}

/// Makes a side ready.
pub(crate) fn side_of<'a>(
    alloc: Global,
    rules: &Rules,
    tree: &'a [(Path, Content)],
) -> Result<Side<'a>, NoMemory>
    ensures ready { IfOk result (λ side. IsReadySide rules.now side) }
    ensures tree { IfOk result (λ side. side.tree.now ≡ tree.now) }
{
    let index = index(alloc, tree)?;
    let passing = passing_paths(alloc, rules, tree)?;
    let kept = from_all(alloc, passing.as_slice())?;
    Ok(Side { tree, index, kept })
}

/// What a side has at a path.
pub(crate) fn standing(rules: &Rules, side: &Side<'_>, path: &Path) -> Option<Content>
    requires { IsReadySide rules.now side.now }
    ensures { result ≡ at side.now.tree.now path.now }
{
    content_at(&side.index, path)
}

fn kept_by(rules: &Rules, path: &Path, folder: bool, content: Option<Content>) -> bool
    ensures { result ≡ kept_by (passes_file rules.now) path.now folder content }
{
    match content {
        None => false,
        Some(Content::Folder) => folder,
        Some(Content::File(_)) => rules.passes(path, false),
    }
}

/// Whether what a side has at a path is kept.
pub(crate) fn is_kept(rules: &Rules, side: &Side<'_>, path: &Path) -> bool
    requires { IsReadySide rules.now side.now }
    ensures { result ≡ is_kept (passes_file rules.now) side.now.tree.now path.now }
{
    kept_by(
        rules,
        path,
        has(&side.kept, path),
        standing(rules, side, path),
    )
}

/// Whether a side has something at a path that is not kept.
pub(crate) fn is_skipped(rules: &Rules, side: &Side<'_>, path: &Path) -> bool
    requires { IsReadySide rules.now side.now }
    ensures { result ≡ is_skipped (passes_file rules.now) side.now.tree.now path.now }
{
    standing(rules, side, path).is_some() && !is_kept(rules, side, path)
}
