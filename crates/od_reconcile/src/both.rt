ghost use Rattle.std.specs.Prelude.{◌≡◌, ℕ, List, cond, IfOk, OnOk, [], None, Some};
ghost use Rattle.od_merge.specs.Merging.{is_changed, is_changed_or_skipped};
ghost use Rattle.od_merge.specs.Sides.{agreed_by, agreed_content, has_landed, is_kept_there, is_path, row_at};
ghost use Rattle.od_reconcile.specs.Above.{or_else};
ghost use Rattle.od_reconcile.specs.Ready.{IsBothReady, sides_found, mark_at, mark_or};

use crate::entries::is_same;
use crate::side::{Side, is_kept, is_skipped, side_of, standing};
use gd_item::Digest;
use gd_names::{NoMemory, Path};
use od_keeper::{Agreed, BaseRow};
use od_merge::Content;
use od_synclist::Rules;
use std::alloc::Global;
use std::collections::BTreeMap;

/// Both sides as they were found, and what was agreed on.
#[derive(Drop)]
pub struct Both<'a> {
    pub rules: &'a Rules,
    pub rows: &'a [BaseRow],
    pub marks: BTreeMap<Path, (Agreed, Option<Digest>)>,
    pub here: Side<'a>,
    pub there: Side<'a>,
}

/// Puts a row's mark at its path, where none stands.
fn put_absent(
    marks: &mut BTreeMap<Path, (Agreed, Option<Digest>)>,
    row: &BaseRow,
) -> Result<(), NoMemory>
    ensures { OnOk result ((path : List (List ℕ)) → mark_at marks.new.entries path
        ≡ or_else (mark_at marks.old.entries path) (cond (is_path row.now.path path) (Some (row.now.what, row.now.flight)) None)) }
{
    if marks.contains_key(&row.path) {
        return Ok(());
    }
    marks.insert(row.path.clone()?, (row.what, row.flight))?;
    Ok(())
}

/// What was agreed on at each path, and what is on its way. The first row of a path counts.
fn marks_of(
    alloc: Global,
    rows: &[BaseRow],
) -> Result<BTreeMap<Path, (Agreed, Option<Digest>)>, NoMemory>
    ensures { IfOk result (λ marks. (path : List (List ℕ)) → mark_or (mark_at marks.entries path) (row_at [] path) ≡ mark_or None (row_at rows.now path)) }
{
    let mut marks = BTreeMap::new(alloc);
    for row in rows {
        put_absent(&mut marks, row)?;
    }
    Ok(marks)
}

/// Makes both sides ready.
pub(crate) fn both_of<'a>(
    alloc: Global,
    rules: &'a Rules,
    rows: &'a [BaseRow],
    local: &'a [(Path, Content)],
    remote: &'a [(Path, Content)],
) -> Result<Both<'a>, NoMemory>
    ensures ready { IfOk result (λ both. IsBothReady both) }
    ensures rules { IfOk result (λ both. both.rules.now ≡ rules.now) }
    ensures rows { IfOk result (λ both. both.rows.now ≡ rows.now) }
    ensures here { IfOk result (λ both. both.here.tree.now ≡ local.now) }
    ensures there { IfOk result (λ both. both.there.tree.now ≡ remote.now) }
{
    let marks = marks_of(alloc, rows)?;
    let here = side_of(alloc, rules, local)?;
    let there = side_of(alloc, rules, remote)?;
    Ok(Both {
        rules,
        rows,
        marks,
        here,
        there,
    })
}

fn has_landed(flight: Option<Digest>, there: Option<Content>) -> bool
    ensures { result ≡ has_landed flight there }
{
    match flight {
        None => false,
        Some(digest) => is_same(Some(Content::File(Some(digest))), there),
    }
}

fn agreed_content(what: Agreed) -> Option<Content>
    ensures { result ≡ agreed_content what }
{
    match what {
        Agreed::Nothing => None,
        Agreed::Folder => Some(Content::Folder),
        Agreed::File(digest) => Some(Content::File(Some(digest))),
    }
}

fn agreed_by(
    mark: (Agreed, Option<Digest>),
    kept: bool,
    here: Option<Content>,
    there: Option<Content>,
) -> Option<Content>
    ensures { result ≡ agreed_by (record { path = []; what = mark.0; flight = mark.1 }) kept here there }
{
    if has_landed(mark.1, there) || kept && here.is_some() && is_same(here, there) {
        there
    } else if mark.1.is_none() && here.is_none() && there.is_none() {
        None
    } else {
        agreed_content(mark.0)
    }
}

fn mark_on(
    marks: &BTreeMap<Path, (Agreed, Option<Digest>)>,
    path: &Path,
) -> (Agreed, Option<Digest>)
    ensures { result ≡ mark_or (mark_at marks.now.entries path.now) (row_at [] path.now) }
{
    match marks.get(path) {
        Some(mark) => *mark,
        None => (Agreed::Nothing, None),
    }
}

/// Whether something is kept at a path on either side.
pub(crate) fn is_kept_there(both: &Both<'_>, path: &Path) -> bool
    requires { IsBothReady both.now }
    ensures { result ≡ is_kept_there (sides_found both.now) path.now }
{
    is_kept(both.rules, &both.here, path) || is_kept(both.rules, &both.there, path)
}

/// What both sides agree on at a path.
pub(crate) fn base_at(both: &Both<'_>, path: &Path) -> Option<Content>
    requires { IsBothReady both.now }
    ensures { result ≡ (sides_found both.now).base path.now }
{
    agreed_by(
        mark_on(&both.marks, path),
        is_kept_there(both, path),
        standing(both.rules, &both.here, path),
        standing(both.rules, &both.there, path),
    )
}

/// Whether what the folder has at a path is unlike what was agreed on.
pub(crate) fn is_changed(both: &Both<'_>, path: &Path) -> bool
    requires { IsBothReady both.now }
    ensures { result ≡ is_changed (sides_found both.now) path.now }
{
    !is_same(standing(both.rules, &both.here, path), base_at(both, path))
}

pub(crate) fn is_changed_or_skipped(both: &Both<'_>, path: &Path) -> bool
    requires { IsBothReady both.now }
    ensures { result ≡ is_changed_or_skipped (sides_found both.now) path.now }
{
    is_changed(both, path) || is_skipped(both.rules, &both.here, path)
}
