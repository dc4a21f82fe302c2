ghost use Rattle.std.specs.Prelude.{◌≡◌, ◌&&◌, ◌++◌, not, ℕ, List, [], ◌∷◌, map, filter, is_some, ◌||◌, IfOk, OnOk};
ghost use Rattle.std.specs.List.{list_any, filter_map};
ghost use Rattle.std.specs.Option.{option_map, option_to_list};
ghost use Rattle.gd_names.specs.Causes.{first_cause};
ghost use Rattle.gd_names.specs.Names.{name_fault};
ghost use Rattle.od_merge.specs.Core.{is_in};
ghost use Rattle.od_merge.specs.Merging.{first_held, is_barred, is_local_alone, target, own_cause, prefixes, why_held};
ghost use Rattle.od_merge.specs.Sides.{is_file, is_kept};
ghost use Rattle.od_merge.specs.declared.why.Why.TheVariants.{BadName, PathTooLong, TooLarge, CaseClash, NoCopyName, Quota};
ghost use Rattle.od_reconcile.specs.Holding.{IsLeast, IsLimiter, IsSpelt, has_bad_name, has_target, held_list, held_of, is_large, limiter_limits, limiter_sides, limits_of, stays_there};
ghost use Rattle.od_reconcile.specs.Looks.{HasStuck, IsReady, merge_sides};

use crate::entries::{is_file, is_other_kind, is_same};
use crate::folders::{has, set_of};
use crate::look::{Look, is_going, stuck_on, target};
use crate::merge::{here_at, is_left, there_at};
use crate::side::is_kept;
use crate::spelling::{has_other, is_before, least_of, lower_path, spelt_of};
use crate::types::{Held, Node};
use gd_names::{List, NoMemory, Path, Text, check_name, path_fits};
use od_merge::Why;
use std::alloc::Global;
use std::collections::{BTreeMap, BTreeSet};

/// A look with what bars entries from the drive.
#[derive(Drop)]
pub struct Limiter<'a> {
    pub look: &'a Look<'a>,
    pub quota: &'a [Path],
    pub entries: &'a [(Path, Node)],
    pub stuck: BTreeSet<Path>,
    pub full: BTreeSet<Path>,
    pub large: BTreeSet<Path>,
    pub staying: BTreeMap<Path, (Path, bool)>,
    pub least: BTreeMap<Path, Path>,
}

fn is_large(node: Node) -> bool
    ensures { result ≡ is_large node }
{
    match node {
        Node::Folder => false,
        Node::File { size, .. } => size > 67_108_864,
    }
}

fn large_paths(alloc: Global, entries: &[(Path, Node)]) -> Result<Vec<Path>, NoMemory>
    ensures { IfOk result (λ found. found.items ≡ map (λ (entry : List (List ℕ) × Node). entry.0) (filter (λ (entry : List (List ℕ) × Node). is_large entry.1) entries.now)) }
{
    let mut found = Vec::new(alloc);
    for entry in entries {
        if is_large(entry.1) {
            found.push(entry.0.clone()?)?;
        }
    }
    Ok(found)
}

fn is_bad_name(name: &Text) -> bool
    ensures { result ≡ is_some (name_fault name.now) }
{
    match check_name(name) {
        Ok(()) => false,
        Err(_) => true,
    }
}

fn has_bad_name(path: &Path) -> bool
    ensures { result ≡ has_bad_name path.now }
{
    for name in path.names() {
        if is_bad_name(name) {
            return true;
        }
    }
    false
}

/// Whether the drive keeps what it has at a path.
fn stays_there(look: &Look<'_>, stuck: &BTreeSet<Path>, path: &Path) -> bool
    requires ready { IsReady look.now }
    requires stuck { HasStuck (merge_sides look.now.merge.now) (merge_sides look.now.merge.now).remote stuck.now.keys }
    ensures { result ≡ stays_there (merge_sides look.now.merge.now) path.now }
{
    let merge = look.merge;
    let both = merge.both;
    there_at(merge, path).is_some() && !is_going(look, &both.there, stuck, path)
}

/// The paths at which the drive keeps what it has.
fn kept_paths(alloc: Global, look: &Look<'_>, stuck: &BTreeSet<Path>) -> Result<Vec<Path>, NoMemory>
    requires ready { IsReady look.now }
    requires stuck { HasStuck (merge_sides look.now.merge.now) (merge_sides look.now.merge.now).remote stuck.now.keys }
    ensures { IfOk result (λ found. found.items ≡ filter (stays_there (merge_sides look.now.merge.now)) look.now.paths.keys) }
{
    let mut found = Vec::new(alloc);
    for path in look.paths.iter() {
        if stays_there(look, stuck, path) {
            found.push(path.clone()?)?;
        }
    }
    Ok(found)
}

/// The paths at which something is to stand.
fn target_paths(alloc: Global, look: &Look<'_>) -> Result<Vec<Path>, NoMemory>
    requires { IsReady look.now }
    ensures { IfOk result (λ found. found.items ≡ filter (has_target (merge_sides look.now.merge.now)) look.now.paths.keys) }
{
    let mut found = Vec::new(alloc);
    for path in look.paths.iter() {
        if target(look, path).is_some() {
            found.push(path.clone()?)?;
        }
    }
    Ok(found)
}

/// What the drive keeps, by its spelling but for case.
fn staying_of(
    alloc: Global,
    look: &Look<'_>,
    stuck: &BTreeSet<Path>,
) -> Result<BTreeMap<Path, (Path, bool)>, NoMemory>
    requires ready { IsReady look.now }
    requires stuck { HasStuck (merge_sides look.now.merge.now) (merge_sides look.now.merge.now).remote stuck.now.keys }
    ensures { IfOk result (λ index. IsSpelt (filter (stays_there (merge_sides look.now.merge.now)) look.now.paths.keys) index.entries) }
{
    let kept = kept_paths(alloc, look, stuck)?;
    let index = spelt_of(alloc, kept.as_slice())?;
    Ok(index)
}

/// The least of the paths at which something is to stand, by its spelling but for case.
fn least_targets(alloc: Global, look: &Look<'_>) -> Result<BTreeMap<Path, Path>, NoMemory>
    requires { IsReady look.now }
    ensures { IfOk result (λ index. IsLeast (filter (has_target (merge_sides look.now.merge.now)) look.now.paths.keys) index.entries) }
{
    let targets = target_paths(alloc, look)?;
    let index = least_of(alloc, targets.as_slice())?;
    Ok(index)
}

/// Makes ready what bars entries from the drive.
pub(crate) fn limiter_of<'a>(
    alloc: Global,
    look: &'a Look<'a>,
    quota: &'a [Path],
    entries: &'a [(Path, Node)],
) -> Result<Limiter<'a>, NoMemory>
    requires { IsReady look.now }
    ensures ready { IfOk result (λ limiter. IsLimiter limiter) }
    ensures look { IfOk result (λ limiter. limiter.look.now ≡ look.now) }
    ensures quota { IfOk result (λ limiter. limiter.quota.now ≡ quota.now) }
    ensures entries { IfOk result (λ limiter. limiter.entries.now ≡ entries.now) }
{
    let merge = look.merge;
    let both = merge.both;
    let stuck = stuck_on(alloc, look, &both.there)?;
    let full = set_of(alloc, quota)?;
    let found = large_paths(alloc, entries)?;
    let large = set_of(alloc, found.as_slice())?;
    let staying = staying_of(alloc, look, &stuck)?;
    let least = least_targets(alloc, look)?;
    Ok(Limiter {
        look,
        quota,
        entries,
        stuck,
        full,
        large,
        staying,
        least,
    })
}

fn is_taken(kept: bool, smaller: bool) -> bool
    ensures { result ≡ (kept || smaller) }
{
    kept || smaller
}

/// Whether another path is this one, spelt otherwise, and has its place on the drive.
fn is_barred(alloc: Global, limiter: &Limiter<'_>, path: &Path) -> Result<bool, NoMemory>
    requires { IsLimiter limiter.now }
    ensures { IfOk result (λ barred. barred ≡ is_barred (limiter_limits limiter.now) (limiter_sides limiter.now) path.now) }
{
    let key = lower_path(alloc, path)?;
    let kept = has_other(limiter.staying.get(&key), path);
    let smaller = is_before(limiter.least.get(&key), path);
    Ok(is_taken(kept, smaller))
}

/// Whether a path, or that of a folder above it, has its place taken by another spelling.
fn is_clashing(alloc: Global, limiter: &Limiter<'_>, path: &Path) -> Result<bool, NoMemory>
    requires { IsLimiter limiter.now }
    ensures { IfOk result (λ clashing. clashing ≡ list_any (is_barred (limiter_limits limiter.now) (limiter_sides limiter.now)) (prefixes path.now)) }
{
    let mut above: List<Text> = List::new(alloc);
    for name in path.names() {
        above.push(name.clone()?)?;
        let prefix = Path::from_names(above.clone()?);
        let barred = is_barred(alloc, limiter, &prefix)?;
        if barred {
            return Ok(true);
        }
    }
    Ok(false)
}

/// Whether what is to stand at a path is what the folder alone has.
fn is_local_alone(look: &Look<'_>, path: &Path) -> bool
    requires { IsReady look.now }
    ensures { result ≡ is_local_alone (merge_sides look.now.merge.now) path.now }
{
    let target = target(look, path);
    let here = here_at(look.merge, path);
    target.is_some()
        && !is_same(target, there_at(look.merge, path))
        && !is_other_kind(target, here)
        && here.is_some()
}

fn first_cause(
    bad_name: bool,
    too_long: bool,
    too_large: bool,
    clashing: bool,
    full: bool,
) -> Option<Why>
    ensures { result ≡ first_cause ((bad_name, BadName) ∷ (too_long, PathTooLong) ∷ (too_large, TooLarge) ∷ (clashing, CaseClash) ∷ (full, Quota) ∷ []) }
{
    if bad_name {
        Some(Why::BadName)
    } else if too_long {
        Some(Why::PathTooLong)
    } else if too_large {
        Some(Why::TooLarge)
    } else if clashing {
        Some(Why::CaseClash)
    } else if full {
        Some(Why::Quota)
    } else {
        None
    }
}

fn is_too_large(limiter: &Limiter<'_>, path: &Path) -> bool
    requires { IsLimiter limiter.now }
    ensures { result ≡ (is_file (target (limiter_sides limiter.now) path.now) && (limiter_limits limiter.now).too_large path.now) }
{
    is_file(target(limiter.look, path)) && has(&limiter.large, path)
}

/// Why an entry is held for its own sake.
fn own_cause(alloc: Global, limiter: &Limiter<'_>, path: &Path) -> Result<Option<Why>, NoMemory>
    requires { IsLimiter limiter.now }
    ensures { IfOk result (λ why. why ≡ own_cause (limiter_limits limiter.now) (limiter_sides limiter.now) path.now) }
{
    if !is_local_alone(limiter.look, path) {
        return Ok(None);
    }
    let clashing = is_clashing(alloc, limiter, path)?;
    Ok(first_cause(
        has_bad_name(path),
        !path_fits(path),
        is_too_large(limiter, path),
        clashing,
        has(&limiter.full, path),
    ))
}

/// Why the topmost of a path and the folders above it that is held is held.
fn first_held(alloc: Global, limiter: &Limiter<'_>, path: &Path) -> Result<Option<Why>, NoMemory>
    requires { IsLimiter limiter.now }
    ensures { IfOk result (λ why. why ≡ first_held (limiter_limits limiter.now) (limiter_sides limiter.now) (prefixes path.now)) }
{
    let mut above: List<Text> = List::new(alloc);
    for name in path.names() {
        above.push(name.clone()?)?;
        let prefix = Path::from_names(above.clone()?);
        let why = own_cause(alloc, limiter, &prefix)?;
        if why.is_some() {
            return Ok(why);
        }
    }
    Ok(None)
}

/// Whether what the folder has at or below a conflict without a copy name is held.
fn is_left_here(look: &Look<'_>, path: &Path) -> bool
    requires { IsReady look.now }
    ensures { result ≡ (is_kept (merge_sides look.now.merge.now).passes (merge_sides look.now.merge.now).local path.now || is_in path.now (merge_sides look.now.merge.now).left) }
{
    let merge = look.merge;
    is_kept(merge.both.rules, merge.here, path) || is_one_of(merge.left, path)
}

fn is_one_of(paths: &[Path], path: &Path) -> bool
    ensures { result ≡ is_in path.now paths.now }
{
    for other in paths {
        if *path == *other {
            return true;
        }
    }
    false
}

/// Why an entry is held, if it is.
pub(crate) fn why_held(
    alloc: Global,
    limiter: &Limiter<'_>,
    path: &Path,
) -> Result<Option<Why>, NoMemory>
    requires { IsLimiter limiter.now }
    ensures { IfOk result (λ why. why ≡ why_held (limiter_limits limiter.now) (limiter_sides limiter.now) path.now) }
{
    let look = limiter.look;
    if is_left(look.merge, path) {
        if is_left_here(look, path) {
            return Ok(Some(Why::NoCopyName));
        }
        return Ok(None);
    }
    if target(look, path).is_none() {
        return Ok(None);
    }
    first_held(alloc, limiter, path)
}

fn push_held(held: &mut List<Held>, path: &Path, why: Option<Why>) -> Result<(), NoMemory>
    ensures { OnOk result (held.new ≡ held.old ++ option_to_list (option_map (λ why. record { path = path.now; why = why }) why)) }
{
    match why {
        Some(why) => {
            held.push(Held {
                path: path.clone()?,
                why,
            })?;
            Ok(())
        }
        None => Ok(()),
    }
}

/// The held entries, in order of path.
pub(crate) fn held(alloc: Global, limiter: &Limiter<'_>) -> Result<List<Held>, NoMemory>
    requires { IsLimiter limiter.now }
    ensures { IfOk result (λ held. held ≡ held_list (limiter_limits limiter.now) (limiter_sides limiter.now)) }
{
    let look = limiter.look;
    let mut held = List::new(alloc);
    for path in look.paths.iter() {
        let why = why_held(alloc, limiter, path)?;
        push_held(&mut held, path, why)?;
    }
    Ok(held)
}
