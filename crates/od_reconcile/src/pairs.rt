ghost use Rattle.std.specs.Prelude.{◌≡◌, ℕ, List, [], filter, IfOk, OnOk};
ghost use Rattle.od_merge.specs.Pairs.{and_pair, comes_there, drive_pairs, folder_of, is_sent_now, local_pairs};
ghost use Rattle.od_reconcile.specs.Holding.{IsLimiter, IsSpelt, limiter_limits, limiter_sides};
ghost use Rattle.od_reconcile.specs.Looks.{HasStuck, IsReady, merge_sides};
ghost use Rattle.od_reconcile.specs.Moving.{coming_paths, is_source_here, is_source_there, is_target_here, is_target_there};
ghost use Rattle.od_reconcile.specs.Queues.{AddsPair, IsQueued, all_sources_here, all_sources_there, slot_here, slot_there};

use crate::both::base_at;
use crate::entries::{digest_of, is_file, is_same};
use crate::holding::{Limiter, why_held};
use crate::listing::{is_fetched, is_sent, needs_folder};
use crate::look::{Look, is_going, stuck_on, target};
use crate::merge::{here_at, there_at};
use crate::queues::{Queue, Slot, push_source, slot_by, take_source};
use crate::spelling::{lower_path, spelt_of};
use crate::taken::split_last;
use gd_item::Digest;
use gd_names::{NoMemory, Path};
use std::alloc::Global;
use std::collections::BTreeMap;

fn push_pair(pairs: &mut Vec<(Path, Path)>, from: Option<Path>, to: &Path) -> Result<(), NoMemory>
    ensures { OnOk result (pairs.new.items ≡ and_pair from to.now pairs.old.items) }
{
    match from {
        Some(from) => {
            pairs.push((from, to.clone()?))?;
            Ok(())
        }
        None => Ok(()),
    }
}

/// Adds the pair that comes to a path, if a source waits that may go there for bytes of the digest.
fn add_pair(
    queues: &mut BTreeMap<Slot, Queue>,
    digest: Option<Digest>,
    pairs: &mut Vec<(Path, Path)>,
    to: &Path,
) -> Result<(), NoMemory>
    ensures { OnOk result (AddsPair digest to.now pairs.old.items pairs.new.items queues.old.entries queues.new.entries) }
{
    let from = take_source(queues, digest, to)?;
    push_pair(pairs, from, to)?;
    Ok(())
}

/// The files that go from the folder.
fn sources_here(alloc: Global, look: &Look<'_>) -> Result<Vec<Path>, NoMemory>
    requires { IsReady look.now }
    ensures { IfOk result (λ found. found.items ≡ filter (is_source_here (merge_sides look.now.merge.now)) look.now.paths.keys) }
{
    let merge = look.merge;
    let stuck = stuck_on(alloc, look, merge.here)?;
    let mut found = Vec::new(alloc);
    for path in look.paths.iter() {
        if is_going(look, merge.here, &stuck, path) && is_file(here_at(merge, path)) {
            found.push(path.clone()?)?;
        }
    }
    Ok(found)
}

fn targets_here(alloc: Global, look: &Look<'_>) -> Result<Vec<Path>, NoMemory>
    requires { IsReady look.now }
    ensures { IfOk result (λ found. found.items ≡ filter (is_target_here (merge_sides look.now.merge.now)) look.now.paths.keys) }
{
    let mut found = Vec::new(alloc);
    for path in look.paths.iter() {
        if is_fetched(look, path) && !is_file(here_at(look.merge, path)) {
            found.push(path.clone()?)?;
        }
    }
    Ok(found)
}

/// Where a file of the folder waits.
fn slot_here(look: &Look<'_>, path: &Path) -> Result<Option<Slot>, NoMemory>
    requires { IsReady look.now }
    ensures { IfOk result (λ slot. slot ≡ slot_here (merge_sides look.now.merge.now) path.now) }
{
    let slot = slot_by(digest_of(here_at(look.merge, path)), None)?;
    Ok(slot)
}

/// The files that go from the folder, in queues.
fn queues_here(alloc: Global, look: &Look<'_>) -> Result<BTreeMap<Slot, Queue>, NoMemory>
    requires { IsReady look.now }
    ensures { IfOk result (λ queues. IsQueued (slot_here (merge_sides look.now.merge.now)) (all_sources_here (merge_sides look.now.merge.now)) [] queues.entries) }
{
    let sources = sources_here(alloc, look)?;
    let mut queues = BTreeMap::new(alloc);
    for path in sources.as_slice() {
        let slot = slot_here(look, path)?;
        push_source(alloc, &mut queues, slot, path)?;
    }
    Ok(queues)
}

/// What moves in the folder, in the order of the new paths.
pub(crate) fn local_pairs(alloc: Global, look: &Look<'_>) -> Result<Vec<(Path, Path)>, NoMemory>
    requires { IsReady look.now }
    ensures { IfOk result (λ pairs. pairs.items ≡ local_pairs (merge_sides look.now.merge.now)) }
{
    let mut queues = queues_here(alloc, look)?;
    let targets = targets_here(alloc, look)?;
    let mut pairs = Vec::new(alloc);
    for to in targets.as_slice() {
        let digest = digest_of(target(look, to));
        add_pair(&mut queues, digest, &mut pairs, to)?;
    }
    Ok(pairs)
}

/// The files that go from the drive.
fn sources_there(alloc: Global, limiter: &Limiter<'_>) -> Result<Vec<Path>, NoMemory>
    requires { IsLimiter limiter.now }
    ensures { IfOk result (λ found. found.items ≡ filter (is_source_there (limiter_sides limiter.now)) limiter.now.look.now.paths.keys) }
{
    let look = limiter.look;
    let merge = look.merge;
    let both = merge.both;
    let mut found = Vec::new(alloc);
    for path in look.paths.iter() {
        if is_going(look, &both.there, &limiter.stuck, path) && is_file(there_at(merge, path)) {
            found.push(path.clone()?)?;
        }
    }
    Ok(found)
}

pub(crate) fn is_sent_now(
    alloc: Global,
    limiter: &Limiter<'_>,
    path: &Path,
) -> Result<bool, NoMemory>
    requires { IsLimiter limiter.now }
    ensures { IfOk result (λ sent. sent ≡ is_sent_now (limiter_limits limiter.now) (limiter_sides limiter.now) path.now) }
{
    let why = why_held(alloc, limiter, path)?;
    Ok(is_sent(limiter.look, path) && why.is_none())
}

fn comes_there(alloc: Global, limiter: &Limiter<'_>, path: &Path) -> Result<bool, NoMemory>
    requires { IsLimiter limiter.now }
    ensures { IfOk result (λ comes. comes ≡ comes_there (limiter_limits limiter.now) (limiter_sides limiter.now) path.now) }
{
    let look = limiter.look;
    let merge = look.merge;
    let both = merge.both;
    let sent = is_sent_now(alloc, limiter, path)?;
    let why = why_held(alloc, limiter, path)?;
    Ok(sent || needs_folder(look, &both.there, path) && why.is_none())
}

/// The paths to which something comes on the drive.
fn coming_paths(alloc: Global, limiter: &Limiter<'_>) -> Result<Vec<Path>, NoMemory>
    requires { IsLimiter limiter.now }
    ensures { IfOk result (λ found. found.items ≡ filter (comes_there (limiter_limits limiter.now) (limiter_sides limiter.now)) limiter.now.look.now.paths.keys) }
{
    let look = limiter.look;
    let mut found = Vec::new(alloc);
    for path in look.paths.iter() {
        let comes = comes_there(alloc, limiter, path)?;
        if comes {
            found.push(path.clone()?)?;
        }
    }
    Ok(found)
}

fn is_target_there(alloc: Global, limiter: &Limiter<'_>, path: &Path) -> Result<bool, NoMemory>
    requires { IsLimiter limiter.now }
    ensures { IfOk result (λ is. is ≡ is_target_there (limiter_limits limiter.now) (limiter_sides limiter.now) path.now) }
{
    let look = limiter.look;
    let sent = is_sent_now(alloc, limiter, path)?;
    let target = target(look, path);
    Ok(sent && !is_file(there_at(look.merge, path)) && is_same(target, target))
}

fn targets_there(alloc: Global, limiter: &Limiter<'_>) -> Result<Vec<Path>, NoMemory>
    requires { IsLimiter limiter.now }
    ensures { IfOk result (λ found. found.items ≡ filter (is_target_there (limiter_limits limiter.now) (limiter_sides limiter.now)) limiter.now.look.now.paths.keys) }
{
    let look = limiter.look;
    let mut found = Vec::new(alloc);
    for path in look.paths.iter() {
        let is = is_target_there(alloc, limiter, path)?;
        if is {
            found.push(path.clone()?)?;
        }
    }
    Ok(found)
}

fn folder_of(alloc: Global, path: &Path) -> Result<Path, NoMemory>
    ensures { IfOk result (λ folder. folder ≡ folder_of path.now) }
{
    let Some(parts) = split_last(path)? else {
        return Ok(Path::root(alloc));
    };
    let (above, _last) = parts;
    Ok(Path::from_names(above))
}

/// Where a file of the drive waits, given what comes by its spelling but for case. It may not go with its folder, nor where
/// another path has its spelling by then.
fn slot_there(
    alloc: Global,
    limiter: &Limiter<'_>,
    coming: &BTreeMap<Path, (Path, bool)>,
    path: &Path,
) -> Result<Option<Slot>, NoMemory>
    requires { IsLimiter limiter.now }
    ensures { IfOk result (λ slot. slot ≡ slot_there (limiter_sides limiter.now) coming.now.entries path.now) }
{
    let look = limiter.look;
    let merge = look.merge;
    let both = merge.both;
    let folder = folder_of(alloc, path)?;
    if is_going(look, &both.there, &limiter.stuck, &folder) {
        return Ok(None);
    }
    let key = lower_path(alloc, path)?;
    let slot = slot_by(digest_of(base_at(both, path)), coming.get(&key))?;
    Ok(slot)
}

/// The files that go from the drive, in queues.
fn queues_there(
    alloc: Global,
    limiter: &Limiter<'_>,
    coming: &BTreeMap<Path, (Path, bool)>,
) -> Result<BTreeMap<Slot, Queue>, NoMemory>
    requires { IsLimiter limiter.now }
    ensures { IfOk result (λ queues. IsQueued (slot_there (limiter_sides limiter.now) coming.now.entries) (all_sources_there (limiter_sides limiter.now)) [] queues.entries) }
{
    let sources = sources_there(alloc, limiter)?;
    let mut queues = BTreeMap::new(alloc);
    for path in sources.as_slice() {
        let slot = slot_there(alloc, limiter, coming, path)?;
        push_source(alloc, &mut queues, slot, path)?;
    }
    Ok(queues)
}

/// What comes to the drive, by its spelling but for case.
fn coming_of(alloc: Global, limiter: &Limiter<'_>) -> Result<BTreeMap<Path, (Path, bool)>, NoMemory>
    requires { IsLimiter limiter.now }
    ensures { IfOk result (λ index. IsSpelt (coming_paths (limiter_limits limiter.now) (limiter_sides limiter.now)) index.entries) }
{
    let coming = coming_paths(alloc, limiter)?;
    let index = spelt_of(alloc, coming.as_slice())?;
    Ok(index)
}

/// What moves on the drive, in the order of the new paths.
pub(crate) fn drive_pairs(
    alloc: Global,
    limiter: &Limiter<'_>,
) -> Result<Vec<(Path, Path)>, NoMemory>
    requires { IsLimiter limiter.now }
    ensures { IfOk result (λ pairs. pairs.items ≡ drive_pairs (limiter_limits limiter.now) (limiter_sides limiter.now)) }
{
    let look = limiter.look;
    let coming = coming_of(alloc, limiter)?;
    let mut queues = queues_there(alloc, limiter, &coming)?;
    let targets = targets_there(alloc, limiter)?;
    let mut pairs = Vec::new(alloc);
    for to in targets.as_slice() {
        let digest = digest_of(target(look, to));
        add_pair(&mut queues, digest, &mut pairs, to)?;
    }
    Ok(pairs)
}
