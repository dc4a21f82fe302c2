ghost use Rattle.std.specs.Prelude.{◌≡◌, ◌++◌, ℕ, List, [], IfOk, OnOk};
ghost use Rattle.std.specs.List.{filter_map};
ghost use Rattle.od_merge.specs.Steps.{deepest_first};
ghost use Rattle.od_reconcile.specs.Holding.{IsLimiter, limiter_limits, limiter_sides};
ghost use Rattle.od_reconcile.specs.Looks.{IsReady, merge_sides};
ghost use Rattle.od_reconcile.specs.Moving.{IsEnds};
ghost use Rattle.od_reconcile.specs.Plans.{down_list, fetch_here, folder_here, folder_there, patch_there, removal_here, removal_there, send_there, up_list};

use crate::ends::{Ends, ends_of};
use crate::holding::Limiter;
use crate::listing::{
    deepest_first, fetch_here, folder_here, folder_there, patch_there, push_if_some, removal_here,
    removal_there, send_there,
};
use crate::look::{Look, stuck_on};
use crate::pairs::{drive_pairs, local_pairs};
use crate::types::{Down, Up};
use gd_item::Item;
use gd_names::{List, NoMemory, Path};
use std::alloc::Global;
use std::collections::BTreeMap;

/// Adds what goes from the folder.
fn add_removals_here(
    alloc: Global,
    look: &Look<'_>,
    ends: &Ends<'_>,
    paths: &[Path],
    down: &mut List<Down>,
) -> Result<(), NoMemory>
    requires ready { IsReady look.now }
    requires ends { IsEnds ends.now }
    ensures { OnOk result (down.new ≡ down.old ++ filter_map (removal_here (merge_sides look.now.merge.now) ends.now.pairs.now) paths.now) }
{
    let merge = look.merge;
    let stuck = stuck_on(alloc, look, merge.here)?;
    for path in paths {
        let step = removal_here(look, &stuck, ends, path)?;
        push_if_some(down, step)?;
    }
    Ok(())
}

fn add_folders_here(look: &Look<'_>, down: &mut List<Down>) -> Result<(), NoMemory>
    requires { IsReady look.now }
    ensures { OnOk result (down.new ≡ down.old ++ filter_map (folder_here (merge_sides look.now.merge.now)) look.now.paths.keys) }
{
    for path in look.paths.iter() {
        let step = folder_here(look, path)?;
        push_if_some(down, step)?;
    }
    Ok(())
}

fn add_fetches(
    look: &Look<'_>,
    items: &BTreeMap<Path, Item>,
    ends: &Ends<'_>,
    down: &mut List<Down>,
) -> Result<(), NoMemory>
    requires ready { IsReady look.now }
    requires ends { IsEnds ends.now }
    ensures { OnOk result (down.new ≡ down.old ++ filter_map (fetch_here (merge_sides look.now.merge.now) items.now.entries ends.now.pairs.now) look.now.paths.keys) }
{
    for path in look.paths.iter() {
        let step = fetch_here(look, items, ends, path)?;
        push_if_some(down, step)?;
    }
    Ok(())
}

/// What is to be done in the folder.
pub(crate) fn down_list(
    alloc: Global,
    look: &Look<'_>,
    items: &BTreeMap<Path, Item>,
) -> Result<List<Down>, NoMemory>
    requires { IsReady look.now }
    ensures { IfOk result (λ down. down ≡ down_list (merge_sides look.now.merge.now) items.now.entries) }
{
    let deepest = deepest_first(alloc, &look.paths)?;
    let pairs = local_pairs(alloc, look)?;
    let ends = ends_of(alloc, pairs.as_slice())?;
    let mut down = List::new(alloc);
    add_removals_here(alloc, look, &ends, deepest.as_slice(), &mut down)?;
    add_folders_here(look, &mut down)?;
    add_fetches(look, items, &ends, &mut down)?;
    Ok(down)
}

/// Adds what goes from the drive.
fn add_removals_there(
    limiter: &Limiter<'_>,
    items: &BTreeMap<Path, Item>,
    ends: &Ends<'_>,
    paths: &[Path],
    up: &mut List<Up>,
) -> Result<(), NoMemory>
    requires limiter { IsLimiter limiter.now }
    requires ends { IsEnds ends.now }
    ensures { OnOk result (up.new ≡ up.old ++ filter_map (removal_there (limiter_sides limiter.now) items.now.entries ends.now.pairs.now) paths.now) }
{
    for path in paths {
        let step = removal_there(limiter, items, ends, path)?;
        push_if_some(up, step)?;
    }
    Ok(())
}

fn add_folders_there(
    alloc: Global,
    limiter: &Limiter<'_>,
    up: &mut List<Up>,
) -> Result<(), NoMemory>
    requires { IsLimiter limiter.now }
    ensures { OnOk result (up.new ≡ up.old ++ filter_map (folder_there (limiter_limits limiter.now) (limiter_sides limiter.now)) limiter.now.look.now.paths.keys) }
{
    let look = limiter.look;
    for path in look.paths.iter() {
        let step = folder_there(alloc, limiter, path)?;
        push_if_some(up, step)?;
    }
    Ok(())
}

/// Adds the moves of items.
fn add_patches(
    items: &BTreeMap<Path, Item>,
    pairs: &[(Path, Path)],
    up: &mut List<Up>,
) -> Result<(), NoMemory>
    ensures { OnOk result (up.new ≡ up.old ++ filter_map (patch_there items.now.entries) pairs.now) }
{
    for pair in pairs {
        let step = patch_there(items, pair)?;
        push_if_some(up, step)?;
    }
    Ok(())
}

fn add_sends(
    alloc: Global,
    limiter: &Limiter<'_>,
    items: &BTreeMap<Path, Item>,
    ends: &Ends<'_>,
    up: &mut List<Up>,
) -> Result<(), NoMemory>
    requires limiter { IsLimiter limiter.now }
    requires ends { IsEnds ends.now }
    ensures { OnOk result (up.new ≡ up.old ++ filter_map (send_there (limiter_limits limiter.now) (limiter_sides limiter.now) items.now.entries ends.now.pairs.now) limiter.now.look.now.paths.keys) }
{
    let look = limiter.look;
    for path in look.paths.iter() {
        let step = send_there(alloc, limiter, items, ends, path)?;
        push_if_some(up, step)?;
    }
    Ok(())
}

/// Adds the moves of items and what is sent.
fn add_carried(
    alloc: Global,
    limiter: &Limiter<'_>,
    items: &BTreeMap<Path, Item>,
    ends: &Ends<'_>,
    up: &mut List<Up>,
) -> Result<(), NoMemory>
    requires limiter { IsLimiter limiter.now }
    requires ends { IsEnds ends.now }
    ensures { OnOk result (up.new ≡ up.old ++ (filter_map (patch_there items.now.entries) ends.now.pairs.now
        ++ filter_map (send_there (limiter_limits limiter.now) (limiter_sides limiter.now) items.now.entries ends.now.pairs.now) limiter.now.look.now.paths.keys)) }
{
    add_patches(items, ends.pairs, up)?;
    add_sends(alloc, limiter, items, ends, up)?;
    Ok(())
}

/// What is to be done on the drive.
pub(crate) fn up_list(
    alloc: Global,
    limiter: &Limiter<'_>,
    items: &BTreeMap<Path, Item>,
) -> Result<List<Up>, NoMemory>
    requires { IsLimiter limiter.now }
    ensures { IfOk result (λ up. up ≡ up_list (limiter_limits limiter.now) (limiter_sides limiter.now) items.now.entries) }
{
    let look = limiter.look;
    let deepest = deepest_first(alloc, &look.paths)?;
    let pairs = drive_pairs(alloc, limiter)?;
    let ends = ends_of(alloc, pairs.as_slice())?;
    let mut up = List::new(alloc);
    add_removals_there(limiter, items, &ends, deepest.as_slice(), &mut up)?;
    add_folders_there(alloc, limiter, &mut up)?;
    add_carried(alloc, limiter, items, &ends, &mut up)?;
    Ok(up)
}
