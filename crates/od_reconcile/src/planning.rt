ghost use Rattle.std.specs.Prelude.{◌≡◌, ℕ, List, map, cond, Some, None, IfOk, OnOk};
ghost use Rattle.od_merge.specs.Merging.{renamed, renames};
ghost use Rattle.od_mirror.specs.Pulled.{paths_of};
ghost use Rattle.od_reconcile.specs.Copying.{copy_path, renamed_entries};
ghost use Rattle.od_reconcile.specs.Above.{or_else};
ghost use Rattle.od_reconcile.specs.Entries.{local_tree};
ghost use Rattle.od_merge.specs.Sides.{is_path};
ghost use Rattle.od_merge.specs.Steps.{AreTrees};
ghost use Rattle.od_reconcile.specs.Holding.{limits_of};
ghost use Rattle.od_reconcile.specs.Looks.{IsMerge, merge_sides};
ghost use Rattle.od_reconcile.specs.Plans.{HasSteps, IsPlan, IsPlanOf, begun, item_at, limits_then, rename_of, renamed_sides};
ghost use Rattle.od_reconcile.specs.Promises.{Keeps};
ghost use Rattle.od_reconcile.specs.Ready.{IsBothReady, sides_found};

use crate::both::{Both, both_of};
use crate::copies::copies;
use crate::entries::{local_tree, remote_tree};
use crate::holding::{held, limiter_of};
use crate::look::look_at;
use crate::merge::Merge;
use crate::places::renamed_entries;
use crate::side::side_of;
use crate::steps::{down_list, up_list};
use crate::types::{Down, Held, Node, Plan, Rename, Up};
use gd_item::Item;
use gd_names::{List, NoMemory, Path, Text};
use od_keeper::BaseRow;
use od_mirror::MirrorView;
use od_synclist::Rules;
use std::alloc::Global;
use std::collections::BTreeMap;

fn renames_of(alloc: Global, renames: &[(Path, Path)]) -> Result<List<Rename>, NoMemory>
    ensures { IfOk result (λ list. list ≡ map rename_of renames.now) }
{
    let mut list = List::new(alloc);
    for pair in renames {
        list.push(Rename {
            from: pair.0.clone()?,
            to: pair.1.clone()?,
        })?;
    }
    Ok(list)
}

/// The steps of a plan, and what is held.
#[derive(Drop)]
pub struct Steps {
    pub down: List<Down>,
    pub up: List<Up>,
    pub held: List<Held>,
}

/// What is to be done once the folder's entries have moved.
fn steps_of(
    alloc: Global,
    merge: &Merge<'_>,
    items: &BTreeMap<Path, Item>,
    quota: &[Path],
    entries: &[(Path, Node)],
) -> Result<Steps, NoMemory>
    requires { IsMerge merge.now }
    ensures { IfOk result (λ steps. HasSteps (limits_of quota.now entries.now) (merge_sides merge.now) items.now.entries steps) }
{
    let look = look_at(alloc, merge)?;
    let limiter = limiter_of(alloc, &look, quota, entries)?;
    let down = down_list(alloc, &look, items)?;
    let up = up_list(alloc, &limiter, items)?;
    let held = held(alloc, &limiter)?;
    Ok(Steps { down, up, held })
}

/// Puts an item at a path where none stands.
fn put_absent(index: &mut BTreeMap<Path, Item>, path: &Path, item: &Item) -> Result<(), NoMemory>
    ensures { OnOk result ((q : List (List ℕ)) → item_at index.new.entries q ≡ or_else (item_at index.old.entries q) (cond (is_path path.now q) (Some item.now) None)) }
{
    if index.contains_key(path) {
        return Ok(());
    }
    let copy = item.clone()?;
    index.insert(path.clone()?, copy)?;
    Ok(())
}

/// The drive's items by path, for quick look-ups.
fn index_of(alloc: Global, items: &[(Path, Item)]) -> Result<BTreeMap<Path, Item>, NoMemory>
    ensures { IfOk result (λ index. (path : List (List ℕ)) → item_at index.entries path ≡ item_at items.now path) }
{
    let mut found = BTreeMap::new(alloc);
    for entry in items {
        put_absent(&mut found, &entry.0, &entry.1)?;
    }
    Ok(found)
}

/// The plan for two sides that are ready.
fn plan_over(
    alloc: Global,
    host: &Text,
    both: &Both<'_>,
    local: &[(Path, Node)],
    items: &BTreeMap<Path, Item>,
    quota: &[Path],
) -> Result<Plan, NoMemory>
    requires both { IsBothReady both.now }
    requires here { both.now.here.tree.now ≡ local_tree local.now }
    ensures { IfOk result (λ plan. IsPlanOf (renames (copy_path host.now (sides_found both.now).local) (sides_found both.now))
        (limits_of quota.now (renamed_entries (renames (copy_path host.now (sides_found both.now).local) (sides_found both.now)) local.now))
        (renamed (copy_path host.now (sides_found both.now).local) (sides_found both.now)) items.now.entries plan) }
{
    let copies = copies(alloc, host, both)?;
    let entries = renamed_entries(alloc, copies.renames.as_slice(), local)?;
    let tree = local_tree(alloc, entries.as_slice())?;
    let here = side_of(alloc, both.rules, tree.as_slice())?;
    let merge = Merge {
        both,
        here: &here,
        left: copies.left.as_slice(),
    };
    let steps = steps_of(alloc, &merge, items, quota, entries.as_slice())?;
    let renames = renames_of(alloc, copies.renames.as_slice())?;
    let Steps { down, up, held } = steps;
    Ok(Plan {
        renames,
        down,
        up,
        held,
    })
}

/// What has to be done so that both sides become one: for what both sides agreed on, the folder's entries as a scan found
/// them, the drive's items, the rules, the name of this host and the paths for which the drive had no room. Where the
/// folder and the drive are trees, doing it makes both sides one, each step can be done at its turn, and nothing that the user
/// changed goes.
pub fn plan(
    alloc: Global,
    rows: &List<BaseRow>,
    local: &List<(Path, Node)>,
    remote: &MirrorView,
    rules: &Rules,
    host: &Text,
    quota: &List<Path>,
) -> Result<Plan, NoMemory>
    ensures is { IfOk result (λ plan. IsPlan rules.now host.now rows.now local.now (paths_of remote.now.items) quota.now plan) }
    ensures keeps { IfOk result (λ plan. AreTrees (begun rules.now rows.now local.now (paths_of remote.now.items))
        → Keeps (limits_then rules.now host.now rows.now local.now (paths_of remote.now.items) quota.now) (renamed_sides rules.now host.now rows.now local.now (paths_of remote.now.items)) plan) }
{
    let items = remote.paths(alloc)?;
    let here = local_tree(alloc, local.as_slice())?;
    let there = remote_tree(alloc, items.as_slice())?;
    let both = both_of(
        alloc,
        rules,
        rows.as_slice(),
        here.as_slice(),
        there.as_slice(),
    )?;
    let index = index_of(alloc, items.as_slice())?;
    let plan = plan_over(
        alloc,
        host,
        &both,
        local.as_slice(),
        &index,
        quota.as_slice(),
    )?;
    Ok(plan)
}
