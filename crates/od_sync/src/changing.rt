ghost use Rattle.std.specs.Prelude.{◌≡◌, [], ◌++◌, IfOk, OnOk};
ghost use Rattle.od_sync.specs.PullChanges.{IsPullChange, is_same_item, pull_gone, pull_put, put_unless};

use gd_item::{Item, ItemId};
use gd_names::{List, NoMemory};
use od_keeper::Change;
use od_mirror::MirrorView;
use std::alloc::Global;
use std::cmp::Ordering;

fn is_same_item(old: &Item, new: &Item) -> bool
    ensures { result ≡ is_same_item old.now new.now }
{
    *old == *new
}

/// Adds an item, unless it is the kept one.
fn push_unless_same(put: &mut List<Item>, old: &Item, new: &Item) -> Result<(), NoMemory>
    ensures { OnOk result (put.new ≡ put.old ++ put_unless (is_same_item old.now new.now) new.now []) }
{
    if is_same_item(old, new) {
        return Ok(());
    }
    put.push(new.clone()?)?;
    Ok(())
}

fn push_ids(ids: &mut List<ItemId>, items: &[Item]) -> Result<(), NoMemory>
    ensures { OnOk result (ids.new ≡ ids.old ++ pull_gone items.now []) }
{
    for item in items {
        ids.push(item.id)?;
    }
    Ok(())
}

fn push_items(put: &mut List<Item>, items: &[Item]) -> Result<(), NoMemory>
    ensures { OnOk result (put.new ≡ put.old ++ items.now) }
{
    for item in items {
        put.push(item.clone()?)?;
    }
    Ok(())
}

/// Walks over the kept items and those of a view at once: adds the ids of the kept items that the view lacks, and the items
/// of the view that are new or changed.
fn compare_items(
    kept: &[Item],
    items: &[Item],
    gone: &mut List<ItemId>,
    put: &mut List<Item>,
) -> Result<(), NoMemory>
    ensures gone { OnOk result (gone.new ≡ gone.old ++ pull_gone kept.now items.now) }
    ensures put { OnOk result (put.new ≡ put.old ++ pull_put kept.now items.now) }
{
    let mut ours = kept;
    let mut theirs = items;
    while let [old, older @ ..] = ours {
        let [new, newer @ ..] = theirs else {
            return push_ids(gone, ours);
        };
        match old.id.0.cmp(&new.id.0) {
            Ordering::Less => {
                gone.push(old.id)?;
                ours = older;
            }
            Ordering::Equal => {
                push_unless_same(put, old, new)?;
                ours = older;
                theirs = newer;
            }
            Ordering::Greater => {
                put.push(new.clone()?)?;
                theirs = newer;
            }
        }
    }
    push_items(put, theirs)
}

/// The change of the kept image after a pull: the items that are gone, and those that are new or unlike the kept ones.
pub fn pull_change(alloc: Global, kept: &[Item], view: &MirrorView) -> Result<Change, NoMemory>
    ensures { IfOk result (λ change. IsPullChange kept.now view.now.items view.now.token change) }
{
    let mut gone = List::new(alloc);
    let mut put = List::new(alloc);
    compare_items(kept, view.items.as_slice(), &mut gone, &mut put)?;
    Ok(Change {
        reset: false,
        rules: None,
        token: Some(view.token.clone()?),
        gone,
        put,
        dropped: List::new(alloc),
        rows: List::new(alloc),
    })
}
