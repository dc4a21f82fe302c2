ghost use Rattle.std.specs.Prelude.{◌≡◌, ◌||◌, ℕ, map, IfOk, OnOk};
ghost use Rattle.std.specs.BTreeSet.{IsOrdered, contains};
ghost use Rattle.std.specs.Ordering.{nat_cmp};
ghost use Rattle.gd_item.specs.Moves.{is_in_within};
ghost use Rattle.gd_item.specs.Nodes.{live_node};
ghost use Rattle.gd_store.specs.Kept.{AreApart};
ghost use Rattle.gd_store.specs.Moved.{numbers_in};

use gd_index::Index;
use gd_names::NoMemory;
use std::alloc::Global;
use std::collections::BTreeSet;

/// Marks a number and all that stand below it, over at most so many folders.
fn mark_within(
    items: &Index,
    marked: &mut BTreeSet<u64>,
    number: u64,
    steps: usize,
) -> Result<(), NoMemory>
    requires { AreApart items.now }
    ensures marks { OnOk result ((n : ℕ) → contains nat_cmp marked.new n ≡ (is_in_within steps (map live_node items.now) number n || contains nat_cmp marked.old n)) }
    ensures ordered { OnOk result (IsOrdered nat_cmp marked.new) }
{
    marked.insert(number)?;
    if steps == 0 {
        return Ok(());
    }
    let children = items.children(number, None, items.len())?;
    for child in children.as_slice() {
        mark_within(items, marked, child.number, steps - 1)?;
    }
    Ok(())
}

/// An item and all below it, as a set of numbers. No other items are looked at.
fn marked_below(alloc: Global, items: &Index, top: u64) -> Result<BTreeSet<u64>, NoMemory>
    requires { AreApart items.now }
    ensures { IfOk result (λ marked. marked.keys ≡ numbers_in top items.now items.now) }
{
    let mut marked = BTreeSet::new(alloc);
    mark_within(items, &mut marked, top, items.len())?;
    if items.get(top).is_none() {
        marked.remove(&top);
        return Ok(marked);
    }
    Ok(marked)
}

/// The numbers of an item and of all below it, in order.
pub fn numbers_within(alloc: Global, items: &Index, top: u64) -> Result<Vec<u64>, NoMemory>
    requires { AreApart items.now }
    ensures { IfOk result (λ numbers. numbers.items ≡ numbers_in top items.now items.now) }
{
    let marked = marked_below(alloc, items, top)?;
    let numbers: Vec<u64> = marked.into_iter().collect(alloc)?;
    Ok(numbers)
}
