//! The store and one that is written plainly, in the same calls.
use super::plain::PlainStore;
use super::{condition, long, text};
use gd_item::{Condition, Item, ItemId, Kind, Place};
use gd_names::{Conflict, Text};
use gd_store::Store;
use std::alloc::Global;
use std::test::Fail;

/// Numbers that look random, and are the same in each run.
#[derive(Debug, Drop)]
struct Dice {
    state: u64,
}

impl Dice {
    /// A number below a bound, or 0.
    fn roll(&mut self, bound: u64) -> u64 {
        self.state = self
            .state
            .wrapping_mul(6_364_136_223_846_793_005)
            .wrapping_add(1_442_695_040_888_963_407);
        (self.state >> 33) % bound.max(1)
    }

    fn behaviour(&mut self) -> Conflict {
        match self.roll(3) {
            0 => Conflict::Fail,
            1 => Conflict::Replace,
            _ => Conflict::Rename,
        }
    }

    /// One of few names, so that many are taken; a long one and one that no item may have among them.
    fn name(&mut self, alloc: Global) -> Result<Text, Fail> {
        match self.roll(10) {
            0 => long(alloc, "", 130),
            1 => text(alloc, "a:"),
            2 => text(alloc, "B.txt"),
            3 => text(alloc, "b.TXT"),
            4 => text(alloc, "b 1.txt"),
            5 => text(alloc, "c"),
            6 => text(alloc, "C"),
            7 => text(alloc, "d"),
            8 => text(alloc, "e"),
            _ => text(alloc, "f"),
        }
    }

    /// No condition, or that a tag is one of those up to a change number, or any.
    fn condition(&mut self, alloc: Global, number: u64) -> Result<Condition, Fail> {
        match self.roll(8) {
            0 => condition(alloc, "*"),
            1 => {
                let change = self.roll(number);
                let tag = format!(in alloc; "e{change}")?;
                condition(alloc, tag.as_str())
            }
            _ => Ok(Condition::Free),
        }
    }
}

/// A store, and the plain one that is to be the same.
#[derive(Debug, Drop)]
struct Both {
    store: Store,
    plain: PlainStore,
}

fn make(alloc: Global, dice: &mut Dice, both: &mut Both, parent: u64) -> Result<bool, Fail> {
    let name = dice.name(alloc)?;
    let behaviour = dice.behaviour();
    let made = both.store.make_folder(ItemId(parent), &name, behaviour);
    let plainly = both.plain.make_folder(parent, &name, behaviour);
    Ok(match made {
        Ok(id) => plainly == Ok(id.0),
        Err(fault) => plainly == Err(fault),
    })
}

fn place(alloc: Global, dice: &mut Dice, number: u64) -> Result<Place, Fail> {
    if dice.roll(4) == 0 {
        return Ok(Place::Over(ItemId(number)));
    }
    let name = dice.name(alloc)?;
    Ok(Place::Under(ItemId(number), name))
}

fn put(alloc: Global, dice: &mut Dice, both: &mut Both, number: u64) -> Result<bool, Fail> {
    let place = place(alloc, dice, number)?;
    let behaviour = dice.behaviour();
    let condition = dice.condition(alloc, both.plain.number())?;
    let size = dice.roll(5);
    let bytes = Vec::from_elem(alloc, 61, size as usize)?;
    let put = both
        .store
        .put(&place, bytes.as_slice(), behaviour, &condition, 0);
    Ok(both.plain.put(&place, size, behaviour, &condition) == put)
}

/// Moves an item to a folder, or leaves it there (0).
fn patch(
    alloc: Global,
    dice: &mut Dice,
    both: &mut Both,
    number: u64,
    parent: u64,
) -> Result<bool, Fail> {
    let name = dice.name(alloc)?;
    let condition = dice.condition(alloc, both.plain.number())?;
    let folder = if parent == 0 {
        None
    } else {
        Some(ItemId(parent))
    };
    let moved = both
        .store
        .patch(ItemId(number), Some(&name), folder, &condition);
    Ok(both.plain.patch(number, &name, parent, &condition) == moved)
}

fn remove(alloc: Global, dice: &mut Dice, both: &mut Both, number: u64) -> Result<bool, Fail> {
    let condition = dice.condition(alloc, both.plain.number())?;
    let removed = both.store.remove(ItemId(number), &condition);
    Ok(both.plain.remove(number, &condition) == removed)
}

fn expire(dice: &mut Dice, both: &mut Both) -> bool {
    let number = dice.roll(both.plain.number());
    both.store.expire(number);
    both.plain.expire(number);
    true
}

/// Makes one call of both, and tells whether they answer the same.
fn call(alloc: Global, dice: &mut Dice, both: &mut Both) -> Result<bool, Fail> {
    let most = both.plain.made().saturating_add(2);
    let number = dice.roll(most);
    match dice.roll(20) {
        0 => Ok(expire(dice, both)),
        1 => remove(alloc, dice, both, number),
        2..=6 => {
            let parent = dice.roll(most);
            patch(alloc, dice, both, number, parent)
        }
        7..=11 => make(alloc, dice, both, number),
        _ => put(alloc, dice, both, number),
    }
}

fn told(alloc: Global, item: &Item) -> Result<String, Fail> {
    let (number, name, tag) = (item.id.0, item.name.as_str(), item.etag.0.as_str());
    let parent = match item.parent {
        Some(id) => id.0,
        None => 0,
    };
    let size = item.size;
    Ok(match item.kind {
        Kind::Folder { .. } => format!(in alloc; "{number} {name}/ in {parent} {tag}\n")?,
        Kind::Deleted => format!(in alloc; "{number} removed {tag}\n")?,
        _ => format!(in alloc; "{number} {name} in {parent} {tag}, {size} bytes\n")?,
    })
}

/// The feed of the store past a position and past a removal.
fn feed(alloc: Global, store: &Store, position: u64, removed_after: u64) -> Result<String, Fail> {
    let (items, _) = store.changed_after(position, removed_after, u64::MAX)?;
    let mut all = String::new(alloc);
    for item in items.as_slice() {
        let line = told(alloc, item)?;
        all.push_str(line.as_str())?;
    }
    Ok(all)
}

/// Whether both have the same feed past two numbers, and the same item at a name.
fn look(alloc: Global, dice: &mut Dice, both: &Both) -> Result<bool, Fail> {
    let position = dice.roll(both.plain.number());
    let removed_after = dice.roll(both.plain.number());
    let plainly = both.plain.feed(position, removed_after)?;
    let fed = feed(alloc, &both.store, position, removed_after)?;
    if fed != plainly {
        return Ok(false);
    }
    let parent = dice.roll(both.plain.made());
    let name = dice.name(alloc)?;
    let found = match both.store.child(ItemId(parent), &name) {
        Some(id) => id.0,
        None => 0,
    };
    Ok(both.plain.child(parent, &name) == found)
}

#[test]
fn the_store_answers_as_a_plain_list_does(rt: HostRuntime) -> Result<(), Fail> {
    let alloc = rt.alloc();
    let mut dice = Dice { state: 2026 };
    let mut both = Both {
        store: Store::new(alloc)?,
        plain: PlainStore::new(alloc)?,
    };
    for number in 0..600 {
        assert!(rt; call(alloc, &mut dice, &mut both)?, "call {number}");
        assert!(rt; look(alloc, &mut dice, &both)?, "after call {number}");
    }
    assert_eq!(rt; both.store.number(), both.plain.number());
    Ok(())
}
