ghost use Rattle.std.specs.Prelude.{◌≡◌, ◌++◌, [], ◌∷◌, ℕ, List, Option, cond, drop, IfOk, OnOk};
ghost use Rattle.std.specs.Option.{option_copied};
ghost use Rattle.std.specs.Ordering.{is_eq};
ghost use Rattle.od_reconcile.specs.Queues.{PopsAt, TakesSource, comes_first, first_slot, front_of, is_slot, queue_at, queued, slot_by, slot_cmp};

use gd_item::Digest;
use gd_names::{NoMemory, Path};
use std::alloc::Global;
use std::collections::{BTreeMap, VecDeque};
use std::marker::Model;

/// The digest of a source's bytes, and the only path to which it may go, if there is just one.
pub type Slot = ([u8; 32], Option<Path>);

/// Paths that wait, the first in front.
#[derive(Debug, Drop)]
pub struct Queue {
    paths: VecDeque<Path>,
}

impl Model for Queue {
    ghost use Rattle.std.specs.Prelude.{List, ℕ};
    ghost use Rattle.std.specs.Coded.{coded_list, coded_ℕ};

    ghost Value = { List (List (List ℕ)) };

    ghost coded = { coded_list (coded_list (coded_list coded_ℕ)) };

    ghost view = { λ q. q.paths.items };
}

impl Queue {
    fn new(alloc: Global) -> Queue
        ensures { result ≡ [] }
    {
        Queue {
            paths: VecDeque::new(alloc),
        }
    }

    fn push(&mut self, path: &Path) -> Result<(), NoMemory>
        ensures { OnOk result (self.new ≡ self.old ++ path.now ∷ []) }
    {
        self.paths.push_back(path.clone()?)?;
        Ok(())
    }

    fn pop(&mut self) -> Option<Path>
        ensures first { result ≡ front_of self.old }
        ensures rest { self.new ≡ drop 1 self.old }
    {
        self.paths.pop_front()
    }

    fn front(&self) -> Option<&Path>
        ensures { option_copied result ≡ front_of self.now }
    {
        self.paths.front()
    }
}

/// A file's slot, by its digest and by what comes under its spelling.
pub(crate) fn slot_by(
    digest: Option<Digest>,
    spelt: Option<&(Path, bool)>,
) -> Result<Option<Slot>, NoMemory>
    ensures { IfOk result (λ slot. slot ≡ slot_by digest (option_copied spelt.entry)) }
{
    match digest {
        None => Ok(None),
        Some(digest) => match spelt {
            None => Ok(Some((digest.0, None))),
            Some(spelt) => {
                if spelt.1 {
                    Ok(None)
                } else {
                    Ok(Some((digest.0, Some(spelt.0.clone()?))))
                }
            }
        },
    }
}

fn queue_or_new(alloc: Global, queue: Option<Queue>) -> Queue
    ensures { result ≡ queued queue }
{
    match queue {
        None => Queue::new(alloc),
        Some(queue) => queue,
    }
}

/// Puts a path behind those that wait at a slot.
fn push_at(
    alloc: Global,
    queues: &mut BTreeMap<Slot, Queue>,
    slot: Slot,
    path: &Path,
) -> Result<(), NoMemory>
    ensures { OnOk result ((q : List ℕ × Option (List (List ℕ))) → queue_at queues.new.entries q ≡ cond (is_eq (slot_cmp slot q)) (queue_at queues.old.entries q ++ path.now ∷ []) (queue_at queues.old.entries q)) }
{
    let mut queue = queue_or_new(alloc, queues.remove(&slot));
    queue.push(path)?;
    queues.insert(slot, queue)?;
    Ok(())
}

/// The same, where the path has a slot.
pub(crate) fn push_source(
    alloc: Global,
    queues: &mut BTreeMap<Slot, Queue>,
    slot: Option<Slot>,
    path: &Path,
) -> Result<(), NoMemory>
    ensures { OnOk result ((q : List ℕ × Option (List (List ℕ))) → queue_at queues.new.entries q ≡ queue_at queues.old.entries q ++ cond (is_slot q slot) (path.now ∷ []) []) }
{
    let Some(slot) = slot else {
        return Ok(());
    };
    push_at(alloc, queues, slot, path)?;
    Ok(())
}

fn front_at<'a>(queues: &'a BTreeMap<Slot, Queue>, slot: &Slot) -> Option<&'a Path>
    ensures { option_copied result ≡ front_of (queue_at queues.now.entries slot.now) }
{
    match queues.get(slot) {
        None => None,
        Some(queue) => queue.front(),
    }
}

/// Takes the first that waits at a slot.
fn pop_at(queues: &mut BTreeMap<Slot, Queue>, slot: Slot) -> Result<Option<Path>, NoMemory>
    ensures { IfOk result (λ taken. PopsAt slot queues.old.entries queues.new.entries taken) }
{
    let Some(found) = queues.remove(&slot) else {
        return Ok(None);
    };
    let mut queue = found;
    let taken = queue.pop();
    queues.insert(slot, queue)?;
    Ok(taken)
}

fn comes_first(path: Option<&Path>, other: Option<&Path>) -> bool
    ensures { result ≡ comes_first (option_copied path.entry) (option_copied other.entry) }
{
    match path {
        None => false,
        Some(path) => match other {
            None => true,
            Some(other) => path.cmp(other).is_lt(),
        },
    }
}

fn own_comes_first(queues: &BTreeMap<Slot, Queue>, own: &Slot, any: &Slot) -> bool
    ensures { result ≡ comes_first (front_of (queue_at queues.now.entries own.now)) (front_of (queue_at queues.now.entries any.now)) }
{
    comes_first(front_at(queues, own), front_at(queues, any))
}

/// The first of those that wait at one of two slots.
fn pop_first(
    queues: &mut BTreeMap<Slot, Queue>,
    own: Slot,
    any: Slot,
) -> Result<Option<Path>, NoMemory>
    ensures { IfOk result (λ taken. PopsAt (first_slot own any queues.old.entries) queues.old.entries queues.new.entries taken) }
{
    if own_comes_first(queues, &own, &any) {
        let taken = pop_at(queues, own)?;
        return Ok(taken);
    }
    let taken = pop_at(queues, any)?;
    Ok(taken)
}

/// Takes the first source that may go to a path for bytes of a digest.
pub(crate) fn take_source(
    queues: &mut BTreeMap<Slot, Queue>,
    digest: Option<Digest>,
    to: &Path,
) -> Result<Option<Path>, NoMemory>
    ensures { IfOk result (λ taken. TakesSource digest to.now queues.old.entries queues.new.entries taken) }
{
    let Some(digest) = digest else {
        return Ok(None);
    };
    let own = (digest.0, Some(to.clone()?));
    let any = (digest.0, None);
    let taken = pop_first(queues, own, any)?;
    Ok(taken)
}
