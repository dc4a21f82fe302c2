ghost use Rattle.std.specs.Prelude.{◌≡◌, ℕ, Some, None, [], IsSome, IfOk, OnOk, IsErrOf};
ghost use Rattle.std.specs.List.Sorted.{IsStrictlySortedBy};
ghost use Rattle.std.specs.Map.{keys_of, values_of};
ghost use Rattle.std.specs.Option.{option_copied};
ghost use Rattle.std.specs.Ordering.{nat_cmp};
ghost use Rattle.std.specs.BTreeMap.{insert_entry};
ghost use Rattle.gd_item.specs.Ids.{item_id};
ghost use Rattle.od_mirror.specs.Climbs.{IsKeyed, Rise};
ghost use Rattle.od_mirror.specs.Pulled.{begun, after_page, taken_of, nodes, known_from, known_kind, known_item, with_record, with_records, IsView, IsLeastBad, AllFit};

use crate::climb::first_bad;
use crate::view::MirrorView;
use gd_item::{Item, ItemId, Kind, Page, PageLink, Tag};
use gd_names::{List, NoMemory, Text};
use std::alloc::Global;
use std::collections::BTreeMap;
use std::marker::Model;
use std::mem;
use thiserror::Error;

/// Whether more pages come.
#[derive(Clone, Copy, Debug, PartialEq, Eq)]
pub enum Taken {
    More,
    Last,
}

/// Why pages make no drive.
#[derive(Debug, Drop, Error)]
pub enum PullFault {
    /// The least item that does not fit: its folders do not lead up to the root, or an earlier sibling has its name
    /// but for case. The root's, where it is missing.
    #[error("the pages make no drive: see item {0:?}")]
    BadPages(ItemId),
    #[error("out of memory")]
    Memory,
}

impl From<NoMemory> for PullFault {
    ghost use Rattle.od_mirror.specs.declared.mirror.PullFault.TheVariants.{Memory};

    ghost from_gives = { λ error fault. fault ≡ Memory };

    fn from(_error: NoMemory) -> PullFault {
        PullFault::Memory
    }
}

/// A pull of a drive's items, page by page.
#[derive(Drop)]
pub struct Mirror {
    alloc: Global,
    /// The items with which it began, until they are taken into the map.
    waiting: List<Item>,
    items: BTreeMap<u64, Item>,
    token: Option<Text>,
    last: Option<Text>,
}

impl Model for Mirror {
    ghost use Rattle.od_mirror.specs.Climbs.{IsKeyed};
    ghost use Rattle.od_mirror.specs.Pulled.{Pulled, with_records};

    ghost Value = { Pulled };

    ghost view = { λ m. record { items = with_records m.items.entries m.waiting; token = m.token; last = m.last } };

    ghost invariant = { λ m. IsKeyed m.items.entries };
}

impl Mirror {
    /// A pull over these items, which asks for what changed since the token, or for everything.
    pub fn start(alloc: Global, items: List<Item>, token: Option<Text>) -> Mirror
        ensures { result ≡ begun items token }
    {
        Mirror {
            alloc,
            waiting: items,
            items: BTreeMap::new(alloc),
            token,
            last: None,
        }
    }

    /// A pull that goes on from a view, with its items and its token. Takes no memory.
    pub fn resume(alloc: Global, view: MirrorView) -> Mirror
        ensures { result ≡ begun view.items (Some view.token) }
    {
        let MirrorView { items, token } = view;
        Mirror::start(alloc, items, Some(token))
    }

    /// The token of the next request.
    pub fn token(&self) -> Option<&Text>
        ensures { option_copied result ≡ self.now.token }
    {
        match &self.token {
            Some(token) => Some(token),
            None => None,
        }
    }

    /// Takes one more page. Where memory runs out a part of the page may be taken: drop the mirror then.
    pub fn take_page(&mut self, page: &Page) -> Result<Taken, NoMemory>
        ensures last { IfOk result (λ taken. taken ≡ Taken.Last → IsSome self.new.last) }
        ensures ok { IfOk result (λ taken. (self.new ≡ after_page self.old page.now) × (taken ≡ taken_of page.now.link)) }
    {
        let waiting = mem::replace(&mut self.waiting, List::new(self.alloc));
        take_records(&mut self.items, waiting)?;
        put_records(&mut self.items, page.items.as_slice())?;
        match &page.link {
            PageLink::Next(token) => {
                self.token = Some(token.clone()?);
                self.last = None;
                Ok(Taken::More)
            }
            PageLink::Delta(token) => {
                self.token = Some(token.clone()?);
                self.last = Some(token.clone()?);
                Ok(Taken::Last)
            }
        }
    }

    /// Begins anew, with no items and no token.
    pub fn gone(&mut self)
        ensures { self.new ≡ begun [] None }
    {
        self.waiting = List::new(self.alloc);
        self.items.clear();
        self.token = None;
        self.last = None;
    }

    /// What was pulled, once the last page was taken.
    pub fn finish(self) -> Result<MirrorView, PullFault>
        requires { IsSome self.last }
        ensures ok { IfOk result (λ view. IsView self view) }
        ensures rise { IfOk result (λ view. Rise (nodes view.items)) }
        ensures bad { (n : ℕ) → IsErrOf result (PullFault.BadPages (item_id n)) → IsLeastBad (nodes (values_of self.items)) n }
    {
        let Mirror {
            alloc,
            waiting,
            items,
            token: _token,
            last,
        } = self;
        let items = match fitting(alloc, items, waiting) {
            Ok(items) => List::from_vec(items),
            Err(fault) => return Err(fault),
        };
        match last {
            Some(token) => Ok(MirrorView { items, token }),
            None => unreachable!(),
        }
    }
}

/// The items in order of number.
fn in_order(alloc: Global, items: BTreeMap<u64, Item>) -> Result<Vec<Item>, NoMemory>
    ensures same { IfOk result (λ sorted. sorted.items ≡ values_of items.entries) }
    ensures ordered { IsStrictlySortedBy nat_cmp (keys_of items.entries) }
{
    let _count = items.len();
    let sorted = items.into_values().collect(alloc)?;
    Ok(sorted)
}

/// The items in order of number with those that wait, if they fit.
fn fitting(
    alloc: Global,
    mut items: BTreeMap<u64, Item>,
    waiting: List<Item>,
) -> Result<Vec<Item>, PullFault>
    requires { IsKeyed items.entries }
    ensures ok { IfOk result (λ sorted. (sorted.items ≡ values_of (with_records items.entries waiting)) × AllFit (nodes sorted.items)) }
    ensures rise { IfOk result (λ sorted. Rise (nodes sorted.items)) }
    ensures bad { (n : ℕ) → IsErrOf result (PullFault.BadPages (item_id n)) → IsLeastBad (nodes (values_of (with_records items.entries waiting))) n }
{
    take_records(&mut items, waiting)?;
    all_fitting(alloc, items)
}

/// The items in order of number, if they fit.
fn all_fitting(alloc: Global, items: BTreeMap<u64, Item>) -> Result<Vec<Item>, PullFault>
    requires { IsKeyed items.entries }
    ensures ok { IfOk result (λ sorted. (sorted.items ≡ values_of items.entries) × AllFit (nodes sorted.items)) }
    ensures rise { IfOk result (λ sorted. Rise (nodes sorted.items)) }
    ensures bad { (n : ℕ) → IsErrOf result (PullFault.BadPages (item_id n)) → IsLeastBad (nodes (values_of items.entries)) n }
{
    let sorted = in_order(alloc, items)?;
    let bad = first_bad(alloc, &sorted)?;
    match bad {
        Some(number) => Err(PullFault::BadPages(ItemId(number))),
        None => Ok(sorted),
    }
}

/// A kind with what is known of a file.
fn known_from(kind: Kind) -> Kind
    ensures { result ≡ known_from kind }
{
    match kind {
        Kind::File { digest } => Kind::File { digest },
        Kind::Folder { .. } | Kind::Bare | Kind::Deleted => Kind::Bare,
    }
}

/// The kind of a file whose record gives no digest, beside the item that stands at its number.
fn known_kind(etag: &Tag, standing: Option<&Item>) -> Kind
    ensures { result ≡ known_kind etag.now (option_copied standing.entry) }
{
    match standing {
        Some(item) => {
            if item.etag == *etag {
                known_from(item.kind)
            } else {
                Kind::Bare
            }
        }
        None => Kind::Bare,
    }
}

/// A record of a file without its digest.
#[tactic(auto, using(crate::proofs::Keyed::keyed_steps))]
fn put_bare(items: &mut BTreeMap<u64, Item>, mut item: Item) -> Result<(), NoMemory>
    ensures ok { OnOk result (items.new.entries ≡ insert_entry nat_cmp items.old.entries item.id.0 (known_item items.old.entries item)) }
    ensures keyed { IsKeyed items.old.entries → IsKeyed items.new.entries }
{
    let number = item.id.0;
    item.kind = known_kind(&item.etag, items.get(&number));
    items.insert(number, item)?;
    Ok(())
}

/// One more record: of the item's last state, or of its end.
#[tactic(auto, using(crate::proofs::Keyed::keyed_steps))]
fn put_record(items: &mut BTreeMap<u64, Item>, item: Item) -> Result<(), NoMemory>
    ensures ok { OnOk result (items.new.entries ≡ with_record items.old.entries item) }
    ensures keyed { IsKeyed items.old.entries → IsKeyed items.new.entries }
{
    match item.kind {
        Kind::Folder { .. } | Kind::File { .. } => {
            items.insert(item.id.0, item)?;
        }
        Kind::Bare => put_bare(items, item)?,
        Kind::Deleted => {
            let _old = items.remove(&item.id.0);
        }
    }
    Ok(())
}

fn put_records(items: &mut BTreeMap<u64, Item>, records: &[Item]) -> Result<(), NoMemory>
    ensures ok { OnOk result (items.new.entries ≡ with_records items.old.entries records.now) }
    ensures keyed { IsKeyed items.old.entries → IsKeyed items.new.entries }
{
    for record in records {
        put_record(items, record.clone()?)?;
    }
    Ok(())
}

#[tactic(auto, using(crate::proofs::Keyed::keyed_steps))]
fn take_records(items: &mut BTreeMap<u64, Item>, records: List<Item>) -> Result<(), NoMemory>
    ensures ok { OnOk result (items.new.entries ≡ with_records items.old.entries records) }
    ensures keyed { IsKeyed items.old.entries → IsKeyed items.new.entries }
{
    for record in records.into_vec() {
        put_record(items, record)?;
    }
    Ok(())
}
