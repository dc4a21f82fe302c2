ghost use Rattle.std.specs.Prelude.{◌≡◌, List, [], length, map};
ghost use Rattle.std.specs.Option.{option_copied};
ghost use Rattle.gd_item.specs.Inventory.{live_at};
ghost use Rattle.gd_item.specs.Nodes.{live_node, child_at};
ghost use Rattle.gd_index.specs.Indexed.{digest_of_live, items_in, number_at_spot};

mod naming;
mod ranges;
mod steps;

use crate::row::Row;
use crate::spot::{Spot, make_spot};
use gd_item::{Digest, LiveItem};
use gd_names::{Text, same_caseless};
use std::alloc::Global;
use std::collections::BTreeMap;
use std::marker::Model;

/// Items in order of number, with the maps that find them, and how many children each folder has.
#[derive(Debug, Drop)]
pub struct Index {
    alloc: Global,
    rows: BTreeMap<u64, Row>,
    names: BTreeMap<Spot, u64>,
    changes: BTreeMap<u64, u64>,
    counts: BTreeMap<u64, u64>,
}

impl Model for Index {
    ghost use Rattle.std.specs.Prelude.{List};
    ghost use Rattle.gd_item.specs.declared.live.LiveItem.{LiveItem};
    ghost use Rattle.gd_index.specs.Counted.{IsWhole};
    ghost use Rattle.gd_index.specs.Indexed.{items_in};

    ghost Value = { List LiveItem };

    ghost view = { λ x. items_in x.rows.entries };

    ghost invariant = { λ x. IsWhole x.rows.entries x.names.entries x.changes.entries x.counts.entries };
}

impl Index {
    pub fn new(alloc: Global) -> Index
        ensures { result ≡ [] }
    {
        Index {
            alloc,
            rows: BTreeMap::new(alloc),
            names: BTreeMap::new(alloc),
            changes: BTreeMap::new(alloc),
            counts: BTreeMap::new(alloc),
        }
    }

    pub fn len(&self) -> usize
        ensures { result ≡ length self.now }
    {
        self.rows.len()
    }

    /// The item of a number.
    pub fn get(&self, number: u64) -> Option<&LiveItem>
        ensures { option_copied result ≡ live_at number self.now }
    {
        match self.rows.get(&number) {
            None => None,
            Some(row) => Some(&row.item),
        }
    }

    /// The digest of the bytes of the file of a number.
    pub fn digest(&self, number: u64) -> Option<Digest>
        ensures { result ≡ digest_of_live (live_at number self.now) }
    {
        match self.rows.get(&number) {
            None => None,
            Some(row) => row.digest,
        }
    }

    /// The number of the child that has the name, but for case.
    pub fn child(&self, parent: u64, name: &Text) -> Option<u64>
        ensures { result ≡ child_at parent name.now (map live_node self.now) }
    {
        match make_spot(self.alloc, parent, name) {
            Ok(spot) => self.at_spot(&spot),
            Err(_) => scan(&self.rows, parent, name),
        }
    }

    /// The number of the item at a spot.
    fn at_spot(&self, spot: &Spot) -> Option<u64>
        ensures { result ≡ number_at_spot spot.now self.now }
    {
        match self.names.get(spot) {
            None => None,
            Some(number) => Some(*number),
        }
    }
}

/// The same, where there is no memory for the name in lower case.
fn scan(rows: &BTreeMap<u64, Row>, parent: u64, name: &Text) -> Option<u64>
    ensures { result ≡ child_at parent name.now (map live_node (items_in rows.now.entries)) }
{
    for row in rows.values() {
        if row.item.parent == parent && same_caseless(&row.item.name, name) {
            return Some(row.item.number);
        }
    }
    None
}
