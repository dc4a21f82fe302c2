//! What the feed of changes has, the contract of a function that does nothing.
ghost use Rattle.std.specs.Prelude.{◌≡◌, ◌≢◌, ◌↔◌, ℕ, List, Contains};
ghost use Rattle.std.specs.List.{AllPairs};
ghost use Rattle.gd_item.specs.Records.{feed};
ghost use Rattle.gd_item.specs.Steps.{held_by};
ghost use Rattle.gd_laws.specs.Changes.{IsEntry};

use gd_item::{Item, Step};

/// The feed past a position has the root, each living item and each removed one that changed past it, with its record,
/// and nothing else. No two of its entries are of one item.
pub fn a_feed_has_exactly_what_changed()
    ensures entries { (log : List Step) (position start : ℕ) (entry : ℕ × Item)
        → Contains (feed (held_by log) position start) entry ↔ IsEntry (held_by log) position start entry }
    ensures once { (log : List Step) (position start : ℕ) → AllPairs (λ (x y : ℕ × Item). x.1.id ≢ y.1.id) (feed (held_by log) position start) }
{}
