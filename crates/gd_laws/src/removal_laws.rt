//! What a removal takes away and in which order, each law the contract of a function that does nothing.
ghost use Rattle.std.specs.Prelude.{◌≡◌, ℕ, true, List, All, Any, Contains};
ghost use Rattle.std.specs.List.{AllPairs};
ghost use Rattle.gd_item.specs.Moves.{is_in, removal_order};
ghost use Rattle.gd_item.specs.Steps.{held_by};
ghost use Rattle.gd_item.specs.Trees.{nodes_of};
ghost use Rattle.gd_laws.specs.Order.{GoesBefore};

use gd_item::{LiveItem, Step};

/// An item is removed with exactly those that stand below it.
pub fn a_removal_takes_all_below()
    ensures all { (log : List Step) (number : ℕ) → let held = held_by log in
        All (λ (item : LiveItem). is_in (nodes_of held) number item.number ≡ true → Contains (removal_order held number) item.number) held.items }
    ensures only { (log : List Step) (number : ℕ) → let held = held_by log in
        All (λ n. (is_in (nodes_of held) number n ≡ true) × Any (λ (item : LiveItem). item.number ≡ n) held.items) (removal_order held number) }
{}

/// The deepest are removed first, those of one depth in order of number, and so each once.
pub fn removals_go_up()
    ensures { (log : List Step) (number : ℕ) → AllPairs (GoesBefore (held_by log)) (removal_order (held_by log) number) }
{}
