//! A drive forgets no version of a file that lives, each law the contract of a function that does nothing.
ghost use Rattle.std.specs.Prelude.{◌≡◌, ◌↔◌, ℕ, List, Some, Contains, filter};
ghost use Rattle.gd_item.specs.Inventory.{live_at};
ghost use Rattle.gd_item.specs.Steps.{held_by, accepted_by};
ghost use Rattle.gd_item.specs.Versions.{version_at};
ghost use Rattle.gd_laws.specs.Given.{is_version_of, given_versions};

use gd_item::{LiveItem, Step};

/// The versions of a living item that a drive can give are all that it accepted for it, the oldest first.
pub fn no_version_is_forgotten()
    ensures { (log : List Step) (number : ℕ) (item : LiveItem) → live_at number (held_by log).items ≡ Some item
        → given_versions number (held_by log) ≡ filter (is_version_of number) (accepted_by log) }
{}

/// A version of a living file is given exactly where the drive accepted it.
pub fn an_accepted_version_is_given()
    ensures { (log : List Step) (number content : ℕ) (item : LiveItem) (now bytes : List ℕ) → live_at number (held_by log).items ≡ Some item → item.bytes ≡ Some now
        → (version_at number content (held_by log) ≡ Some bytes) ↔ Contains (accepted_by log) (record { item = number; content = content; bytes = bytes }) }
{}
