//! Laws of the drive's log, each the contract of a function that does nothing.
ghost use Rattle.std.specs.Prelude.{◌≡◌, ℕ, ◌<◌, ◌≤◌, true, List, ◌++◌, take, Some};
ghost use Rattle.std.specs.List.{Any, AllPairs};
ghost use Rattle.gd_item.specs.Completions.{completions, received, bytes_in};
ghost use Rattle.gd_item.specs.Inventory.{Inventory};
ghost use Rattle.gd_item.specs.Records.{feed, last_of};
ghost use Rattle.gd_item.specs.Sessions.{Session, session_at};
ghost use Rattle.gd_item.specs.Steps.{state_of, held_by, number_of, accepted_by};
ghost use Rattle.gd_item.specs.Versions.{version_at};

use crate::item::Item;
use crate::live::Version;
use crate::step::Step;

/// More steps lower neither the change number nor the epoch nor the floor, and a plain drive stays plain.
pub fn numbers_never_fall()
    ensures number { (log more : List Step) → number_of log ≤ number_of (log ++ more) }
    ensures epoch { (log more : List Step) → (state_of log).epoch ≤ (state_of (log ++ more)).epoch }
    ensures floor { (log more : List Step) → (state_of log).floor ≤ (state_of (log ++ more)).floor }
    ensures plain { (log more : List Step) → (state_of log).plain ≡ true → (state_of (log ++ more)).plain ≡ true }
{}

/// What was accepted stays, and later versions come after it.
pub fn accepted_versions_stay()
    ensures { (log more : List Step) → (later : List Version) × (accepted_by (log ++ more) ≡ accepted_by log ++ later) }
{}

/// The bytes of each version that a drive can give are those of an accepted version.
pub fn a_version_is_accepted()
    ensures { (log : List Step) (number content : ℕ) (bytes : List ℕ) → version_at number content (held_by log) ≡ Some bytes
        → Any (λ (version : Version). version ≡ record { item = number; content = content; bytes = bytes }) (accepted_by log) }
{}

/// The numbers of a feed rise. A page of it and the feed past the page's last number are the feed, so each change
/// that stands until then is given once.
pub fn pages_give_each_change_once()
    ensures rises { (held : Inventory) (position start : ℕ) → AllPairs (λ (x y : ℕ × Item). x.0 < y.0) (feed held position start) }
    ensures later { (held : Inventory) (position start size last : ℕ) → 0 < size → last_of size (feed held position start) ≡ Some last → position < last }
    ensures rest { (held : Inventory) (position start size last : ℕ) → 0 < size → last_of size (feed held position start) ≡ Some last
        → feed held position start ≡ take size (feed held position start) ++ feed held last start }
{}

/// An upload session is completed at most once.
pub fn a_session_completes_once()
    ensures { (session : ℕ) (log : List Step) → completions session log ≤ 1 }
{}

/// The bytes of an upload session that lives are those of its accepted fragments, joined.
pub fn session_bytes_are_those_received()
    ensures { (log : List Step) (number : ℕ) (session : Session) → session_at number (state_of log).sessions ≡ Some session → session.filled ≡ received number log }
{}

/// The kept bytes that count against the limit are those of all accepted versions.
pub fn kept_bytes_are_those_of_versions()
    ensures { (log : List Step) → (held_by log).kept ≡ bytes_in (accepted_by log) }
{}
