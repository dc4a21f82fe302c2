//! Laws of how a name is settled. Each function does nothing: its contract is the law.
ghost use Rattle.std.specs.Prelude.{◌≡◌, ℕ, ◌<◌, ◌≤◌, Bool, true, false, List, length, Some};
ghost use Rattle.std.specs.List.{find};
ghost use Rattle.gd_names.specs.Caseless.{equal_caseless};
ghost use Rattle.gd_names.specs.Numbered.{numbered};
ghost use Rattle.gd_names.specs.Settling.{is_taken, least_number, settled};
ghost use Rattle.gd_names.specs.declared.conflict.Conflict.{Conflict};
ghost use Rattle.gd_names.specs.declared.conflict.Sibling.{Sibling};

use gd_names::Settle;

/// A name that is settled as free is no sibling's.
pub fn a_settled_name_is_free()
    ensures { (behaviour : Conflict) (siblings : List Sibling) (name free : List ℕ) (folder : Bool) → length siblings < 100000
        → settled behaviour siblings name folder ≡ Settle.Free free → is_taken siblings free ≡ false }
{}

/// Only a file goes over an item, and that item is the file that has the name.
pub fn a_file_goes_over_a_file()
    ensures { (behaviour : Conflict) (siblings : List Sibling) (name : List ℕ) (folder : Bool) (number : ℕ)
        → settled behaviour siblings name folder ≡ Settle.Over number
        → (sibling : Sibling) × (find (λ s. equal_caseless s.name name) siblings ≡ Some sibling) × (sibling.id ≡ number) × (sibling.folder ≡ false) × (folder ≡ false) }
{}

/// Each number below that of a renamed item is taken.
pub fn the_number_is_the_least()
    ensures { (siblings : List Sibling) (name : List ℕ) (folder : Bool) (n : ℕ) → 1 ≤ n
        → n < least_number siblings siblings name folder 1 → is_taken siblings (numbered name folder n) ≡ true }
{}
