//! Instances of the definitions, each the contract of a function that does nothing.
ghost use Rattle.std.specs.Prelude.{◌≡◌, false, [], ◌∷◌, codes, Some, None};
ghost use Rattle.gd_item.specs.Ids.{item_id};
ghost use Rattle.gd_item.specs.Inventory.{PutOver, inventory};
ghost use Rattle.gd_item.specs.Logs.{file_log, taken_log, removed_log};
ghost use Rattle.gd_item.specs.Nodes.{path_of};
ghost use Rattle.gd_item.specs.Refusals.{settled_in, make_folder_refusal, put_refusal, put_effect};
ghost use Rattle.gd_item.specs.Trees.{nodes_of, tree_of};

use crate::condition::Condition;
use crate::fault::StoreFault;
use crate::live::Place;
use gd_names::{Conflict, Settle};

/// A folder `d`, and a file `a` in it that got new bytes.
pub fn file_replaced()
    ensures held { inventory file_log ≡ record {
      number = 4;
      next = 4;
      items = record { number = 2; parent = 1; name = codes "d"; bytes = None; change = 2; content = 0 }
          ∷ record { number = 3; parent = 2; name = codes "a"; bytes = Some (codes "2"); change = 4; content = 4 } ∷ [];
      removed = [];
      replaced = record { item = 3; content = 3; bytes = codes "1" } ∷ [];
      kept = 2;
    } }
    ensures path { path_of (nodes_of (inventory file_log)) 3 ≡ Some (codes "d" ∷ codes "a" ∷ []) }
    ensures tree { tree_of (inventory file_log) ≡ (codes "d" ∷ [], None) ∷ (codes "d" ∷ codes "a" ∷ [], Some (codes "2")) ∷ [] }
{}

/// `A` is put where `a` is taken: over `a` where it is to be replaced, and else refused.
pub fn taken_name_put()
    ensures settled { settled_in (inventory taken_log) 1 (codes "A") Conflict.Replace false ≡ Settle.Over 2 }
    ensures effect { put_effect (inventory taken_log) (Place.Under (item_id 1) (codes "A")) (codes "2") Conflict.Replace ≡ PutOver 2 (codes "2") }
    ensures accepted { put_refusal (inventory taken_log) (Place.Under (item_id 1) (codes "A")) (codes "2") Conflict.Replace Condition.Free 0 ≡ None }
    ensures refused { put_refusal (inventory taken_log) (Place.Under (item_id 1) (codes "A")) (codes "2") Conflict.Fail Condition.Free 0 ≡ Some StoreFault.NameTaken }
{}

/// A folder is not made in one that is not there, in a file, or with a reserved name.
pub fn folder_refusals()
    ensures missing { make_folder_refusal (inventory file_log) 9 (codes "x") Conflict.Fail ≡ Some StoreFault.NotFound }
    ensures file { make_folder_refusal (inventory file_log) 3 (codes "x") Conflict.Fail ≡ Some StoreFault.NotFolder }
    ensures reserved { make_folder_refusal (inventory file_log) 1 (codes "con") Conflict.Fail ≡ Some StoreFault.BadName }
{}

/// Of a folder that is removed with its file two tombstones are left.
pub fn folder_removed()
    ensures items { (inventory removed_log).items ≡ [] }
    ensures removed { (inventory removed_log).removed ≡ record { number = 3; parent = 2; change = 4 } ∷ record { number = 2; parent = 1; change = 5 } ∷ [] }
{}
