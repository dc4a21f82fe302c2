//! What a drive refuses at its limits, which no test reaches: instances of the definitions, each the contract of a
//! function that does nothing.
ghost use Rattle.std.specs.Prelude.{◌≡◌, ◌∷◌, [], codes, Some, None};
ghost use Rattle.gd_item.specs.Ids.{item_id};
ghost use Rattle.gd_item.specs.Moves.{patch_refusal, remove_refusal};
ghost use Rattle.gd_item.specs.Refusals.{make_folder_refusal, put_refusal};
ghost use Rattle.drive_tests.specs.Full.{last_number, many_bytes, many_items};

use gd_item::{Condition, Place, StoreFault};
use gd_names::Conflict;

/// No change number is left.
pub fn last_number_reached()
    ensures folder { make_folder_refusal last_number 1 (codes "x") Conflict.Fail ≡ Some StoreFault.Quota }
    ensures file { put_refusal last_number (Place.Under (item_id 1) (codes "x")) [] Conflict.Fail Condition.Free 0 ≡ Some StoreFault.Quota }
    ensures over { put_refusal last_number (Place.Over (item_id 3)) [] Conflict.Fail Condition.Free 0 ≡ Some StoreFault.Quota }
    ensures moved { patch_refusal last_number 3 (Some (codes "x")) None Condition.Free ≡ Some StoreFault.Quota }
    ensures removed { remove_refusal last_number 2 Condition.Free ≡ Some StoreFault.Quota }
    ensures taken_first { make_folder_refusal last_number 1 (codes "D") Conflict.Fail ≡ Some StoreFault.NameTaken }
    ensures into_itself_first { patch_refusal last_number 2 None (Some 2) Condition.Free ≡ Some StoreFault.IntoItself }
    ensures condition_first { remove_refusal last_number 2 (Condition.Match (codes "e9")) ≡ Some StoreFault.Modified }
{}

/// No byte more is kept.
pub fn most_bytes_kept()
    ensures empty { put_refusal many_bytes (Place.Under (item_id 1) (codes "x")) [] Conflict.Fail Condition.Free 0 ≡ None }
    ensures one { put_refusal many_bytes (Place.Under (item_id 1) (codes "x")) (codes "1") Conflict.Fail Condition.Free 0 ≡ Some StoreFault.Quota }
    ensures session { put_refusal many_bytes (Place.Under (item_id 1) (codes "x")) [] Conflict.Fail Condition.Free 1 ≡ Some StoreFault.Quota }
{}

/// No item more lives.
pub fn most_items_live()
    ensures folder { make_folder_refusal many_items 1 (codes "x") Conflict.Fail ≡ Some StoreFault.Quota }
    ensures file { put_refusal many_items (Place.Under (item_id 1) (codes "x")) [] Conflict.Fail Condition.Free 0 ≡ Some StoreFault.Quota }
{}
