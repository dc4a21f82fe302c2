//! Laws of plans, each the contract of a function that does nothing.
ghost use Rattle.std.specs.Prelude.{◌≡◌, ℕ, List, true, false, is_some};
ghost use Rattle.gd_item.specs.declared.item.Item.{Item};
ghost use Rattle.od_keeper.specs.declared.image.BaseRow.{BaseRow};
ghost use Rattle.od_merge.specs.Core.{is_in};
ghost use Rattle.od_merge.specs.Merging.{both_paths, is_left, why_held};
ghost use Rattle.od_merge.specs.Sides.{at, is_kept_there, same};
ghost use Rattle.od_merge.specs.Steps.{AreTrees, IsDriveTree, IsMerged};
ghost use Rattle.od_reconcile.specs.Entries.{local_tree, remote_tree};
ghost use Rattle.od_reconcile.specs.Plans.{IsPlan, begun, limits_then, renamed_sides};
ghost use Rattle.od_reconcile.specs.Promises.{IsEmpty};

use crate::types::{Node, Plan};

/// Doing a plan makes both sides the target, at each path that is kept and not at or below a conflict that is left, and on
/// the drive at each that is not held.
pub fn a_plan_makes_the_target()
    ensures { (rules host : List ℕ) (rows : List BaseRow) (local : List (List (List ℕ) × Node)) (items : List (List (List ℕ) × Item)) (quota : List (List (List ℕ)))
        → IsDriveTree (remote_tree items) → (path : List (List ℕ))
        → is_kept_there (renamed_sides rules host rows local items) path ≡ true → is_left (renamed_sides rules host rows local items) path ≡ false
        → is_in path (both_paths (renamed_sides rules host rows local items)) ≡ true
        → IsMerged (λ other. is_some (why_held (limits_then rules host rows local items quota) (renamed_sides rules host rows local items) other)) (renamed_sides rules host rows local items) path }
{}

/// Where the folder and the drive are trees and have the same everywhere, a plan is empty.
pub fn equal_sides_need_no_plan()
    ensures { (rules host : List ℕ) (rows : List BaseRow) (local : List (List (List ℕ) × Node)) (items : List (List (List ℕ) × Item)) (quota : List (List (List ℕ))) (plan : Plan)
        → IsPlan rules host rows local items quota plan → AreTrees (begun rules rows local items)
        → ((path : List (List ℕ)) → same (at (local_tree local) path) (at (remote_tree items) path) ≡ true) → IsEmpty plan }
{}
