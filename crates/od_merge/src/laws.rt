ghost use Rattle.std.specs.Prelude.{◌≡◌, ℕ, is_none, is_some, List, [], true, false, length, nat_lt, Option, Some, None, Bool};
ghost use Rattle.od_merge.specs.Sides.{Sides, at, is_below, is_file, is_folder, is_from, is_kept_there, same};
ghost use Rattle.od_merge.specs.Merging.{both_paths, is_conflict, is_going, is_left, renamed, target, wanted, why_held, Limits};
ghost use Rattle.od_merge.specs.Steps.{done, is_fetched, is_sent, stands, steps_here, steps_there, Fits, IsClear, IsCopying, IsDriveTree, IsMerged, IsProper};
ghost use Rattle.od_merge.specs.Core.{core, is_in, IsTree};

use crate::content::Content;

/// Doing the steps makes the local side the target at each path that is kept and no conflict; what is skipped there
/// and a folder that does not go stay.
pub fn steps_here_make_the_target()
    ensures { (s : Sides) → Fits s → (path : List (List ℕ)) → IsClear s path → is_in path (both_paths s) ≡ true
        → done (steps_here s) path (at s.local path) ≡ stands s s.local path }
{}

/// The same of the drive, at each path that is not held.
pub fn steps_there_make_the_target()
    ensures { (s : Sides) → Fits s → (is_held : List (List ℕ) → Bool) → (path : List (List ℕ)) → IsClear s path → is_held path ≡ false → is_in path (both_paths s) ≡ true
        → done (steps_there is_held s) path (at s.remote path) ≡ stands s s.remote path }
{}

/// Where the local side is as the base, the drive is the target.
pub fn drive_alone_is_the_target()
    ensures { (base local remote : List (List (List ℕ) × Content)) → IsTree remote → ((path : List (List ℕ)) → same (at local path) (at base path) ≡ true)
        → (path : List (List ℕ)) → nat_lt 0 (length path) ≡ true → target (core base local remote) path ≡ at remote path }
{}

/// Where the drive is as the base, the local side is the target.
pub fn user_alone_is_the_target()
    ensures { (base local remote : List (List (List ℕ) × Content)) → IsTree local → ((path : List (List ℕ)) → same (at remote path) (at base path) ≡ true)
        → (path : List (List ℕ)) → nat_lt 0 (length path) ≡ true → target (core base local remote) path ≡ at local path }
{}

/// Where both sides are the same, they are the target, whatever the base is.
pub fn same_sides_are_the_target()
    ensures { (base tree : List (List (List ℕ) × Content)) → IsTree tree → (path : List (List ℕ)) → nat_lt 0 (length path) ≡ true → target (core base tree tree) path ≡ at tree path }
{}

/// Then there is nothing to do.
pub fn same_sides_have_no_steps()
    ensures here { (base tree : List (List (List ℕ) × Content)) → IsTree tree → steps_here (core base tree tree) ≡ [] }
    ensures there { (base tree : List (List (List ℕ) × Content)) → IsTree tree → steps_there (λ path. false) (core base tree tree) ≡ [] }
{}

/// Conflicts that are moved to paths beside them, which the drive does not have, leave no conflict, and make none.
pub fn renames_leave_no_conflict()
    ensures { (s : Sides) → IsDriveTree s.remote
        → (copy : List (List (List ℕ)) → List (List ℕ) → Option (List (List ℕ))) → IsCopying copy
        → (path : List (List ℕ)) → is_left (renamed copy s) path ≡ false → is_conflict (renamed copy s) path ≡ false }
{}

/// After the renames the plan's steps make both sides the target: at each path that is kept and not at or below a conflict
/// that is left, and on the drive at each that is not held.
pub fn plan_makes_the_target()
    ensures { (s : Sides) → IsDriveTree s.remote → (copy : List (List (List ℕ)) → List (List ℕ) → Option (List (List ℕ))) → IsCopying copy → (limits : Limits)
        → (path : List (List ℕ)) → is_kept_there (renamed copy s) path ≡ true → is_left (renamed copy s) path ≡ false → is_in path (both_paths (renamed copy s)) ≡ true
        → IsMerged (λ other. is_some (why_held limits (renamed copy s) other)) (renamed copy s) path }
{}

/// A file of the folder that is taken away or replaced is what both sides had agreed on.
pub fn files_that_go_are_as_agreed()
    ensures removed { (s : Sides) (path : List (List ℕ)) → IsClear s path → is_file (at s.local path) ≡ true → is_none (target s path) ≡ true → same (at s.local path) (s.base path) ≡ true }
    ensures by_folder { (s : Sides) (path : List (List ℕ)) → IsClear s path → is_file (at s.local path) ≡ true → is_folder (at s.remote path) ≡ true → same (at s.local path) (s.base path) ≡ true }
    ensures by_file { (s : Sides) (path : List (List ℕ)) → IsClear s path → is_file (at s.local path) ≡ true → is_fetched s path ≡ true → same (at s.local path) (s.base path) ≡ true }
{}

/// A file that the user changed is wanted as it is.
pub fn a_changed_file_is_wanted()
    ensures { (s : Sides) (path : List (List ℕ)) → IsClear s path → is_file (at s.local path) ≡ true → same (at s.local path) (s.base path) ≡ false → wanted s path ≡ at s.local path }
{}

/// Nothing is carried to a path at which both sides are the same.
pub fn what_is_the_same_is_not_carried()
    ensures fetched { (s : Sides) (path : List (List ℕ)) → same (at s.local path) (at s.remote path) ≡ true → is_fetched s path ≡ false }
    ensures sent { (s : Sides) (path : List (List ℕ)) → IsClear s path → same (at s.local path) (at s.remote path) ≡ true → is_sent s path ≡ false }
{}

/// Where nothing is kept, nothing is done.
pub fn what_is_not_kept_stays()
    ensures here { (s : Sides) → IsProper s → (path : List (List ℕ)) → nat_lt 0 (length path) ≡ true → is_kept_there s path ≡ false → is_in path (both_paths s) ≡ true
        → done (steps_here s) path (at s.local path) ≡ at s.local path }
    ensures there { (s : Sides) → IsProper s → (is_held : List (List ℕ) → Bool) (path : List (List ℕ)) → nat_lt 0 (length path) ≡ true → is_kept_there s path ≡ false → is_in path (both_paths s) ≡ true
        → done (steps_there is_held s) path (at s.remote path) ≡ at s.remote path }
{}
