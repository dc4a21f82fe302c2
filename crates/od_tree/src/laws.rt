//! Laws of the definitions, each the contract of a function that does nothing.
ghost use Rattle.std.specs.Prelude.{◌≡◌, ℕ, true, false, ◌||◌, List, [], ◌∷◌, ◌++◌, length, Some};
ghost use Rattle.std.specs.List.{list_any, AllByRecursion};
ghost use Rattle.gd_item.specs.declared.live.Version.{Version};
ghost use Rattle.od_tree.specs.Collisions.{contents};
ghost use Rattle.od_tree.specs.GoingOn.{GoesOn};
ghost use Rattle.od_tree.specs.Holding.{ByNumber};
ghost use Rattle.od_tree.specs.Local.{local_of, has_place};
ghost use Rattle.od_tree.specs.Loss.{is_somewhere, is_replaced, no_loss};
ghost use Rattle.od_tree.specs.Memory.{log_of, faults_of, edits_of, failing_of, stops_of};
ghost use Rattle.od_tree.specs.Shape.{IsTree, IsOneOf};
ghost use Rattle.od_tree.specs.Taking.{may_take, is_discard};
ghost use Rattle.od_tree.specs.Undisturbed.{GrowsByOps};
ghost use Rattle.od_tree.specs.declared.local.Spot.{Spot};
ghost use Rattle.od_tree.specs.declared.memory.MemoryTree.{MemoryTree};
ghost use Rattle.od_tree.specs.declared.step.LocalStep.{LocalStep};
ghost use Rattle.od_tree.specs.declared.step.LocalStep.TheVariants.{User};
ghost use Rattle.od_tree.specs.declared.edit.UserEdit.TheVariants.{Write};

/// A file that stems from a write of the user stays at a path or in holding, but for a later write, removal or move of
/// the user and for a discard.
pub fn only_the_user_or_a_discard_takes_a_file()
    ensures { (log : List LocalStep) (step : LocalStep) (n : ℕ) → may_take step ≡ false
        → is_somewhere n (local_of log) ≡ true → is_somewhere n (local_of (log ++ step ∷ [])) ≡ true }
{}

/// Without a discard a file that stems from a write of the user stands somewhere, or the user replaced it, once it does.
pub fn a_file_stays_or_is_replaced()
    ensures { (log : List LocalStep) (step : LocalStep) (n : ℕ) → is_discard step ≡ false
        → (is_somewhere n (local_of log) || is_replaced n log) ≡ true
        → (is_somewhere n (local_of (log ++ step ∷ [])) || is_replaced n (log ++ step ∷ [])) ≡ true }
{}

/// A write of the user that has a place makes a file that stems from it.
pub fn a_written_file_stands()
    ensures { (log : List LocalStep) (at : List (List ℕ)) (bytes : List ℕ) → has_place (local_of log) (Write at bytes) ≡ true
        → is_somewhere (length log) (local_of (log ++ User (Write at bytes) ∷ [])) ≡ true }
{}

/// Where the client discards nothing, no write of the user is lost.
pub fn nothing_is_lost_without_a_discard()
    ensures { (log : List LocalStep) (versions : List Version) → list_any is_discard log ≡ false → no_loss log versions ≡ true }
{}

/// While the client discards nothing, no more writes of the user are lost.
pub fn no_more_is_lost_without_a_discard()
    ensures { (log more : List LocalStep) (versions later : List Version) → list_any is_discard more ≡ false
        → no_loss log versions ≡ true → no_loss (log ++ more) (versions ++ later) ≡ true }
{}

/// The entries of every folder make a tree.
pub fn every_folder_is_a_tree()
    ensures { (log : List LocalStep) → IsTree (local_of log).spots }
{}

/// The held files of every folder stand in order of number, each with a number of its own.
pub fn held_files_are_by_number()
    ensures { (log : List LocalStep) → ByNumber (local_of log).held }
{}

/// The bytes of each file in the folder were written by the user or placed by the client.
pub fn contents_were_written_or_placed()
    ensures { (log : List LocalStep) (versions : List Version) → AllByRecursion (λ (spot : Spot). IsOneOf (contents log versions) spot.file) (local_of log).spots }
{}

/// A folder in memory without armed edits grows by operations alone.
pub fn an_unedited_folder_grows_by_operations()
    ensures { (before after : MemoryTree) (log : List LocalStep) → edits_of before ≡ [] → log_of before ≡ Some log → GoesOn before after → GrowsByOps log (log_of after) }
{}

/// A folder in memory at which no calls and no stops are listed never fails.
pub fn an_unlisted_folder_never_fails()
    ensures { (before after : MemoryTree) → failing_of before ≡ [] → stops_of before ≡ [] → GoesOn before after → faults_of after ≡ faults_of before }
{}
