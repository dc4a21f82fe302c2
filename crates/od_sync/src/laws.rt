//! Laws of the definitions, each the contract of a function that does nothing.
ghost use Rattle.std.specs.Prelude.{◌≡◌, ℕ, ◌<◌, true, [], ◌∷◌, ◌++◌, length, map, None, Some, List, Option};
ghost use Rattle.std.specs.List.{All};
ghost use Rattle.gd_item.specs.Steps.{state_of, held_by, accepted_by};
ghost use Rattle.gd_item.specs.Trees.{tree_of};
ghost use Rattle.gd_item.specs.Records.{records_of};
ghost use Rattle.gd_item.specs.declared.item.Item.{Item};
ghost use Rattle.gd_item.specs.declared.step.Step.{Step};
ghost use Rattle.gd_item.specs.Views.{ItemsAre, uncounted};
ghost use Rattle.od_mirror.specs.Pulled.{paths_of};
ghost use Rattle.od_pages.specs.Pulls.{token_then};
ghost use Rattle.od_mirror.specs.declared.view.MirrorView.{MirrorView};
ghost use Rattle.od_transfer.specs.Alone.{AreOwnServed};
ghost use Rattle.od_transfer.specs.Asking.{OwnAre};
ghost use Rattle.od_sync.specs.Comparing.{is_same, scanned};
ghost use Rattle.od_sync.specs.FreshPlans.{FreshPlan};
ghost use Rattle.od_sync.specs.Planning.{planned_fetches, planned_folders};
ghost use Rattle.od_sync.specs.Pulls.{PullsView, PullsBad, seen};
ghost use Rattle.od_sync.specs.Syncing.{IsSyncRequest};
ghost use Rattle.od_tree.specs.Collisions.{NoCollision};
ghost use Rattle.od_tree.specs.Local.{local_tree};
ghost use Rattle.od_tree.specs.declared.step.LocalStep.{LocalStep};

/// A first pull gives what the drive held when it was asked, and the token of that moment.
pub fn a_first_pull_mirrors_the_drive()
    ensures items { (old : List Step) (after : Option (List Step)) (view : MirrorView) (pulled : PullsView [] None old after view)
        → view.items ≡ records_of (held_by (seen old pulled.last)) }
    ensures token { (old : List Step) (after : Option (List Step)) (view : MirrorView) (pulled : PullsView [] None old after view)
        → view.token ≡ token_then (seen old pulled.last) }
{}

/// A pull over the items and the token of a sound image gives what the drive held when it was asked, but for the numbers of
/// children, and never bad items. What it gives is sound in turn.
pub fn a_pull_mirrors_the_drive()
    ensures items { (items : List Item) (token : Option (List ℕ)) (old : List Step) (after : Option (List Step)) (view : MirrorView)
        (pulled : PullsView items token old after view) → ItemsAre items old token
        → map uncounted view.items ≡ map uncounted (records_of (held_by (seen old pulled.last))) }
    ensures sound { (items : List Item) (token : Option (List ℕ)) (old : List Step) (after : Option (List Step)) (view : MirrorView)
        (pulled : PullsView items token old after view) → ItemsAre items old token → ItemsAre view.items (seen old pulled.last) (Some view.token) }
    ensures never_bad { (items : List Item) (token : Option (List ℕ)) (old : List Step) (after : Option (List Step)) (number : ℕ)
        → PullsBad items token old after number → ItemsAre items old token → ⊥ }
{}

/// A scan of the local folder compares as the same with what was pulled of a drive only where the folder's tree is the drive's,
/// unless two contents have one digest.
pub fn the_same_entries_are_the_same_trees()
    ensures { (local more : List LocalStep) (drive later : List Step) (items : List Item)
        → map uncounted items ≡ map uncounted (records_of (held_by drive)) → NoCollision (local ++ more) (accepted_by (drive ++ later))
        → is_same (scanned (local_tree local)) (paths_of items) ≡ true → local_tree local ≡ tree_of (held_by drive) }
{}

/// Where the folder's tree is the drive's, they compare as the same.
pub fn the_same_trees_have_the_same_entries()
    ensures { (local : List LocalStep) (drive : List Step) (items : List Item) → map uncounted items ≡ map uncounted (records_of (held_by drive))
        → local_tree local ≡ tree_of (held_by drive) → is_same (scanned (local_tree local)) (paths_of items) ≡ true }
{}

/// Served requests of a sync change nothing on the drive.
pub fn syncs_change_nothing()
    ensures { (old part : List Step) → OwnAre IsSyncRequest part → AreOwnServed part → state_of (old ++ part) ≡ state_of old }
{}

/// Where nothing stands in the folder and nothing was agreed on, the plan can be done, and makes the drive's tree. No entry is
/// at the path of the root.
pub fn a_fresh_plan_makes_the_drives_tree()
    ensures plan { (drive : List Step) (items : List Item) → map uncounted items ≡ map uncounted (records_of (held_by drive))
        → FreshPlan (held_by drive) (planned_folders [] [] (paths_of items)) (planned_fetches [] [] (paths_of items)) }
    ensures below { (items : List Item) → All (λ (entry : List (List ℕ) × Item). 0 < length entry.0) (paths_of items) }
{}
