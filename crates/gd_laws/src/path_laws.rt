//! Paths and numbers name the same items, each law the contract of a function that does nothing.
ghost use Rattle.std.specs.Prelude.{◌≡◌, ◌↔◌, ℕ, List, All, Contains, Option, Some};
ghost use Rattle.gd_item.specs.Nodes.{path_of, number_at};
ghost use Rattle.gd_item.specs.Steps.{held_by};
ghost use Rattle.gd_item.specs.Trees.{nodes_of, tree_of};
ghost use Rattle.gd_laws.specs.Placed.{HasAt, StandsIn};

use gd_item::Step;

/// What stands at the path of an item is that item.
pub fn a_path_leads_to_its_item()
    ensures { (log : List Step) (number : ℕ) (path : List (List ℕ)) → let nodes = nodes_of (held_by log) in
        path_of nodes number ≡ Some path → number_at path nodes ≡ Some number }
{}

/// No two numbers have one path.
pub fn a_path_is_of_one_item()
    ensures { (log : List Step) (m n : ℕ) (path : List (List ℕ)) → let nodes = nodes_of (held_by log) in
        path_of nodes m ≡ Some path → path_of nodes n ≡ Some path → m ≡ n }
{}

/// The tree of a drive has each item at its path, and nothing else.
pub fn a_tree_has_each_item()
    ensures { (log : List Step) (path : List (List ℕ)) (bytes : Option (List ℕ)) → Contains (tree_of (held_by log)) (path, bytes) ↔ HasAt (held_by log) path bytes }
{}

/// What stands in the tree stands in the root or in a folder of the tree.
pub fn a_tree_has_each_folder()
    ensures { (log : List Step) → let tree = tree_of (held_by log) in All (λ (entry : List (List ℕ) × Option (List ℕ)). StandsIn tree entry.0) tree }
{}
