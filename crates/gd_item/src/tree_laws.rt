//! What a drive holds stays a tree, each law the contract of a function that does nothing.
ghost use Rattle.std.specs.Prelude.{◌≡◌, ℕ, ◌+◌, true, false, List, [], ◌∷◌, ◌++◌, length};
ghost use Rattle.gd_names.specs.Settling.{is_taken};
ghost use Rattle.gd_item.specs.Inventory.{Effect, MadeFolder, PutNew, PutOver, Moved, new_drive, inventory};
ghost use Rattle.gd_item.specs.Moves.{is_in, is_taken_by_other, remove_effects};
ghost use Rattle.gd_item.specs.Nodes.{is_folder};
ghost use Rattle.gd_item.specs.Refusals.{is_there, siblings_in};
ghost use Rattle.gd_item.specs.Sound.{IsItemMap};
ghost use Rattle.gd_item.specs.Trees.{nodes_of};

/// The change number of a drive counts its effects, from 1 on.
pub fn numbers_count_effects()
    ensures { (effects : List Effect) → (inventory effects).number ≡ length effects + 1 }
{}

/// A new drive is a tree.
pub fn new_drive_is_tree()
    ensures { IsItemMap new_drive }
{}

/// A drive stays a tree where a folder is made in a folder that is there, with a name that no sibling has.
pub fn made_folder_keeps_tree()
    ensures { (effects : List Effect) (parent : ℕ) (name : List ℕ) → let held = inventory effects in
        IsItemMap held → is_there parent (nodes_of held) ≡ true → is_folder parent (nodes_of held) ≡ true
        → is_taken (siblings_in parent held.items) name ≡ false → IsItemMap (inventory (effects ++ MadeFolder parent name ∷ [])) }
{}

/// A drive stays a tree where a file is put in a folder that is there, with a name that no sibling has.
pub fn new_file_keeps_tree()
    ensures { (effects : List Effect) (parent : ℕ) (name bytes : List ℕ) → let held = inventory effects in
        IsItemMap held → is_there parent (nodes_of held) ≡ true → is_folder parent (nodes_of held) ≡ true
        → is_taken (siblings_in parent held.items) name ≡ false → IsItemMap (inventory (effects ++ PutNew parent name bytes ∷ [])) }
{}

/// A drive stays a tree where what is no folder gets new bytes.
pub fn new_bytes_keep_tree()
    ensures { (effects : List Effect) (number : ℕ) (bytes : List ℕ) → let held = inventory effects in
        IsItemMap held → is_folder number (nodes_of held) ≡ false → IsItemMap (inventory (effects ++ PutOver number bytes ∷ [])) }
{}

/// A drive stays a tree where an item is moved to a folder that is there and does not stand below it, with a name
/// that no other item of this folder has.
pub fn moved_item_keeps_tree()
    ensures { (effects : List Effect) (number parent : ℕ) (name : List ℕ) → let held = inventory effects in
        IsItemMap held → is_there parent (nodes_of held) ≡ true → is_folder parent (nodes_of held) ≡ true
        → is_in (nodes_of held) number parent ≡ false → is_taken_by_other number parent name held.items ≡ false
        → IsItemMap (inventory (effects ++ Moved number parent name ∷ [])) }
{}

/// A drive stays a tree where an item is removed with all that stands below it.
pub fn removed_items_keep_tree()
    ensures { (effects : List Effect) (number : ℕ) → let held = inventory effects in
        IsItemMap held → IsItemMap (inventory (effects ++ remove_effects held number)) }
{}
