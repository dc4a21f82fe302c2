//! Cases of the merge, each the contract of a function that does nothing.
ghost use Rattle.std.specs.Prelude.{◌≡◌, ◌∷◌, [], Some, None};
ghost use Rattle.od_merge.specs.declared.content.Content.TheVariants.{Folder, File};
ghost use Rattle.od_merge.specs.declared.why.Why.TheVariants.{CaseClash, BadName, NoCopyName};
ghost use Rattle.od_merge.specs.Instances.{
  a,
  b,
  c,
  d,
  e,
  f,
  x,
  upper_a,
  upper_d,
  known,
  plain,
  edit_edit,
  folder_to_file,
  filtered,
  staying,
  not_empty,
  clash_new,
  clash_old,
  clash_below,
  clash_skipped,
  case_moved,
  file_to_folder,
  passes_later,
  no_name_left,
  flown,
  moved_there,
  moved_here,
  moved_case,
  moved_chain,
  upper_b,
  all,
  with_file,
};
ghost use Rattle.od_merge.specs.Sides.{sides_of};
ghost use Rattle.od_merge.specs.Steps.{AreTrees};

pub fn plain_changes()
    ensures { plain ≡ record {
      renames = [];
      target = (a ∷ [], Some (known 2)) ∷ (b ∷ [], Some (known 2)) ∷ (c ∷ [], None) ∷ (d ∷ [], None) ∷ (e ∷ [], Some (known 5)) ∷ (f ∷ [], Some (known 6)) ∷ [];
      gone_here = (c ∷ []) ∷ [];
      gone_there = (d ∷ []) ∷ [];
      held = [];
    } }
{}

pub fn edit_against_edit()
    ensures { edit_edit ≡ record {
      renames = (a ∷ [], (97 ∷ 1 ∷ []) ∷ []) ∷ [];
      target = (a ∷ [], Some (known 3)) ∷ ((97 ∷ 1 ∷ []) ∷ [], Some (known 2)) ∷ [];
      gone_here = [];
      gone_there = [];
      held = [];
    } }
{}

pub fn folder_against_file()
    ensures { folder_to_file ≡ record {
      renames = (d ∷ [], (100 ∷ 1 ∷ []) ∷ []) ∷ [];
      target = (d ∷ [], Some (known 3)) ∷ ((100 ∷ 1 ∷ []) ∷ [], Some Folder) ∷ ((100 ∷ 1 ∷ []) ∷ f ∷ [], Some (known 2)) ∷ [];
      gone_here = [];
      gone_there = [];
      held = [];
    } }
{}

pub fn folders_above()
    ensures { filtered ≡ record {
      renames = [];
      target = (a ∷ [], Some Folder) ∷ (a ∷ b ∷ [], Some Folder) ∷ (a ∷ b ∷ c ∷ [], Some (known 1)) ∷ (a ∷ x ∷ [], None) ∷ [];
      gone_here = [];
      gone_there = [];
      held = [];
    } }
{}

pub fn folder_that_passes_stays()
    ensures { staying ≡ record {
      renames = [];
      target = (d ∷ [], Some Folder) ∷ (d ∷ a ∷ [], None) ∷ (d ∷ x ∷ [], None) ∷ [];
      gone_here = [];
      gone_there = (d ∷ a ∷ []) ∷ [];
      held = [];
    } }
{}

pub fn folder_that_is_not_empty()
    ensures { not_empty ≡ record {
      renames = [];
      target = (d ∷ [], None) ∷ (d ∷ a ∷ [], None) ∷ (d ∷ x ∷ [], None) ∷ [];
      gone_here = [];
      gone_there = (d ∷ a ∷ []) ∷ [];
      held = [];
    } }
{}

pub fn new_names_clash()
    ensures { clash_new ≡ record {
      renames = [];
      target = (upper_a ∷ [], Some (known 2)) ∷ (a ∷ [], Some (known 1)) ∷ ((99 ∷ 0 ∷ []) ∷ [], Some (known 3)) ∷ (e ∷ [], Some (known 4)) ∷ [];
      gone_here = [];
      gone_there = [];
      held = (upper_a ∷ [], CaseClash) ∷ ((99 ∷ 0 ∷ []) ∷ [], BadName) ∷ [];
    } }
{}

pub fn old_name_clashes()
    ensures { clash_old ≡ record {
      renames = [];
      target = (upper_a ∷ [], Some (known 3)) ∷ (a ∷ [], Some (known 2)) ∷ [];
      gone_here = [];
      gone_there = [];
      held = (upper_a ∷ [], CaseClash) ∷ (a ∷ [], CaseClash) ∷ [];
    } }
{}

pub fn folders_clash()
    ensures { clash_below ≡ record {
      renames = [];
      target = (upper_d ∷ [], Some Folder) ∷ (d ∷ [], Some Folder) ∷ (d ∷ f ∷ [], Some (known 1)) ∷ (d ∷ x ∷ [], Some (known 2)) ∷ [];
      gone_here = [];
      gone_there = [];
      held = (upper_d ∷ [], CaseClash) ∷ (d ∷ x ∷ [], CaseClash) ∷ [];
    } }
{}

pub fn skipped_name_clashes()
    ensures { clash_skipped ≡ record {
      renames = [];
      target = (upper_a ∷ [], None) ∷ (a ∷ [], Some (known 1)) ∷ [];
      gone_here = [];
      gone_there = [];
      held = (a ∷ [], CaseClash) ∷ [];
    } }
{}

pub fn removed_name_does_not_clash()
    ensures { case_moved ≡ record {
      renames = [];
      target = (upper_a ∷ [], Some (known 1)) ∷ (a ∷ [], None) ∷ [];
      gone_here = [];
      gone_there = (a ∷ []) ∷ [];
      held = [];
    } }
{}

pub fn file_became_a_folder()
    ensures { file_to_folder ≡ record {
      renames = (a ∷ [], (97 ∷ 1 ∷ []) ∷ []) ∷ [];
      target = (a ∷ [], None) ∷ ((97 ∷ 1 ∷ []) ∷ [], Some Folder) ∷ ((97 ∷ 1 ∷ []) ∷ x ∷ [], Some (known 2)) ∷ [];
      gone_here = [];
      gone_there = (a ∷ []) ∷ [];
      held = [];
    } }
{}

pub fn no_copy_name_is_left()
    ensures { no_name_left ≡ record {
      renames = [];
      target = (d ∷ [], Some Folder) ∷ (d ∷ a ∷ [], None) ∷ (d ∷ (97 ∷ 1 ∷ []) ∷ [], Some (known 3)) ∷ (d ∷ (97 ∷ 2 ∷ []) ∷ [], Some (known 4)) ∷ [];
      gone_here = [];
      gone_there = [];
      held = (d ∷ a ∷ [], NoCopyName) ∷ [];
    } }
{}

pub fn landed_bytes_are_the_base()
    ensures { flown ≡ record {
      renames = [];
      target = (a ∷ [], Some (known 3)) ∷ [];
      gone_here = [];
      gone_there = [];
      held = [];
    } }
{}

pub fn moves_are_paired()
    ensures there { moved_there ≡ (a ∷ [], d ∷ b ∷ []) ∷ [] }
    ensures here { moved_here ≡ (a ∷ [], b ∷ []) ∷ [] }
    ensures other_case { moved_case ≡ (a ∷ [], upper_a ∷ []) ∷ [] }
    ensures chain { moved_chain ≡ (a ∷ [], upper_b ∷ []) ∷ [] }
{}

/// A folder with a file in it is a tree on both sides.
pub fn a_folder_with_a_file_is_a_tree()
    ensures { AreTrees (sides_of all [] with_file with_file) }
{}
