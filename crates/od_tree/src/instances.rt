//! Instances of the definitions, each the contract of a function that does nothing.
ghost use Rattle.std.specs.Prelude.{◌≡◌, true, false, [], ◌∷◌, codes, Some, None};
ghost use Rattle.od_tree.specs.Listing.{entries_in};
ghost use Rattle.od_tree.specs.Local.{local_of, local_tree, op_refusal};
ghost use Rattle.od_tree.specs.Loss.{is_somewhere, is_replaced, writes};
ghost use Rattle.od_tree.specs.Samples.{first_file, placed_file, written_log, moved_log, aside_log, back_log, replaced_log, folder_log, file_log, held_log, discarded_log};

use crate::fault::TreeFault;
use crate::step::TreeOp;

/// A file keeps the write from which it stems wherever it is carried.
pub fn file_carried()
    ensures written { local_of written_log ≡ record { spots = record { path = codes "a" ∷ []; file = Some first_file } ∷ []; held = [] } }
    ensures moved { local_of moved_log ≡ record { spots = record { path = codes "b" ∷ []; file = Some first_file } ∷ []; held = [] } }
    ensures held { local_of aside_log ≡ record { spots = []; held = record { number = 1; from = codes "b" ∷ []; file = first_file } ∷ [] } }
    ensures back { local_of back_log ≡ record { spots = record { path = codes "c" ∷ []; file = Some first_file } ∷ []; held = [] } }
{}

/// A file that the user overwrites is replaced, and stands nowhere.
pub fn file_overwritten()
    ensures writes { writes replaced_log ≡ (0, codes "1") ∷ (4, codes "2") ∷ [] }
    ensures before { is_replaced 0 back_log ≡ false }
    ensures there { is_somewhere 0 (local_of back_log) ≡ true }
    ensures replaced { is_replaced 0 replaced_log ≡ true }
    ensures nowhere { is_somewhere 0 (local_of replaced_log) ≡ false }
    ensures other { is_somewhere 4 (local_of replaced_log) ≡ true }
{}

/// What is there is not made again, a folder with a file in it is not removed, and nothing is put back without a folder.
pub fn calls_refused()
    ensures made { op_refusal (local_of []) (TreeOp.MakeDir (codes "d" ∷ [])) ≡ None }
    ensures made_again { op_refusal (local_of folder_log) (TreeOp.MakeDir (codes "d" ∷ [])) ≡ Some TreeFault.Taken }
    ensures placed { op_refusal (local_of folder_log) (TreeOp.Place (codes "d" ∷ codes "f" ∷ []) (codes "1")) ≡ None }
    ensures placed_again { op_refusal (local_of file_log) (TreeOp.Place (codes "d" ∷ codes "f" ∷ []) (codes "1")) ≡ Some TreeFault.Taken }
    ensures not_empty { op_refusal (local_of file_log) (TreeOp.RemoveDir (codes "d" ∷ [])) ≡ Some TreeFault.NotEmpty }
    ensures aside { (local_of held_log).held ≡ record { number = 1; from = codes "d" ∷ codes "f" ∷ []; file = placed_file } ∷ [] }
    ensures no_folder { op_refusal (local_of held_log) (TreeOp.PutBack 1 (codes "q" ∷ codes "f" ∷ [])) ≡ Some TreeFault.Missing }
    ensures discarded { op_refusal (local_of held_log) (TreeOp.Discard 1) ≡ None }
    ensures gone { op_refusal (local_of discarded_log) (TreeOp.Read (codes "d" ∷ codes "f" ∷ [])) ≡ Some TreeFault.Missing }
{}

/// A folder with a file in it.
pub fn folder_listed()
    ensures root { entries_in [] (local_of file_log).spots ≡ record { name = codes "d"; folder = true; size = 0 } ∷ [] }
    ensures folder { entries_in (codes "d" ∷ []) (local_of file_log).spots ≡ record { name = codes "f"; folder = false; size = 1 } ∷ [] }
    ensures tree { local_tree file_log ≡ (codes "d" ∷ [], None) ∷ (codes "d" ∷ codes "f" ∷ [], Some (codes "1")) ∷ [] }
{}
