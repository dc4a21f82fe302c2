//! An instance of the definition, the contract of a function that does nothing.
ghost use Rattle.std.specs.Prelude.{◌≡◌, true, false, List, [], ◌∷◌, codes};
ghost use Rattle.gd_names.specs.Settling.{settled};
ghost use Rattle.gd_names.specs.declared.conflict.Sibling.{Sibling};

use gd_names::{Conflict, Settle};

/// `a.txt` beside the files `a.txt` and `A 1.TXT`.
pub fn a_taken_name()
    ensures fail { settled Conflict.Fail (record { id = 2; name = codes "a.txt"; folder = false } ∷ record { id = 3; name = codes "A 1.TXT"; folder = false } ∷ []) (codes "a.txt") false ≡ Settle.Refuse }
    ensures replace { settled Conflict.Replace (record { id = 2; name = codes "a.txt"; folder = false } ∷ record { id = 3; name = codes "A 1.TXT"; folder = false } ∷ []) (codes "a.txt") false ≡ Settle.Over 2 }
    ensures rename { settled Conflict.Rename (record { id = 2; name = codes "a.txt"; folder = false } ∷ record { id = 3; name = codes "A 1.TXT"; folder = false } ∷ []) (codes "a.txt") false ≡ Settle.Free (codes "a 2.txt") }
    ensures folder { settled Conflict.Replace (record { id = 2; name = codes "a.txt"; folder = false } ∷ []) (codes "a.txt") true ≡ Settle.Refuse }
{}
