//! The definition of the words at small lists. Each function does nothing: its contract is the instance.
ghost use Rattle.std.specs.Prelude.{◌≡◌, [], ◌∷◌, None, Some, true, false, codes};
ghost use Rattle.gd_words.specs.Words.{asks, serving_of};

use crate::asked::Serving;

pub fn words_serve()
    ensures port { serving_of (codes "serve" ∷ codes "--port" ∷ codes "8080" ∷ []) ≡ Some (record { port = 8080; connections = None }) }
    ensures both { serving_of (codes "serve" ∷ codes "--connections=3" ∷ codes "--port=1" ∷ []) ≡ Some (record { port = 1; connections = Some 3 }) }
{}

pub fn words_are_refused()
    ensures none { serving_of [] ≡ None }
    ensures alone { serving_of (codes "serve" ∷ []) ≡ None }
    ensures zero { serving_of (codes "serve" ∷ codes "--port" ∷ codes "0" ∷ []) ≡ None }
    ensures past { serving_of (codes "serve" ∷ codes "--port" ∷ codes "65536" ∷ []) ≡ None }
    ensures twice { serving_of (codes "serve" ∷ codes "--port=1" ∷ codes "--port=1" ∷ []) ≡ None }
{}

pub fn words_ask()
    ensures help { asks (codes "--help" ∷ []) ≡ true }
    ensures serve { asks (codes "serve" ∷ codes "--help" ∷ []) ≡ true }
    ensures version { asks (codes "--version" ∷ []) ≡ true }
    ensures nothing { asks [] ≡ false }
    ensures serves { asks (codes "serve" ∷ codes "--port=1" ∷ []) ≡ false }
{}
