//! Laws of the rules, each the contract of a function that does nothing.
ghost use Rattle.std.specs.Prelude.{◌≡◌, ℕ, Bool, true, false, List, [], ◌∷◌, ◌++◌, Option};
ghost use Rattle.od_synclist.specs.Kept.{kept};
ghost use Rattle.od_synclist.specs.Rules.{passes, passes_file, is_excluded};
ghost use Rattle.od_synclist.specs.declared.rule.Rule.{Rule};

/// Under an empty file all passes.
pub fn no_rules_pass_all()
    ensures { (names : List (List ℕ)) (folder : Bool) → passes_file [] names folder ≡ true }
{}

/// Without rules the whole tree is kept.
pub fn no_rules_keep_all()
    ensures { (tree : List (List (List ℕ) × Option (List ℕ))) → kept [] tree ≡ tree }
{}

/// A further exclusion, wherever it stands, lets nothing more through.
pub fn exclusions_only_take_away()
    ensures { (rules later : List Rule) (rule : Rule) (names : List (List ℕ)) (folder : Bool) → rule.exclude ≡ true
        → passes (rules ++ rule ∷ later) names folder ≡ true → passes (rules ++ later) names folder ≡ true }
{}

/// What is excluded stays so, whatever further rules there are and wherever they stand.
pub fn excluded_stays_excluded()
    ensures { (rules further later : List Rule) (names : List (List ℕ)) (folder : Bool) → is_excluded (rules ++ later) names folder ≡ true
        → passes (rules ++ further ++ later) names folder ≡ false }
{}
