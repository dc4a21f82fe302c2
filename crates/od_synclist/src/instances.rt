//! Instances of the definitions, each the contract of a function that does nothing.
ghost use Rattle.std.specs.Prelude.{◌≡◌, true, false, [], ◌∷◌, codes, Some, None};
ghost use Rattle.od_synclist.specs.Kept.{kept};
ghost use Rattle.od_synclist.specs.Rules.{passes_file, rules_of};

/// `Docs/` matches folders of that name anywhere, and what is in them; case is told apart.
pub fn folders_anywhere()
    ensures folder { passes_file (codes "Docs/") (codes "x" ∷ codes "Docs" ∷ []) true ≡ true }
    ensures file { passes_file (codes "Docs/") (codes "x" ∷ codes "Docs" ∷ []) false ≡ false }
    ensures inside { passes_file (codes "Docs/") (codes "Docs" ∷ codes "a" ∷ []) false ≡ true }
    ensures case { passes_file (codes "Docs/") (codes "docs" ∷ codes "a" ∷ []) false ≡ false }
{}

/// `/a/**/z*` matches from `a` on, over any folders between.
pub fn folders_between()
    ensures none { passes_file (codes "/a/**/z*") (codes "a" ∷ codes "z" ∷ []) false ≡ true }
    ensures two { passes_file (codes "/a/**/z*") (codes "a" ∷ codes "b" ∷ codes "c" ∷ codes "z1" ∷ []) false ≡ true }
    ensures other { passes_file (codes "/a/**/z*") (codes "a" ∷ codes "b" ∷ []) false ≡ false }
{}

/// The folders above what passes are kept, though they do not pass themselves.
pub fn folders_above_are_kept()
    ensures { kept (rules_of (codes "/Parent/Blog/*"))
        ((codes "Parent" ∷ [], None) ∷ (codes "Parent" ∷ codes "Blog" ∷ [], None) ∷ (codes "Parent" ∷ codes "Blog" ∷ codes "p" ∷ [], Some (codes "1")) ∷ (codes "Parent" ∷ codes "x" ∷ [], Some (codes "2")) ∷ [])
        ≡ (codes "Parent" ∷ [], None) ∷ (codes "Parent" ∷ codes "Blog" ∷ [], None) ∷ (codes "Parent" ∷ codes "Blog" ∷ codes "p" ∷ [], Some (codes "1")) ∷ [] }
{}
