//! The definition of the script at small numbers. Each function does nothing: its contract is the instance.
ghost use Rattle.std.specs.Prelude.{◌≡◌, codes};
ghost use Rattle.od_gen.specs.Generated.{edits_text, file_text, folder_text, rule_text};

/// A file, and one that the rules skip.
pub fn files()
    ensures plain { file_text 98 ≡ codes "other put /d08/f98.txt \"98\"\n" }
    ensures skipped { file_text 1189 ≡ codes "other put /d19/f1189.tmp \"1189\"\n" }
{}

pub fn folders_and_rules()
    ensures folder { folder_text 7 ≡ codes "other mkdir /d07\n" }
    ensures rule { rule_text 8 ≡ codes "rule /d8*\n" }
{}

pub fn edits()
    ensures { edits_text 10 ≡ codes "user write /d11/u.txt \"u\"\nother put /d11/o.txt \"o\"\n" }
{}
