//! The script of a large replay, made for a number of files.
#![tactic(auto)]

pub mod instances;

ghost use Rattle.std.specs.Prelude.{◌≡◌, ◌+◌, ◌-◌, ◌++◌, ◌<◌, ◌≤◌, codes, string_bytes, IfOk, OnOk};
ghost use Rattle.std.specs.List.{flat_map};
ghost use Rattle.od_gen.specs.Generated.{edits_text, ending, file_text, folder_text, generated, name_and_content, rule_text, two_digits, up_to};

use gd_names::{NoMemory, Text};
use std::alloc::{AllocError, Global};

/// A script of two syncs by four workers, over `n` files in 90 folders and under ten rules that skip every tenth file.
/// Between the syncs the user and another client make twelve edits each.
pub fn generate(alloc: Global, n: u32) -> Result<Text, NoMemory>
    requires some { 1 ≤ n }
    requires most { n ≤ 5000 }
    ensures { IfOk result (λ text. text ≡ generated n) }
{
    let mut script = String::new(alloc);
    script.push_str("workers 4\nrule !*.tmp\n")?;
    push_rules(&mut script)?;
    push_folders(&mut script)?;
    push_files(&mut script, n)?;
    script.push_str("sync\nuser write /d00/f0.txt \"mine\"\nother put /d00/f0.txt \"theirs\"\n")?;
    push_edits(&mut script)?;
    script.push_str("sync\ncount\nrequests\n")?;
    Ok(Text::from_string(script))
}

fn push_rules(script: &mut String) -> Result<(), AllocError>
    ensures { OnOk result (string_bytes script.new ≡ string_bytes script.old ++ flat_map rule_text (up_to 9)) }
{
    for i in 0..9u32 {
        push_rule(script, i)?;
    }
    Ok(())
}

fn push_rule(script: &mut String, i: u32) -> Result<(), AllocError>
    ensures { OnOk result (string_bytes script.new ≡ string_bytes script.old ++ rule_text i) }
{
    write!(script, "rule /d{i}*\n")
}

fn push_folders(script: &mut String) -> Result<(), AllocError>
    ensures { OnOk result (string_bytes script.new ≡ string_bytes script.old ++ flat_map folder_text (up_to 90)) }
{
    for j in 0..90u32 {
        push_numbered(script, "other mkdir /d", j, "\n")?;
    }
    Ok(())
}

/// A line, or a part of one, with the two digits of a number below 100 in it.
fn push_numbered(script: &mut String, front: &str, k: u32, end: &str) -> Result<(), AllocError>
    ensures { OnOk result (string_bytes script.new ≡ string_bytes script.old ++ (front.now ++ two_digits k ++ end.now)) }
{
    let tens = k / 10;
    let ones = k % 10;
    write!(script, "{front}{tens}{ones}{end}")
}

fn push_files(script: &mut String, n: u32) -> Result<(), AllocError>
    ensures { OnOk result (string_bytes script.new ≡ string_bytes script.old ++ flat_map file_text (up_to n)) }
{
    for i in 0..n {
        push_file(script, i)?;
    }
    Ok(())
}

fn push_file(script: &mut String, i: u32) -> Result<(), AllocError>
    ensures { OnOk result (string_bytes script.new ≡ string_bytes script.old ++ file_text i) }
{
    push_numbered(script, "other put /d", i % 90, "/")?;
    push_name_and_content(script, i)
}

fn push_name_and_content(script: &mut String, i: u32) -> Result<(), AllocError>
    ensures { OnOk result (string_bytes script.new ≡ string_bytes script.old ++ name_and_content i) }
{
    let ending = ending(i);
    write!(script, "f{i}{ending} \"{i}\"\n")
}

fn ending(i: u32) -> &'static str
    ensures { result.now ≡ ending i }
{
    if i % 10 == 9 { ".tmp" } else { ".txt" }
}

fn push_edits(script: &mut String) -> Result<(), AllocError>
    ensures { OnOk result (string_bytes script.new ≡ string_bytes script.old ++ flat_map edits_text (up_to 11)) }
{
    for i in 0..11u32 {
        push_numbered(script, "user write /d", i + 1, "/u.txt \"u\"\n")?;
        push_numbered(script, "other put /d", i + 1, "/o.txt \"o\"\n")?;
    }
    Ok(())
}

#[cfg(test)]
mod tests;
