ghost use Rattle.std.specs.Prelude.{◌≡◌, ◌||◌, ◌∷◌, ◌++◌, [], not, if◌then◌else◌, codes, IfOk};
ghost use Rattle.gd_names.specs.Paths.{parts_from};
ghost use Rattle.od_synclist.specs.Rules.{is_anchored, components_of, rule_of, matches_entry};

use crate::line::{is_anchored, is_exclusion, is_for_folders, written};
use crate::matching::reach;
use gd_names::{Bytes, List, NoMemory, Text};
use std::alloc::Global;

/// A rule of the file.
#[derive(Debug, Drop)]
pub struct Rule {
    /// Whether what it matches is left out.
    pub exclude: bool,
    /// Whether it matches folders alone.
    pub folders: bool,
    /// Its components, with `**` before those of a rule that is not anchored.
    pub components: List<Bytes>,
}

/// `**` for a rule that is not anchored, and nothing else.
fn begin_components(alloc: Global, line: &[u8]) -> Result<List<Bytes>, NoMemory>
    ensures { IfOk result (λ begun. begun ≡ (if is_anchored line.now then [] else codes "**" ∷ [])) }
{
    let mut begun = List::new(alloc);
    if !is_anchored(line) {
        begun.push(Bytes::from_slice(alloc, b"**")?)?;
    }
    Ok(begun)
}

/// These components, and those of a text that is cut at its slashes.
fn cut(alloc: Global, begun: List<Bytes>, text: &[u8]) -> Result<List<Bytes>, NoMemory>
    ensures { IfOk result (λ all. all ≡ begun ++ parts_from [] text.now) }
{
    let mut components = begun;
    let mut current = Bytes::new(alloc);
    for b in text {
        if *b == b'/' {
            components.push(current)?;
            current = Bytes::new(alloc);
        } else {
            current.push_slice(&[*b])?;
        }
    }
    components.push(current)?;
    Ok(components)
}

/// The rule of a line.
pub fn read_rule(alloc: Global, line: &[u8]) -> Result<Rule, NoMemory>
    ensures { IfOk result (λ rule. rule ≡ rule_of line.now) }
{
    let components = cut(alloc, begin_components(alloc, line)?, written(line))?;
    Ok(Rule {
        exclude: is_exclusion(line),
        folders: is_for_folders(line),
        components,
    })
}

/// Whether the rule may match such an entry itself, and not only a folder above it.
fn is_for(rule: &Rule, folder: bool) -> bool
    ensures { result ≡ (folder || not rule.now.folders) }
{
    folder || !rule.folders
}

/// Whether the rule matches the entry at these names, or a folder above it.
pub fn matches_entry(rule: &Rule, names: &[Text], folder: bool) -> bool
    ensures { result ≡ matches_entry rule.now names.now folder }
{
    reach(
        rule.components.as_slice(),
        names,
        is_for(rule, folder),
        names.len(),
    )
}
