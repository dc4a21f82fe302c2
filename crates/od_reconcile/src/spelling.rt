ghost use Rattle.std.specs.Prelude.{◌≡◌, ◌&&◌, ◌||◌, not, ℕ, List, IfOk, OnOk};
ghost use Rattle.std.specs.Option.{option_copied};
ghost use Rattle.std.specs.Ordering.{is_lt};
ghost use Rattle.gd_names.specs.Caseless.{lower_case};
ghost use Rattle.gd_names.specs.Ordered.{path_cmp};
ghost use Rattle.od_merge.specs.Sides.{is_path};
ghost use Rattle.od_reconcile.specs.Holding.{IsLeast, IsSpelt, has_other, is_before, lower_path, same_caseless_path, spelt_more, stands_at};

use gd_names::{List, NoMemory, Path, Text};
use std::alloc::Global;
use std::collections::BTreeMap;

fn lower_name(alloc: Global, name: &Text) -> Result<Text, NoMemory>
    ensures { IfOk result (λ lower. lower ≡ lower_case name.now) }
{
    let lower = name.as_str().to_ascii_lowercase(alloc)?;
    Ok(Text::from_string(lower))
}

/// The path with `A` to `Z` as `a` to `z`.
pub(crate) fn lower_path(alloc: Global, path: &Path) -> Result<Path, NoMemory>
    ensures { IfOk result (λ lower. lower ≡ lower_path path.now) }
{
    let mut names: List<Text> = List::new(alloc);
    for name in path.names() {
        let lower = lower_name(alloc, name)?;
        names.push(lower)?;
    }
    Ok(Path::from_names(names))
}

/// Whether a path other than this one has a spelling.
pub(crate) fn has_other(spelt: Option<&(Path, bool)>, path: &Path) -> bool
    ensures { result ≡ has_other (option_copied spelt.entry) path.now }
{
    match spelt {
        None => false,
        Some(spelt) => spelt.1 || spelt.0 != *path,
    }
}

fn spelt_more(spelt: Option<&(Path, bool)>, path: &Path) -> Result<(Path, bool), NoMemory>
    ensures { IfOk result (λ more. more ≡ spelt_more (option_copied spelt.entry) path.now) }
{
    match spelt {
        None => Ok((path.clone()?, false)),
        Some(spelt) => Ok((spelt.0.clone()?, spelt.1 || spelt.0 != *path)),
    }
}

fn add_spelt(
    alloc: Global,
    index: &mut BTreeMap<Path, (Path, bool)>,
    path: &Path,
) -> Result<(), NoMemory>
    ensures { OnOk result ((from to : List (List ℕ)) → has_other (stands_at index.new.entries (lower_path from)) to
        ≡ (has_other (stands_at index.old.entries (lower_path from)) to || not (is_path path.now to) && same_caseless_path path.now from)) }
{
    let key = lower_path(alloc, path)?;
    let more = spelt_more(index.get(&key), path)?;
    index.insert(key, more)?;
    Ok(())
}

/// Paths by their spelling but for case: one of each, and whether there is another one.
pub(crate) fn spelt_of(
    alloc: Global,
    paths: &[Path],
) -> Result<BTreeMap<Path, (Path, bool)>, NoMemory>
    ensures { IfOk result (λ index. IsSpelt paths.now index.entries) }
{
    let mut index = BTreeMap::new(alloc);
    for path in paths {
        add_spelt(alloc, &mut index, path)?;
    }
    Ok(index)
}

/// Whether the least path of a spelling is smaller than this one.
pub(crate) fn is_before(least: Option<&Path>, path: &Path) -> bool
    ensures { result ≡ is_before (option_copied least.entry) path.now }
{
    match least {
        None => false,
        Some(other) => other.cmp(path).is_lt(),
    }
}

fn add_least(alloc: Global, index: &mut BTreeMap<Path, Path>, path: &Path) -> Result<(), NoMemory>
    ensures { OnOk result ((q : List (List ℕ)) → is_before (stands_at index.new.entries (lower_path q)) q
        ≡ (is_before (stands_at index.old.entries (lower_path q)) q || same_caseless_path path.now q && is_lt (path_cmp path.now q))) }
{
    let key = lower_path(alloc, path)?;
    if is_before(index.get(&key), path) {
        return Ok(());
    }
    index.insert(key, path.clone()?)?;
    Ok(())
}

/// The least path of each spelling but for case.
pub(crate) fn least_of(alloc: Global, paths: &[Path]) -> Result<BTreeMap<Path, Path>, NoMemory>
    ensures { IfOk result (λ index. IsLeast paths.now index.entries) }
{
    let mut index = BTreeMap::new(alloc);
    for path in paths {
        add_least(alloc, &mut index, path)?;
    }
    Ok(index)
}
