ghost use Rattle.std.specs.Prelude.{◌≡◌, ◌++◌, ℕ, List, cond, map, IfOk, OnOk, Some, None};
ghost use Rattle.std.specs.Option.{option_copied};
ghost use Rattle.od_merge.specs.Sides.{is_path};
ghost use Rattle.od_reconcile.specs.Above.{or_else};
ghost use Rattle.od_reconcile.specs.Holding.{stands_at};
ghost use Rattle.od_reconcile.specs.Moving.{IsEnds, is_moved_from, is_moved_to, source_of};

use crate::folders::{has, set_of};
use gd_names::{NoMemory, Path};
use std::alloc::Global;
use std::collections::{BTreeMap, BTreeSet};

/// Pairs with both their ends made ready: the paths from which they take, and for each path to which they come the one
/// that it comes from.
#[derive(Drop)]
pub struct Ends<'a> {
    pub pairs: &'a [(Path, Path)],
    pub froms: BTreeSet<Path>,
    pub tos: BTreeMap<Path, Path>,
}

fn from_paths(alloc: Global, pairs: &[(Path, Path)]) -> Result<Vec<Path>, NoMemory>
    ensures { IfOk result (λ found. found.items ≡ map (λ (pair : List (List ℕ) × List (List ℕ)). pair.0) pairs.now) }
{
    let mut found = Vec::new(alloc);
    for pair in pairs {
        found.push(pair.0.clone()?)?;
    }
    Ok(found)
}

/// Puts a pair at the path to which it comes, where none stands.
fn put_absent(tos: &mut BTreeMap<Path, Path>, pair: &(Path, Path)) -> Result<(), NoMemory>
    ensures { OnOk result ((q : List (List ℕ)) → stands_at tos.new.entries q ≡ or_else (stands_at tos.old.entries q) (cond (is_path pair.now.1 q) (Some pair.now.0) None)) }
{
    if tos.contains_key(&pair.1) {
        return Ok(());
    }
    let from = pair.0.clone()?;
    tos.insert(pair.1.clone()?, from)?;
    Ok(())
}

fn tos_of(alloc: Global, pairs: &[(Path, Path)]) -> Result<BTreeMap<Path, Path>, NoMemory>
    ensures { IfOk result (λ tos. (path : List (List ℕ)) → stands_at tos.entries path ≡ source_of pairs.now path) }
{
    let mut tos = BTreeMap::new(alloc);
    for pair in pairs {
        put_absent(&mut tos, pair)?;
    }
    Ok(tos)
}

/// Makes both ends of pairs ready.
pub(crate) fn ends_of<'a>(alloc: Global, pairs: &'a [(Path, Path)]) -> Result<Ends<'a>, NoMemory>
    ensures ready { IfOk result (λ ends. IsEnds ends) }
    ensures pairs { IfOk result (λ ends. ends.pairs.now ≡ pairs.now) }
{
    let found = from_paths(alloc, pairs)?;
    let froms = set_of(alloc, found.as_slice())?;
    let tos = tos_of(alloc, pairs)?;
    Ok(Ends { pairs, froms, tos })
}

pub(crate) fn is_moved_from(ends: &Ends<'_>, path: &Path) -> bool
    requires { IsEnds ends.now }
    ensures { result ≡ is_moved_from ends.now.pairs.now path.now }
{
    has(&ends.froms, path)
}

pub(crate) fn is_moved_to(ends: &Ends<'_>, path: &Path) -> bool
    requires { IsEnds ends.now }
    ensures { result ≡ is_moved_to ends.now.pairs.now path.now }
{
    ends.tos.contains_key(path)
}

/// Where the pair comes from that comes to a path.
pub(crate) fn source_of<'a>(ends: &'a Ends<'_>, path: &Path) -> Option<&'a Path>
    requires { IsEnds ends.now }
    ensures { option_copied result ≡ source_of ends.now.pairs.now path.now }
{
    ends.tos.get(path)
}
