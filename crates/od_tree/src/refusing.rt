ghost use Rattle.std.specs.Prelude.{◌≡◌, not, ◌&&◌, ◌||◌, ◌∷◌, []};
ghost use Rattle.std.specs.List.{list_any};
ghost use Rattle.gd_item.specs.Places.{names_above};
ghost use Rattle.gd_names.specs.Causes.{first_cause};
ghost use Rattle.od_tree.specs.Doing.{why_not_added, why_not_moved, why_not_removed};
ghost use Rattle.od_tree.specs.Local.{is_from, is_path, spot_at, is_folder_spot, is_taken_at, has_parent, op_refusal};

use crate::fault::TreeFault;
use crate::held::held_at;
use crate::local::{HeldFile, Spot};
use crate::look::{file_at, has_parent, is_folder_at, is_from, is_taken_at, names_above, spot_at};
use crate::step::TreeOp;
use gd_names::Text;

/// Why an operation is refused: the first cause that holds.
pub fn op_refusal(spots: &[Spot], held: &[HeldFile], call: &TreeOp) -> Option<TreeFault>
    ensures { result ≡ op_refusal (record { spots = spots.now; held = held.now }) call.now }
{
    match call {
        TreeOp::List(at) => missing_if(!is_folder_at(spots, at.names())),
        TreeOp::Read(at) => missing_if(file_at(spots, at.names()).is_none()),
        TreeOp::MakeDir(at) => why_not_added(spots, at.names()),
        TreeOp::RemoveDir(at) => why_not_removed(spots, at.names()),
        TreeOp::Place(at, _) => why_not_added(spots, at.names()),
        TreeOp::Rename(from, to) => why_not_renamed(spots, from.names(), to.names()),
        TreeOp::SetAside(at) => missing_if(file_at(spots, at.names()).is_none()),
        TreeOp::ReadAside(aside) => missing_if(held_at(held, *aside).is_none()),
        TreeOp::PutBack(aside, to) => {
            let is_lost = held_at(held, *aside).is_none() || !has_parent(spots, to.names());
            why_not_moved(spots, is_lost, to.names())
        }
        TreeOp::Discard(aside) => missing_if(held_at(held, *aside).is_none()),
        TreeOp::Asides => None,
    }
}

fn missing_if(is_missing: bool) -> Option<TreeFault>
    ensures { result ≡ first_cause ((is_missing, TreeFault.Missing) ∷ []) }
{
    if is_missing {
        Some(TreeFault::Missing)
    } else {
        None
    }
}

/// Why an entry is not added at a path.
fn why_not_added(spots: &[Spot], at: &[Text]) -> Option<TreeFault>
    ensures { result ≡ why_not_added at.now spots.now }
{
    if is_taken_at(spots, at) {
        Some(TreeFault::Taken)
    } else if !has_parent(spots, at) {
        Some(TreeFault::Missing)
    } else {
        None
    }
}

/// Why something is not moved to a path, where it or the way to it may be lost.
fn why_not_moved(spots: &[Spot], is_lost: bool, to: &[Text]) -> Option<TreeFault>
    ensures { result ≡ why_not_moved is_lost to.now spots.now }
{
    if is_lost {
        Some(TreeFault::Missing)
    } else if is_taken_at(spots, to) {
        Some(TreeFault::Taken)
    } else {
        None
    }
}

fn why_not_renamed(spots: &[Spot], from: &[Text], to: &[Text]) -> Option<TreeFault>
    ensures { result ≡ why_not_moved (not (is_taken_at from.now spots.now) || not (has_parent to.now spots.now) || is_from from.now (names_above to.now)) to.now spots.now }
{
    let is_lost = !is_taken_at(spots, from)
        || !has_parent(spots, to)
        || is_from(from, names_above(to));
    why_not_moved(spots, is_lost, to)
}

/// Why a folder is not removed.
fn why_not_removed(spots: &[Spot], at: &[Text]) -> Option<TreeFault>
    ensures { result ≡ why_not_removed at.now spots.now }
{
    if !has_folder(spots, at) {
        Some(TreeFault::Missing)
    } else if has_below(spots, at) {
        Some(TreeFault::NotEmpty)
    } else {
        None
    }
}

/// Whether an entry stands at a path and is a folder.
fn has_folder(spots: &[Spot], at: &[Text]) -> bool
    ensures { result ≡ is_folder_spot (spot_at at.now spots.now) }
{
    match spot_at(spots, at) {
        Some(spot) => spot.file.is_none(),
        None => false,
    }
}

/// Whether a path is below another one.
fn is_below(top: &[Text], names: &[Text]) -> bool
    ensures { result ≡ (is_from top.now names.now && not (is_path top.now names.now)) }
{
    is_from(top, names) && top != names
}

/// Whether an entry stands below a path.
fn has_below(spots: &[Spot], at: &[Text]) -> bool
    ensures { result ≡ list_any (λ spot. is_from at.now spot.path && not (is_path at.now spot.path)) spots.now }
{
    for spot in spots {
        if is_below(at, spot.path.names()) {
            return true;
        }
    }
    false
}
