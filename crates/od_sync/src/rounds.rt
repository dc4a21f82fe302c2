ghost use Rattle.std.specs.Prelude.{◌≡◌, ◌<◌, ℕ, true, List, length, IfOk, IfErr, IfSome, OnOk};
ghost use Rattle.std.specs.List.{All};
ghost use Rattle.gd_names.specs.Streams.{Rose};
ghost use Rattle.gd_item.specs.declared.item.Item.{Item};
ghost use Rattle.od_keeper.specs.Sound.{IsSound};
ghost use Rattle.od_transfer.specs.Asking.{Grows};
ghost use Rattle.od_transfer.specs.Fits.{IsTransfer};
ghost use Rattle.od_sync.specs.Comparing.{is_same};
ghost use Rattle.od_sync.specs.Doing.{IsFetchOf, IsFolderOf, Makes};
ghost use Rattle.od_sync.specs.Ends.{HasStopCause, counts};
ghost use Rattle.od_sync.specs.Planning.{planned_fetches, planned_folders};
ghost use Rattle.od_sync.specs.Rounds.{Acts, AllAlone, AreKindsAccepted, HasRunCause, Rounds, Runs};
ghost use Rattle.od_sync.specs.Serving.{KeepsToken, Leaves, Serves, StartsWith};
ghost use Rattle.od_sync.specs.Syncing.{Goes, IsDoStop};

use crate::comparing::is_same;
use crate::ends::SyncStop;
use crate::fetching::do_plan;
use crate::looking::{Sides, look};
use crate::planning::make_plan;
use gd_names::NoMemory;
use od_keeper::{Image, Keeper};
use od_transfer::Carrier;
use od_tree::Tree;
use std::alloc::Global;

/// Whether both sides have the same.
fn is_settled(sides: &Sides) -> bool
    ensures { result ≡ is_same sides.now.local sides.now.remote }
{
    is_same(sides.local.as_slice(), sides.remote.as_slice())
}

/// Does in the folder what is wanted after a look at both sides. Gives the image that was committed last.
fn act<R: Carrier, T: Tree, K: Keeper>(
    alloc: Global,
    remote: &mut R,
    tree: &mut T,
    keeper: &mut K,
    sides: Sides,
) -> Result<Image, SyncStop>
    requires { All (λ (entry : List (List ℕ) × Item). 0 < length entry.0) sides.remote }
    ensures goes { Goes (λ drive. IsSound sides.image drive × AreKindsAccepted drive sides) sides.image (R.log remote.old) (R.log remote.new) (T.log tree.old) (T.log tree.new) (K.images keeper.old) (K.images keeper.new) }
    ensures acts { IfOk result (λ next. Acts sides next (R.faults remote.old) (R.faults remote.new) (R.log remote.old) (R.log remote.new) (T.log tree.old) (T.log tree.new) (K.images keeper.old) (K.images keeper.new)) }
    ensures steps { Makes (IsFolderOf (planned_folders sides.image.rows sides.local sides.remote)) (IsFetchOf (planned_fetches sides.image.rows sides.local sides.remote)) (T.log tree.old) (T.log tree.new) }
    ensures stops { IfErr result IsDoStop }
    ensures requests { Grows IsTransfer (R.log remote.old) (R.log remote.new) }
    ensures tokens { KeepsToken sides.image (K.images keeper.old) (K.images keeper.new) }
    ensures serves { Serves sides.image (R.log remote.old) (R.log remote.new) (K.images keeper.old) (K.images keeper.new) }
    ensures last { IfOk result (λ next. Leaves sides.image next (K.images keeper.old) (K.images keeper.new)) }
    ensures cause { HasStopCause
        (counts (R.faults remote.old) (R.answers remote.old) (R.in_row remote.old) (T.faults tree.old) (K.faults keeper.old))
        (counts (R.faults remote.new) (R.answers remote.new) (R.in_row remote.new) (T.faults tree.new) (K.faults keeper.new)) result }
    ensures alone { AllAlone (R.undisturbed remote.old) (R.undisturbed remote.new) (R.log remote.old) (R.log remote.new)
        (T.undisturbed tree.old) (T.undisturbed tree.new) (T.faults tree.old) (T.faults tree.new) (T.log tree.old) (T.log tree.new)
        (K.undisturbed keeper.old) (K.undisturbed keeper.new) (K.faults keeper.old) (K.faults keeper.new) }
    ensures no_faults { R.undisturbed remote.old ≡ true → R.faults remote.new ≡ R.faults remote.old }
{
    let Sides {
        image,
        local,
        remote: theirs,
    } = sides;
    let wanted = match make_plan(
        alloc,
        image.rows.as_slice(),
        local.as_slice(),
        theirs.as_slice(),
    ) {
        Ok(wanted) => wanted,
        Err(NoMemory) => return Err(SyncStop::Memory),
    };
    match do_plan(alloc, remote, tree, keeper, image, wanted) {
        Ok(next) => Ok(next),
        Err(stop) => Err(stop),
    }
}

/// One round: a look at both sides and, where they are not the same, what is to be done in the folder. Gives the image that
/// was committed last, and None where both sides are the same.
fn round<R: Carrier, T: Tree, K: Keeper>(
    alloc: Global,
    remote: &mut R,
    tree: &mut T,
    keeper: &mut K,
    image: Image,
) -> Result<Option<Image>, SyncStop>
    ensures rounds { Rounds (R.faults remote.old) (R.faults remote.new) image (R.log remote.old) (R.log remote.new) (T.log tree.old) (T.log tree.new) (K.images keeper.old) (K.images keeper.new) result }
    ensures serves { Serves image (R.log remote.old) (R.log remote.new) (K.images keeper.old) (K.images keeper.new) }
    ensures last { IfOk result (λ next. IfSome next (λ next. Leaves image next (K.images keeper.old) (K.images keeper.new))) }
    ensures answered { OnOk result (Rose (R.answers remote.old) (R.answers remote.new)) }
    ensures cause { HasStopCause
        (counts (R.faults remote.old) (R.answers remote.old) (R.in_row remote.old) (T.faults tree.old) (K.faults keeper.old))
        (counts (R.faults remote.new) (R.answers remote.new) (R.in_row remote.new) (T.faults tree.new) (K.faults keeper.new)) result }
    ensures alone { AllAlone (R.undisturbed remote.old) (R.undisturbed remote.new) (R.log remote.old) (R.log remote.new)
        (T.undisturbed tree.old) (T.undisturbed tree.new) (T.faults tree.old) (T.faults tree.new) (T.log tree.old) (T.log tree.new)
        (K.undisturbed keeper.old) (K.undisturbed keeper.new) (K.faults keeper.old) (K.faults keeper.new) }
    ensures no_faults { R.undisturbed remote.old ≡ true → StartsWith image (R.log remote.old) (K.images keeper.old) → R.faults remote.new ≡ R.faults remote.old }
{
    match look(alloc, remote, tree, keeper, image) {
        Ok(sides) => {
            if is_settled(&sides) {
                return Ok(None);
            }
            match act(alloc, remote, tree, keeper, sides) {
                Ok(next) => Ok(Some(next)),
                Err(stop) => Err(stop),
            }
        }
        Err(stop) => Err(stop),
    }
}

/// The last round, which looks alone. Says whether both sides are the same.
fn last_round<R: Carrier, T: Tree, K: Keeper>(
    alloc: Global,
    remote: &mut R,
    tree: &mut T,
    keeper: &mut K,
    image: Image,
) -> Result<bool, SyncStop>
    ensures runs { Runs 1 (R.faults remote.old) (R.faults remote.new) image (R.log remote.old) (R.log remote.new) (T.log tree.old) (T.log tree.new) (K.images keeper.old) (K.images keeper.new) result }
    ensures serves { Serves image (R.log remote.old) (R.log remote.new) (K.images keeper.old) (K.images keeper.new) }
    ensures cause { HasRunCause 1
        (counts (R.faults remote.old) (R.answers remote.old) (R.in_row remote.old) (T.faults tree.old) (K.faults keeper.old))
        (counts (R.faults remote.new) (R.answers remote.new) (R.in_row remote.new) (T.faults tree.new) (K.faults keeper.new)) result }
    ensures alone { AllAlone (R.undisturbed remote.old) (R.undisturbed remote.new) (R.log remote.old) (R.log remote.new)
        (T.undisturbed tree.old) (T.undisturbed tree.new) (T.faults tree.old) (T.faults tree.new) (T.log tree.old) (T.log tree.new)
        (K.undisturbed keeper.old) (K.undisturbed keeper.new) (K.faults keeper.old) (K.faults keeper.new) }
    ensures no_faults { R.undisturbed remote.old ≡ true → StartsWith image (R.log remote.old) (K.images keeper.old) → R.faults remote.new ≡ R.faults remote.old }
{
    match look(alloc, remote, tree, keeper, image) {
        Ok(sides) => {
            if is_settled(&sides) {
                return Ok(true);
            }
            Ok(false)
        }
        Err(stop) => Err(stop),
    }
}

/// Two rounds, of which the last looks alone.
fn two_rounds<R: Carrier, T: Tree, K: Keeper>(
    alloc: Global,
    remote: &mut R,
    tree: &mut T,
    keeper: &mut K,
    image: Image,
) -> Result<bool, SyncStop>
    ensures runs { Runs 2 (R.faults remote.old) (R.faults remote.new) image (R.log remote.old) (R.log remote.new) (T.log tree.old) (T.log tree.new) (K.images keeper.old) (K.images keeper.new) result }
    ensures serves { Serves image (R.log remote.old) (R.log remote.new) (K.images keeper.old) (K.images keeper.new) }
    ensures cause { HasRunCause 2
        (counts (R.faults remote.old) (R.answers remote.old) (R.in_row remote.old) (T.faults tree.old) (K.faults keeper.old))
        (counts (R.faults remote.new) (R.answers remote.new) (R.in_row remote.new) (T.faults tree.new) (K.faults keeper.new)) result }
    ensures alone { AllAlone (R.undisturbed remote.old) (R.undisturbed remote.new) (R.log remote.old) (R.log remote.new)
        (T.undisturbed tree.old) (T.undisturbed tree.new) (T.faults tree.old) (T.faults tree.new) (T.log tree.old) (T.log tree.new)
        (K.undisturbed keeper.old) (K.undisturbed keeper.new) (K.faults keeper.old) (K.faults keeper.new) }
    ensures no_faults { R.undisturbed remote.old ≡ true → StartsWith image (R.log remote.old) (K.images keeper.old) → R.faults remote.new ≡ R.faults remote.old }
{
    match round(alloc, remote, tree, keeper, image) {
        Ok(Some(image)) => match last_round(alloc, remote, tree, keeper, image) {
            Ok(settled) => Ok(settled),
            Err(stop) => Err(stop),
        },
        Ok(None) => Ok(true),
        Err(stop) => Err(stop),
    }
}

/// Three rounds, of which the last looks alone.
pub(crate) fn three_rounds<R: Carrier, T: Tree, K: Keeper>(
    alloc: Global,
    remote: &mut R,
    tree: &mut T,
    keeper: &mut K,
    image: Image,
) -> Result<bool, SyncStop>
    ensures runs { Runs 3 (R.faults remote.old) (R.faults remote.new) image (R.log remote.old) (R.log remote.new) (T.log tree.old) (T.log tree.new) (K.images keeper.old) (K.images keeper.new) result }
    ensures serves { Serves image (R.log remote.old) (R.log remote.new) (K.images keeper.old) (K.images keeper.new) }
    ensures cause { HasRunCause 3
        (counts (R.faults remote.old) (R.answers remote.old) (R.in_row remote.old) (T.faults tree.old) (K.faults keeper.old))
        (counts (R.faults remote.new) (R.answers remote.new) (R.in_row remote.new) (T.faults tree.new) (K.faults keeper.new)) result }
    ensures alone { AllAlone (R.undisturbed remote.old) (R.undisturbed remote.new) (R.log remote.old) (R.log remote.new)
        (T.undisturbed tree.old) (T.undisturbed tree.new) (T.faults tree.old) (T.faults tree.new) (T.log tree.old) (T.log tree.new)
        (K.undisturbed keeper.old) (K.undisturbed keeper.new) (K.faults keeper.old) (K.faults keeper.new) }
    ensures no_faults { R.undisturbed remote.old ≡ true → StartsWith image (R.log remote.old) (K.images keeper.old) → R.faults remote.new ≡ R.faults remote.old }
{
    match round(alloc, remote, tree, keeper, image) {
        Ok(Some(image)) => match two_rounds(alloc, remote, tree, keeper, image) {
            Ok(settled) => Ok(settled),
            Err(stop) => Err(stop),
        },
        Ok(None) => Ok(true),
        Err(stop) => Err(stop),
    }
}
