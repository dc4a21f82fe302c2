ghost use Rattle.std.specs.Prelude.{◌≡◌, ◌<◌, ℕ, true, List, Option, Some, length, IfOk, OnOk, IsErrOf};
ghost use Rattle.std.specs.List.{All};
ghost use Rattle.gd_names.specs.Streams.{Rose};
ghost use Rattle.gd_item.specs.Ids.{item_id};
ghost use Rattle.gd_item.specs.declared.item.Item.{Item};
ghost use Rattle.gd_item.specs.declared.request.Request.TheVariants.{Delta};
ghost use Rattle.gd_item.specs.declared.step.Step.{Step};
ghost use Rattle.od_keeper.specs.Keeping.{HasKeeperCause, Stay};
ghost use Rattle.od_keeper.specs.Sound.{IsSound};
ghost use Rattle.od_keeper.specs.Undisturbed as keeper_alone;
ghost use Rattle.od_transfer.specs.Undisturbed as remote_alone;
ghost use Rattle.od_tree.specs.declared.step.LocalStep.{LocalStep};
ghost use Rattle.od_sync.specs.Deltas.{AsksDelta, EndsUnserved};
ghost use Rattle.od_sync.specs.Ends.{HasStopCause, counts};
ghost use Rattle.od_sync.specs.Pulls.{HasPullCause, Pulls, StopsBad, StopsUnserved};
ghost use Rattle.od_sync.specs.Receiving.{AddsImage, IsReceived, Keeps, Receives};
ghost use Rattle.od_sync.specs.Serving.{Serves};
ghost use Rattle.od_sync.specs.Syncing.{Goes};

use crate::changing::pull_change;
use crate::committing::commit;
use crate::ends::SyncStop;
use crate::pulling::{PullStop, pull};
use gd_item::Item;
use gd_names::{List, NoMemory, Path, Text};
use od_keeper::{Image, Keeper, KeeperFault};
use od_mirror::MirrorView;
use od_transfer::Remote;
use std::alloc::Global;

/// What was pulled: the image after it was committed, and the drive's entries in order of path.
#[derive(Debug, Drop)]
pub(crate) struct Received {
    pub(crate) image: Image,
    pub(crate) remote: List<(Path, Item)>,
}

/// Copies of the items and the token of an image.
fn kept_items(image: &Image) -> Result<(List<Item>, Option<Text>), NoMemory>
    ensures items { IfOk result (λ kept. kept.0 ≡ image.now.items) }
    ensures token { IfOk result (λ kept. kept.1 ≡ image.now.token) }
{
    let items = image.items.clone()?;
    let token = image.token.clone()?;
    Ok((items, token))
}

/// Pulls the drive over the items and the token of an image.
fn pull_over<R: Remote>(
    remote: &mut R,
    alloc: Global,
    image: &Image,
) -> Result<MirrorView, PullStop>
    ensures pulled { IfOk result (λ view. Pulls image.now.items image.now.token (R.log remote.old) (R.log remote.new) view) }
    ensures bad { (n : ℕ) → IsErrOf result (PullStop.BadPages (item_id n)) → StopsBad image.now.items image.now.token (R.log remote.old) (R.log remote.new) n }
    ensures unserved { IsErrOf result PullStop.Unserved → StopsUnserved image.now.token (R.log remote.old) (R.log remote.new) }
    ensures asks { AsksDelta (IsErrOf result PullStop.Memory) image.now.token (R.log remote.old) (R.log remote.new) }
    ensures cause { HasPullCause (R.faults remote.old) (R.faults remote.new) (R.answers remote.old) (R.answers remote.new) (R.in_row remote.new) result }
    ensures undisturbed { remote_alone.Undisturbed (R.undisturbed remote.old) (R.undisturbed remote.new) (R.log remote.old) (R.log remote.new) }
    ensures no_faults { R.undisturbed remote.old ≡ true → remote_alone.MayBeServed (Delta image.now.token) (R.log remote.old) → R.faults remote.new ≡ R.faults remote.old }
{
    let (items, token) = kept_items(image)?;
    pull(remote, alloc, items, token)
}

/// Commits what was pulled over an image.
fn commit_view<K: Keeper>(
    alloc: Global,
    keeper: &mut K,
    image: &Image,
    view: &MirrorView,
) -> Result<Received, KeeperFault>
    ensures received { IfOk result (λ received. IsReceived image.now view.now.items view.now.token received) }
    ensures images { Keeps image.now (λ received. received.image) (K.images keeper.old) (K.images keeper.new) result }
    ensures cause { HasKeeperCause (K.faults keeper.old) (K.faults keeper.new) result }
    ensures undisturbed { keeper_alone.Undisturbed (K.undisturbed keeper.old) (K.undisturbed keeper.new) (K.faults keeper.old) (K.faults keeper.new) }
{
    let remote = view.paths(alloc)?;
    let change = pull_change(alloc, image.items.as_slice(), view)?;
    let image = commit(alloc, keeper, image, &change)?;
    Ok(Received { image, remote })
}

/// Pulls the drive, and commits what was pulled once the pull has ended.
pub(crate) fn receive<R: Remote, K: Keeper>(
    alloc: Global,
    remote: &mut R,
    keeper: &mut K,
    image: &Image,
) -> Result<Received, SyncStop>
    ensures goes { (local : Option (List LocalStep)) → Goes (λ drive. IsSound image.now drive) image.now (R.log remote.old) (R.log remote.new) local local (K.images keeper.old) (K.images keeper.new) }
    ensures received { IfOk result (λ received. Receives image.now received (R.log remote.old) (R.log remote.new) (K.images keeper.old) (K.images keeper.new)) }
    ensures below { IfOk result (λ received. All (λ (entry : List (List ℕ) × Item). 0 < length entry.0) received.remote) }
    ensures bad { (n : ℕ) → IsErrOf result (SyncStop.BadPages (item_id n)) → StopsBad image.now.items image.now.token (R.log remote.old) (R.log remote.new) n }
    ensures bad_stays { (n : ℕ) → IsErrOf result (SyncStop.BadPages (item_id n)) → Stay (K.images keeper.old) (K.images keeper.new) }
    ensures asks { AsksDelta (IsErrOf result SyncStop.Memory) image.now.token (R.log remote.old) (R.log remote.new) }
    ensures unserved { IsErrOf result SyncStop.Unserved → (drive : List Step) → R.log remote.old ≡ Some drive → EndsUnserved (Delta image.now.token) drive (R.log remote.new) }
    ensures serves { Serves image.now (R.log remote.old) (R.log remote.new) (K.images keeper.old) (K.images keeper.new) }
    ensures adds { IfOk result (λ received. AddsImage image.now received.image (K.images keeper.old) (K.images keeper.new)) }
    ensures answered { OnOk result (Rose (R.answers remote.old) (R.answers remote.new)) }
    ensures cause { (tree : ℕ) → HasStopCause
        (counts (R.faults remote.old) (R.answers remote.old) (R.in_row remote.old) tree (K.faults keeper.old))
        (counts (R.faults remote.new) (R.answers remote.new) (R.in_row remote.new) tree (K.faults keeper.new)) result }
    ensures remote_alone { remote_alone.Undisturbed (R.undisturbed remote.old) (R.undisturbed remote.new) (R.log remote.old) (R.log remote.new) }
    ensures no_faults { R.undisturbed remote.old ≡ true → remote_alone.MayBeServed (Delta image.now.token) (R.log remote.old) → R.faults remote.new ≡ R.faults remote.old }
    ensures keeper_alone { keeper_alone.Undisturbed (K.undisturbed keeper.old) (K.undisturbed keeper.new) (K.faults keeper.old) (K.faults keeper.new) }
{
    let view = pull_over(remote, alloc, image)?;
    let received = commit_view(alloc, keeper, image, &view)?;
    Ok(received)
}
