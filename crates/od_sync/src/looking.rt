ghost use Rattle.std.specs.Prelude.{◌≡◌, ◌<◌, ℕ, true, List, Some, length, IfOk, OnOk, IsErrOf};
ghost use Rattle.std.specs.List.{All};
ghost use Rattle.gd_names.specs.Streams.{Rose};
ghost use Rattle.gd_item.specs.Ids.{item_id};
ghost use Rattle.gd_item.specs.declared.item.Item.{Item};
ghost use Rattle.gd_item.specs.declared.request.Request.TheVariants.{Delta};
ghost use Rattle.gd_item.specs.declared.step.Step.{Step};
ghost use Rattle.od_keeper.specs.Keeping.{HasKeeperCause, Stay};
ghost use Rattle.od_keeper.specs.Sound.{IsSound};
ghost use Rattle.od_keeper.specs.Undisturbed as keeper_alone;
ghost use Rattle.od_transfer.specs.Undisturbed as remote_alone;
ghost use Rattle.od_tree.specs.Undisturbed as tree_alone;
ghost use Rattle.od_sync.specs.Deltas.{AsksDelta, EndsUnserved};
ghost use Rattle.od_sync.specs.Ends.{HasStopCause, counts};
ghost use Rattle.od_sync.specs.Receiving.{AreSides, Keeps};
ghost use Rattle.od_sync.specs.Pulls.{StopsBad};
ghost use Rattle.od_sync.specs.Scans.{GrowsByLooks};
ghost use Rattle.od_sync.specs.Serving.{Leaves, Serves};
ghost use Rattle.od_sync.specs.Syncing.{Goes, Meets};

use crate::agreeing::agree;
use crate::committing::commit;
use crate::ends::SyncStop;
use crate::receiving::{Received, receive};
use crate::scanning::{Node, scan};
use gd_item::Item;
use gd_names::{List, Path};
use od_keeper::{Image, Keeper, KeeperFault};
use od_transfer::Remote;
use od_tree::Tree;
use std::alloc::Global;

/// What both sides have, each in order of path, and the image that was committed then.
#[derive(Debug, Drop)]
pub struct Sides {
    pub image: Image,
    pub local: List<(Path, Node)>,
    pub remote: List<(Path, Item)>,
}

/// Commits what both sides agree on.
fn commit_agreement<K: Keeper>(
    alloc: Global,
    keeper: &mut K,
    received: Received,
    local: List<(Path, Node)>,
) -> Result<Sides, KeeperFault>
    ensures sides { IfOk result (λ sides. AreSides received local sides) }
    ensures images { Keeps received.image (λ sides. sides.image) (K.images keeper.old) (K.images keeper.new) result }
    ensures cause { HasKeeperCause (K.faults keeper.old) (K.faults keeper.new) result }
    ensures undisturbed { keeper_alone.Undisturbed (K.undisturbed keeper.old) (K.undisturbed keeper.new) (K.faults keeper.old) (K.faults keeper.new) }
{
    let Received { image, remote } = received;
    let change = agree(
        alloc,
        image.rows.as_slice(),
        local.as_slice(),
        remote.as_slice(),
    )?;
    let image = commit(alloc, keeper, &image, &change)?;
    Ok(Sides {
        image,
        local,
        remote,
    })
}

/// Looks at both sides: pulls the drive and commits what was pulled, scans the folder, and commits what both agree on.
pub fn look<R: Remote, T: Tree, K: Keeper>(
    alloc: Global,
    remote: &mut R,
    tree: &mut T,
    keeper: &mut K,
    image: Image,
) -> Result<Sides, SyncStop>
    ensures goes { Goes (λ drive. IsSound image drive) image (R.log remote.old) (R.log remote.new) (T.log tree.old) (T.log tree.new) (K.images keeper.old) (K.images keeper.new) }
    ensures meets { IfOk result (λ sides. Meets image sides (R.log remote.old) (R.log remote.new) (T.log tree.old) (T.log tree.new) (K.images keeper.old) (K.images keeper.new)) }
    ensures looks { GrowsByLooks 1 (T.log tree.old) (T.log tree.new) }
    ensures asks { AsksDelta (IsErrOf result SyncStop.Memory) image.token (R.log remote.old) (R.log remote.new) }
    ensures below { IfOk result (λ sides. All (λ (entry : List (List ℕ) × Item). 0 < length entry.0) sides.remote) }
    ensures bad { (n : ℕ) → IsErrOf result (SyncStop.BadPages (item_id n)) → StopsBad image.items image.token (R.log remote.old) (R.log remote.new) n }
    ensures bad_stays { (n : ℕ) → IsErrOf result (SyncStop.BadPages (item_id n)) → Stay (K.images keeper.old) (K.images keeper.new) }
    ensures unserved { IsErrOf result SyncStop.Unserved → (drive : List Step) → R.log remote.old ≡ Some drive → EndsUnserved (Delta image.token) drive (R.log remote.new) }
    ensures serves { Serves image (R.log remote.old) (R.log remote.new) (K.images keeper.old) (K.images keeper.new) }
    ensures last { IfOk result (λ sides. Leaves image sides.image (K.images keeper.old) (K.images keeper.new)) }
    ensures answered { OnOk result (Rose (R.answers remote.old) (R.answers remote.new)) }
    ensures cause { HasStopCause
        (counts (R.faults remote.old) (R.answers remote.old) (R.in_row remote.old) (T.faults tree.old) (K.faults keeper.old))
        (counts (R.faults remote.new) (R.answers remote.new) (R.in_row remote.new) (T.faults tree.new) (K.faults keeper.new)) result }
    ensures remote_alone { remote_alone.Undisturbed (R.undisturbed remote.old) (R.undisturbed remote.new) (R.log remote.old) (R.log remote.new) }
    ensures no_faults { R.undisturbed remote.old ≡ true → remote_alone.MayBeServed (Delta image.token) (R.log remote.old) → R.faults remote.new ≡ R.faults remote.old }
    ensures tree_alone { tree_alone.Undisturbed (T.undisturbed tree.old) (T.undisturbed tree.new) (T.faults tree.old) (T.faults tree.new) (T.log tree.old) (T.log tree.new) }
    ensures keeper_alone { keeper_alone.Undisturbed (K.undisturbed keeper.old) (K.undisturbed keeper.new) (K.faults keeper.old) (K.faults keeper.new) }
{
    let received = receive(alloc, remote, keeper, &image)?;
    let local = scan(tree, alloc)?;
    let sides = commit_agreement(alloc, keeper, received, local)?;
    Ok(sides)
}
