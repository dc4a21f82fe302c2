ghost use Rattle.std.specs.Prelude.{◌≡◌, IfOk};
ghost use Rattle.od_keeper.specs.Images.{applied};
ghost use Rattle.od_keeper.specs.Keeping.{Commits, HasKeeperCause};
ghost use Rattle.od_keeper.specs.Undisturbed.{Undisturbed};

use od_keeper::{Change, Image, Keeper, KeeperFault, applied};
use std::alloc::Global;

/// Commits a change of the kept image, and gives the image with it.
pub fn commit<K: Keeper>(
    alloc: Global,
    keeper: &mut K,
    image: &Image,
    change: &Change,
) -> Result<Image, KeeperFault>
    ensures next { IfOk result (λ next. next ≡ applied change.now image.now) }
    ensures images { Commits change.now (K.images keeper.old) (K.images keeper.new) result }
    ensures cause { HasKeeperCause (K.faults keeper.old) (K.faults keeper.new) result }
    ensures undisturbed { Undisturbed (K.undisturbed keeper.old) (K.undisturbed keeper.new) (K.faults keeper.old) (K.faults keeper.new) }
{
    let next = applied(alloc, change, image)?;
    match keeper.commit(change) {
        Ok(()) => Ok(next),
        Err(fault) => Err(fault),
    }
}
