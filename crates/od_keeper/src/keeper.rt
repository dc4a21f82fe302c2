ghost use Rattle.std.specs.Prelude.{◌≡◌, ◌≤◌, ℕ, Bool, List, Option};

use crate::fault::KeeperFault;
use crate::image::{Change, Image};
use std::alloc::Global;

/// Keeps the image from one run of the client to the next.
pub trait Keeper {
    ghost use Rattle.od_keeper.specs.Keeping.{Loads, Commits, HasKeeperCause};
    ghost use Rattle.od_keeper.specs.Undisturbed.{Undisturbed};
    ghost use Rattle.od_keeper.specs.declared.image.Image.{Image};

    /// The images that were committed, where they are told. The empty one of the beginning is none of them.
    ghost images: { Self → Option (List Image) };

    /// How often it has failed, up to the last value of a u64.
    ghost faults: { Self → ℕ };

    /// Whether no call fails from now on.
    ghost undisturbed: { Self → Bool };

    /// That one goes on to the other by calls. What more this means is the instance's.
    ghost goes: { Self → Self → Type 0 };

    /// The image that was committed last, and at first the empty one.
    fn load(&mut self, alloc: Global) -> Result<Image, KeeperFault>
        ensures images { Loads (images self.old) (images self.new) result }
        ensures cause { HasKeeperCause (faults self.old) (faults self.new) result }
        ensures undisturbed { Undisturbed (undisturbed self.old) (undisturbed self.new) (faults self.old) (faults self.new) }
        ensures goes { goes self.old self.new };

    /// Applies a change to the last image, whole or not at all.
    fn commit(&mut self, change: &Change) -> Result<(), KeeperFault>
        ensures images { Commits change.now (images self.old) (images self.new) result }
        ensures cause { HasKeeperCause (faults self.old) (faults self.new) result }
        ensures undisturbed { Undisturbed (undisturbed self.old) (undisturbed self.new) (faults self.old) (faults self.new) }
        ensures goes { goes self.old self.new };

    ghost goes_refl: { (x : Self) → goes x x };

    ghost goes_trans: { (x y z : Self) → goes x y → goes y z → goes x z };

    ghost goes_later: { (x y : Self) → goes x y → faults x ≤ faults y };
}
