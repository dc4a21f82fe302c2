//! What holds of every legal history, each law the contract of a function that does nothing.
ghost use Rattle.std.specs.Prelude.{◌≡◌, true, List};
ghost use Rattle.gd_item.specs.Steps.{accepted_by};
ghost use Rattle.od_keeper.specs.Keeping.{last_image};
ghost use Rattle.od_run.specs.Acting.{IsLegal};
ghost use Rattle.od_run.specs.Chains.{AreChained};
ghost use Rattle.od_run.specs.Good.{AreSound};
ghost use Rattle.od_run.specs.Knowing.{begins, learned};
ghost use Rattle.od_run.specs.Moments.{since_listed};
ghost use Rattle.od_run.specs.Settling.{AreEqual, IsSettled};
ghost use Rattle.od_run.specs.Truths.{WereSo};
ghost use Rattle.od_run.specs.Worlds.{World, Event, kept_in, now, steps_in};
ghost use Rattle.od_tree.specs.Collisions.{NoCollision};
ghost use Rattle.od_tree.specs.Loss.{no_loss};
ghost use Rattle.od_tree.specs.Undisturbed.{NoUser};

use od_synclist::Rule;

/// Where no edit of the user was lost, none is, unless two contents have one digest: of each write the file stands in the
/// folder or in holding, or the user replaced it, or its bytes stand in a version that the drive accepted.
pub fn it_loses_nothing()
    ensures { (w : World) (events : List Event) → AreSound w.drive w.images → IsLegal w events → no_loss w.local (accepted_by w.drive) ≡ true
        → NoCollision (now w events).local (accepted_by (now w events).drive) → no_loss (now w events).local (accepted_by (now w events).drive) ≡ true }
{}

/// Where every image is sound, each that is committed is sound too, and stays so.
pub fn its_images_are_sound()
    ensures { (w : World) (events : List Event) → AreSound w.drive w.images → IsLegal w events → AreSound (now w events).drive (now w events).images }
{}

/// The client asks for changes with the token of the last image, or with none where it began anew, and then with the token
/// that the last answer gave.
pub fn its_tokens_are_a_chain()
    ensures { (w : World) (events : List Event) → IsLegal w events
        → AreChained (last_image w.images).token w.drive (steps_in events) (kept_in events) (learned w (begins w) events).feed.token }
{}

/// Where what was pulled last and what was scanned last are equal on kept paths, and no one changed the folder since its root
/// was last listed, the folder's kept tree is that of the drive where it was last asked for changes.
pub fn it_settles_on_equal_trees()
    ensures { (w : World) (events : List Event) (rules : List Rule) → AreSound w.drive w.images → IsLegal w events → IsSettled rules (learned w (begins w) events)
        → NoUser (since_listed (now w events).local) → AreEqual rules (now w events) }
{}

/// Each agreement that is committed, unless it is one on nothing, was so: what it says stood at its path in the folder once,
/// and once at its path on the drive, or an accepted request of this client brought it about there. What is on its way was
/// read at its path.
pub fn its_agreements_were_so()
    ensures { (w : World) (events : List Event) → AreSound w.drive w.images → IsLegal w events → WereSo w.drive w.local w.images
        → WereSo (now w events).drive (now w events).local (now w events).images }
{}
