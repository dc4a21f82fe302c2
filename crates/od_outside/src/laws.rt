//! What the client knows in a world, each law the contract of a function that does nothing.
ghost use Rattle.std.specs.Prelude.{List};
ghost use Rattle.od_outside.specs.Running.{IsKnown};
ghost use Rattle.od_run.specs.Acting.{LegalFrom};
ghost use Rattle.od_run.specs.Good.{AreSound};
ghost use Rattle.od_run.specs.Knowing.{Known, begins, learned};
ghost use Rattle.od_run.specs.Worlds.{World, Event, now};

/// Where every image is sound, a call begins with what is known of the last one, and what is known stays so over legal events.
pub fn what_is_known_stays()
    ensures begins { (w : World) → AreSound w.drive w.images → IsKnown w (begins w) }
    ensures stays { (w : World) (k : Known) (events : List Event) → IsKnown w k → LegalFrom w k events → IsKnown (now w events) (learned w k events) }
{}
