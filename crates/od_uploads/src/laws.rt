//! What a client uploads in a legal history, each law the contract of a function that does nothing.
ghost use Rattle.std.specs.Prelude.{◌≡◌, true, List, []};
ghost use Rattle.gd_item.specs.Steps.{is_fair_after, state_of};
ghost use Rattle.od_run.specs.Acting.{IsLegal};
ghost use Rattle.od_run.specs.Good.{AreSound};
ghost use Rattle.od_run.specs.Worlds.{World, Event, now, steps_in};
ghost use Rattle.od_tree.specs.Loss.{readings};
ghost use Rattle.od_uploads.specs.Conditions.{UploadsUnderCondition};
ghost use Rattle.od_uploads.specs.Falling.{FallOnce};
ghost use Rattle.od_uploads.specs.Uploading.{SendsOnce, UploadsReadings};

/// Each file that this client puts on the drive, at once or by a session, has the bytes of a reading, where no other client
/// names a session that this client opened.
pub fn it_uploads_readings_only()
    ensures { (w : World) (events : List Event) → IsLegal w events → is_fair_after (state_of w.drive) (steps_in events) ≡ true
        → UploadsReadings (readings (now w events).local) w.drive (steps_in events) }
{}

/// Each file that this client puts on the drive has its condition just before: an item that is replaced has the tag that it
/// had when this client asked for changes last, and of a new one no sibling has the name, also but for case.
pub fn its_uploads_have_their_condition()
    ensures { (w : World) (events : List Event) → AreSound w.drive w.images → IsLegal w events → UploadsUnderCondition w.drive (steps_in events) }
{}

/// Between two of its requests for changes at most one put of this client falls on a place: on an item, or on a name in a
/// folder.
pub fn its_uploads_fall_once()
    ensures { (w : World) (events : List Event) → IsLegal w events → FallOnce w.drive [] (steps_in events) }
{}

/// Between two of its requests for changes this client sends a file at most once to a place, by one put or by one session,
/// whatever comes of it.
pub fn it_sends_once()
    ensures { (w : World) (events : List Event) → IsLegal w events → SendsOnce [] (steps_in events) }
{}
