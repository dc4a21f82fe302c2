ghost use Rattle.std.specs.Prelude.{◌≡◌, ℕ, List, Option, OnOk, OnErr};
ghost use Rattle.std.specs.Option.{option_copied};

use crate::event::Event;
use gd_names::{List, NoMemory};

/// Who is told what a sync did.
pub trait Listener: Drop {
    ghost use Rattle.od_report.specs.Told.{Told};
    ghost use Rattle.od_report.specs.declared.event.Event.{Event};

    /// The told events, where they are kept.
    ghost list: { Self → Option (List Event) };

    /// How many events were told, up to the last value of a u64.
    ghost count: { Self → ℕ };

    fn tell(&mut self, event: &Event) -> Result<(), NoMemory>
        ensures ok { OnOk result (Told event.now (list self.old) (list self.new) (count self.old) (count self.new)) }
        ensures err { OnErr result ((list self.new ≡ list self.old) × (count self.new ≡ count self.old)) };

    fn told(&self) -> u64
        ensures { result ≡ count self.now };

    fn events(&self) -> Option<&List<Event>>
        ensures { option_copied result ≡ list self.now };
}
