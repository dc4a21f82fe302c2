ghost use Rattle.std.specs.Prelude.{◌≡◌};

use crate::event::Event;
use crate::listener::Listener;
use gd_names::{List, NoMemory};

/// A listener that counts the events, and keeps none. It takes no memory.
#[derive(Debug, Drop)]
pub struct CountListener {
    told: u64,
}

impl CountListener {
    ghost use Rattle.od_report.specs.Listeners.{count_of};

    pub fn new() -> CountListener
        ensures { count_of result ≡ 0 }
    {
        CountListener { told: 0 }
    }
}

impl Listener for CountListener {
    ghost use Rattle.std.specs.Prelude.{◌≡◌, Ok, None};
    ghost use Rattle.od_report.specs.Listeners.{count_of};
    ghost use Rattle.od_report.specs.Told.{Told};

    ghost list = { λ _. None };

    ghost count = { λ l. count_of l };

    fn tell(&mut self, _event: &Event) -> Result<(), NoMemory> {
        self.told = self.told.saturating_add(1);
        Ok(())
    }

    fn told(&self) -> u64 {
        self.told
    }

    fn events(&self) -> Option<&List<Event>> {
        None
    }
}
