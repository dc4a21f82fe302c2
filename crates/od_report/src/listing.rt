ghost use Rattle.std.specs.Prelude.{◌≡◌, [], Some};
ghost use Rattle.std.specs.Option.{option_copied};

use crate::event::Event;
use crate::listener::Listener;
use gd_names::{List, NoMemory};
use std::alloc::Global;

/// A listener that keeps the events in order.
#[derive(Debug, Drop)]
pub struct ListListener {
    events: List<Event>,
    told: u64,
}

impl ListListener {
    ghost use Rattle.od_report.specs.Listeners.{events_of, list_count_of};

    pub fn new(alloc: Global) -> ListListener
        ensures events { events_of result ≡ [] }
        ensures told { list_count_of result ≡ 0 }
    {
        ListListener {
            events: List::new(alloc),
            told: 0,
        }
    }
}

impl Listener for ListListener {
    ghost use Rattle.std.specs.Prelude.{Some};
    ghost use Rattle.od_report.specs.Listeners.{events_of, list_count_of};

    ghost list = { λ l. Some (events_of l) };

    ghost count = { λ l. list_count_of l };

    fn tell(&mut self, event: &Event) -> Result<(), NoMemory> {
        self.events.push(event.clone()?)?;
        self.told = self.told.saturating_add(1);
        Ok(())
    }

    fn told(&self) -> u64 {
        self.told
    }

    fn events(&self) -> Option<&List<Event>> {
        Some(&self.events)
    }
}
