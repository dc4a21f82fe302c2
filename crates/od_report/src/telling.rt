ghost use Rattle.std.specs.Prelude.{OnOk, OnErr};
ghost use Rattle.std.specs.List.{AllZip};
ghost use Rattle.od_report.specs.Told.{Told, IsKept, Stopped};

use crate::event::Event;
use crate::listener::Listener;
use gd_names::NoMemory;

/// Tells the event to each listener in order. One that refuses it ends the telling, and those before it were told.
pub fn tell_all(listeners: &mut Vec<Box<dyn Listener>>, event: &Event) -> Result<(), NoMemory>
    ensures ok { OnOk result (AllZip (λ before after. Told event.now (list before) (list after) (count before) (count after))
        listeners.old.items listeners.new.items) }
    ensures err { OnErr result (Stopped (λ before after. Told event.now (list before) (list after) (count before) (count after))
        (λ before after. IsKept (list before) (list after) (count before) (count after)) listeners.old.items listeners.new.items) }
{
    match tell_each(listeners.as_mut_slice(), event) {
        Ok(()) => Ok(()),
        Err(refused) => Err(refused),
    }
}

fn tell_each(listeners: &mut [Box<dyn Listener>], event: &Event) -> Result<(), NoMemory>
    ensures ok { OnOk result (AllZip (λ before after. Told event.now (list before) (list after) (count before) (count after))
        listeners.old listeners.new) }
    ensures err { OnErr result (Stopped (λ before after. Told event.now (list before) (list after) (count before) (count after))
        (λ before after. IsKept (list before) (list after) (count before) (count after)) listeners.old listeners.new) }
{
    for listener in listeners.iter_mut() {
        tell_one(listener, event)?;
    }
    Ok(())
}

fn tell_one(listener: &mut Box<dyn Listener>, event: &Event) -> Result<(), NoMemory>
    ensures ok { OnOk result (Told event.now (list listener.old) (list listener.new) (count listener.old) (count listener.new)) }
    ensures err { OnErr result (IsKept (list listener.old) (list listener.new) (count listener.old) (count listener.new)) }
{
    listener.tell(event)
}
