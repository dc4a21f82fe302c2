use super::*;
use gd_names::{List, MemorySink, Path, PathFault};
use std::alloc::Global;
use std::test::Fail;

fn made(alloc: Global, path: &str) -> Result<Event, PathFault> {
    Ok(Event::MadeHere(Path::read(alloc, path.as_bytes())?))
}

fn sent(alloc: Global, path: &str) -> Result<Event, PathFault> {
    Ok(Event::SentThere(Path::read(alloc, path.as_bytes())?))
}

/// Tells all of a folder that was made, and of a file that was sent.
fn tell_two(alloc: Global, listeners: &mut Vec<Box<dyn Listener>>) -> Result<(), Fail> {
    tell_all(listeners, &made(alloc, "/d")?)?;
    tell_all(listeners, &sent(alloc, "/d/f")?)?;
    Ok(())
}

/// A listener that counts.
fn counting(alloc: Global) -> Result<Vec<Box<dyn Listener>>, Fail> {
    let mut listeners: Vec<Box<dyn Listener>> = Vec::new(alloc);
    listeners.push(Box::new(alloc, CountListener::new())?)?;
    Ok(listeners)
}

/// One that counts, and one that keeps what it is told.
fn counting_and_keeping(alloc: Global) -> Result<Vec<Box<dyn Listener>>, Fail> {
    let mut listeners = counting(alloc)?;
    listeners.push(Box::new(alloc, ListListener::new(alloc))?)?;
    Ok(listeners)
}

/// The listener that was put in last, after it was told of both.
fn told_two(alloc: Global, listeners: Vec<Box<dyn Listener>>) -> Result<Box<dyn Listener>, Fail> {
    let mut listeners = listeners;
    tell_two(alloc, &mut listeners)?;
    Ok(listeners.pop().ok_or("a listener")?)
}

/// Whether these are the two, in order.
fn are_the_two(alloc: Global, events: &[Event]) -> Result<bool, Fail> {
    let first = made(alloc, "/d")?;
    let second = sent(alloc, "/d/f")?;
    Ok(events.len() == 2 && events[0] == first && events[1] == second)
}

#[test]
fn two_events_are_counted(rt: HostRuntime) -> Result<(), Fail> {
    let listener = told_two(rt.alloc(), counting(rt.alloc())?)?;
    assert_eq!(rt; listener.told(), 2);
    assert!(rt; listener.events().is_none());
    Ok(())
}

#[test]
fn two_events_are_kept_in_order(rt: HostRuntime) -> Result<(), Fail> {
    let listener = told_two(rt.alloc(), counting_and_keeping(rt.alloc())?)?;
    let events = listener.events().ok_or("its events")?.as_slice();
    assert!(rt; are_the_two(rt.alloc(), events)?);
    Ok(())
}

#[test]
fn each_event_has_its_line(rt: HostRuntime) -> Result<(), Fail> {
    let alloc = rt.alloc();
    let sink = MemorySink::new(alloc, List::new(alloc));
    let mut listener = LineListener::new(alloc, sink);
    listener.tell(&made(alloc, "/d")?)?;
    listener.tell(&sent(alloc, "/d/a%20b")?)?;
    assert_eq!(rt; listener.told(), 2);
    assert!(rt; listener.sink().written().as_slice() == b"made /d\nsent /d/a%20b\n".as_slice());
    Ok(())
}

#[test]
fn a_refused_write_silences(rt: HostRuntime) -> Result<(), Fail> {
    let alloc = rt.alloc();
    let failing = vec![in alloc; 1u64]?;
    let sink = MemorySink::new(alloc, List::from_vec(failing));
    let mut listener = LineListener::new(alloc, sink);
    listener.tell(&made(alloc, "/d")?)?;
    listener.tell(&sent(alloc, "/d/f")?)?;
    assert!(rt; listener.is_silent());
    assert_eq!(rt; listener.told(), 2);
    assert!(rt; listener.sink().written().is_empty());
    Ok(())
}
