ghost use Rattle.std.specs.Prelude.{◌≡◌, false, true, OnOk, OnErr, None};

use crate::event::{Event, event_line};
use crate::listener::Listener;
use gd_names::{List, NoMemory, Sink, SinkFault};
use std::alloc::Global;

/// A listener for people: it writes a line for each event, and falls silent once a write was refused, so that no line
/// stands behind a broken one. It goes on counting.
#[derive(Debug, Drop)]
pub struct LineListener<S> {
    alloc: Global,
    sink: S,
    silent: bool,
    told: u64,
}

impl<S: Sink> LineListener<S> {
    ghost use Rattle.od_report.specs.Listeners.{sink_of, is_silent, line_count_of};
    ghost use Rattle.od_report.specs.Lines.{Writes};

    pub fn new(alloc: Global, sink: S) -> LineListener<S>
        ensures sink { sink_of result ≡ sink }
        ensures silent { is_silent result ≡ false }
        ensures told { line_count_of result ≡ 0 }
    {
        LineListener {
            alloc,
            sink,
            silent: false,
            told: 0,
        }
    }

    /// The sink, with the lines that were written.
    pub fn sink(&self) -> &S
        ensures { result.now ≡ sink_of self.now }
    {
        &self.sink
    }

    /// Whether a write was refused.
    pub fn is_silent(&self) -> bool
        ensures { result ≡ is_silent self.now }
    {
        self.silent
    }

    /// Writes a line, unless an earlier one was refused.
    fn write_line(&mut self, line: &[u8]) -> Result<(), NoMemory>
        requires { is_silent self.old ≡ false }
        ensures writes { Writes line.now (is_silent self.new) (S.written (sink_of self.old)) (S.written (sink_of self.new))
            (S.faults (sink_of self.old)) (S.faults (sink_of self.new)) result }
        ensures told { line_count_of self.new ≡ line_count_of self.old }
    {
        match self.sink.write(line) {
            Ok(()) => Ok(()),
            Err(SinkFault::Failed) => {
                self.silent = true;
                Ok(())
            }
            Err(SinkFault::Memory) => {
                self.silent = true;
                Err(NoMemory)
            }
        }
    }
}

impl<S: Sink + Drop> Listener for LineListener<S> {
    ghost use Rattle.std.specs.Prelude.{None};
    ghost use Rattle.od_report.specs.Listeners.{sink_of, is_silent, line_count_of};
    ghost use Rattle.od_report.specs.Lines.{Shows, line_of};
    ghost use Rattle.od_report.specs.Told.{Told};

    ghost list = { λ _. None };

    ghost count = { λ l. line_count_of l };

    fn tell(&mut self, event: &Event) -> Result<(), NoMemory>
        ensures ok { OnOk result (Told event.now None None (line_count_of self.old) (line_count_of self.new)) }
        ensures err { OnErr result (line_count_of self.new ≡ line_count_of self.old) }
        ensures shows { Shows (line_of event.now) (is_silent self.old) (is_silent self.new) (S.written (sink_of self.old)) (S.written (sink_of self.new))
            (S.faults (sink_of self.old)) (S.faults (sink_of self.new)) result }
    {
        if !self.silent {
            let line = event_line(self.alloc, event)?;
            self.write_line(line.as_bytes())?;
        }
        self.told = self.told.saturating_add(1);
        Ok(())
    }

    fn told(&self) -> u64 {
        self.told
    }

    fn events(&self) -> Option<&List<Event>> {
        None
    }
}
