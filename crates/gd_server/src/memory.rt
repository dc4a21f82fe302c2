//! A connection in memory.
ghost use Rattle.std.specs.Prelude.{◌≡◌, ◌≢◌, ◌<◌, ◌-◌, ◌^◌, []};
ghost use Rattle.gd_names.specs.Memory.{read_faults_of, read_failing_of, write_faults_of, write_failing_of};

use crate::connection::serve_connection;
use crate::end::ServeEnd;
use gd_api::Drive;
use gd_json::Wire;
use gd_names::{MemorySink, MemorySource};
use std::alloc::Global;

/// Serves a connection in memory. Where no call is to fail, none is at fault.
pub fn serve_in_memory(
    alloc: Global,
    source: &mut MemorySource,
    sink: &mut MemorySink,
    wire: &Wire,
    drive: &mut Drive,
) -> ServeEnd
    ensures no_read_fault { read_failing_of source.old ≡ [] → read_faults_of source.old < 2 ^ 64 - 1 → result ≢ ServeEnd.ReadFault }
    ensures no_write_fault { write_failing_of sink.old ≡ [] → write_faults_of sink.old < 2 ^ 64 - 1 → result ≢ ServeEnd.WriteFault }
{
    serve_connection(alloc, source, sink, wire, drive)
}
