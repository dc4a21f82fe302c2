//! Texts, names and paths of a drive, and the two ends of a stream of bytes.
#![tactic(auto)]

mod bytes;
mod caseless;
mod conflict;
mod copy;
mod escape;
mod exact;
pub mod laws;
mod list;
mod memory;
mod name;
mod numbered;
mod path;
mod sink;
mod source;
mod text;

pub use bytes::Bytes;
pub use caseless::{same_caseless, strip_caseless_end, strip_caseless_front};
pub use conflict::{Conflict, Settle, Sibling};
pub use copy::copy_name;
pub use escape::{EscapeFault, escape_segment, unescape_segment};
pub use exact::Exact;
pub use list::List;
pub use memory::NoMemory;
pub use name::{NameFault, check_name};
pub use numbered::{least_free, number_between, numbered_name, split_extension, unmarked};
pub use path::{Path, PathFault, path_fits};
pub use sink::{MemorySink, Sink, SinkFault};
pub use source::{MemorySource, Source, SourceFault};
pub use text::{Text, TextFault};
