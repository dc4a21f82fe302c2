//! A scan of the folder over an outside: each folder is listed and each file that is to be read is read, in order of path.
#![tactic(auto)]

mod scanning;
mod stop;
mod waiting;

pub use scanning::scan;
pub use stop::ScanStop;
