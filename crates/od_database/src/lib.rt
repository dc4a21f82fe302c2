//! The client's database in a file of SQLite: an image as rows of three tables, and a keeper over them.
#![tactic(auto)]

mod agreement;
mod columns;
mod entry;
mod fault;
mod keeper;
mod laws;
mod number;
mod setup;
mod statements;
mod tables;
mod write;

pub use agreement::AgreementRow;
pub use entry::EntryRow;
pub use fault::DatabaseFault;
pub use keeper::SqlKeeper;
pub use laws::{agreements_are_read_back, columns_are_read_back, items_are_read_back};
pub use tables::Tables;
pub use write::{Write, writes_of};
