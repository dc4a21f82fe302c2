//! The bodies of requests and replies as JSON (RFC 8259), and the links in them.
#![tactic(auto)]

mod begin;
mod children;
mod conflict;
mod error;
mod fault;
mod folder;
mod item;
mod laws;
mod link;
mod list;
mod member;
mod number;
mod page;
mod patch;
mod session;
mod text;
mod wire;
mod written;

pub use begin::{BeginBody, read_begin, write_begin};
pub use children::{ChildList, read_children, write_children};
pub use error::{read_error, write_error};
pub use fault::{JsonFault, Member};
pub use folder::{FolderBody, read_folder, write_folder};
pub use item::read_item;
pub use laws::{bases_told, links_read_back};
pub use page::{read_page, write_page};
pub use patch::{PatchBody, read_patch, write_patch};
pub use session::{SessionBody, read_session, read_status, write_session};
pub use wire::{Wire, WireFault};
pub use written::write_item;

#[cfg(test)]
mod tests;
