//! What the client keeps from one run to the next: the drive's items as it last saw them, and what both sides agreed on.
#![tactic(auto)]

mod apply;
mod fault;
mod image;
mod keeper;
mod laws;
mod memory;

pub use apply::{applied, empty_image};
pub use fault::KeeperFault;
pub use image::{Agreed, BaseRow, Change, Image};
pub use keeper::Keeper;
pub use laws::{soundness_is_kept, the_empty_image_is_sound, unlisted_calls_never_fail};
pub use memory::MemoryKeeper;
