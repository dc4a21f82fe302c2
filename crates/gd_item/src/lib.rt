//! Items, requests and replies of a drive, and the definitions that say what a drive is.
#![tactic(auto)]

mod condition;
mod digest;
mod drive_instances;
mod fault;
mod id;
mod instances;
mod item;
mod laws;
mod live;
mod log_laws;
mod parts;
mod reply;
mod request;
mod session_instances;
mod step;
mod token;
mod tree_laws;

pub use condition::{Condition, matches};
pub use digest::{Digest, digest_of};
pub use drive_instances::{
    case_changed, children_listed, expired_token_gone, folder_deleted, folder_moved,
    folder_renamed_and_removed, large_pages_full, moved_between_pages, moves_refused, pages_full,
    puts_answered, removed_between_pages, restored_token_gone, steps_unlucky, tokens_read,
    tokens_served,
};
pub use fault::{ErrorCode, SessionFault, StoreFault};
pub use id::ItemId;
pub use instances::{file_replaced, folder_refusals, folder_removed, taken_name_put};
pub use item::{Item, Kind, Tag, ctag_of, etag_of};
pub use laws::{ids_read_back, tokens_read_back};
pub use live::{LiveItem, Place, Tombstone, Version, VersionInfo};
pub use log_laws::{
    a_session_completes_once, a_version_is_accepted, accepted_versions_stay,
    kept_bytes_are_those_of_versions, numbers_never_fall, pages_give_each_change_once,
    session_bytes_are_those_received,
};
pub use parts::split_last;
pub use reply::{Page, PageLink, Reply, Resync};
pub use request::{Address, Request, RequestKind};
pub use session_instances::{
    deferred_session_finished, drive_filled, fragments_refused, large_file_sent, large_put_refused,
    plain_drive_bare, session_completed, session_overtaken, sessions_kept_apart,
};
pub use step::{DriveEvent, Step, Who};
pub use token::Token;
pub use tree_laws::{
    made_folder_keeps_tree, moved_item_keeps_tree, new_bytes_keep_tree, new_drive_is_tree,
    new_file_keeps_tree, numbers_count_effects, removed_items_keep_tree,
};
