//! What the pages of a drive's feed make of a client's mirror: laws without code.
#![tactic(auto)]

mod laws;

pub use laws::{
    a_feed_gives_the_drive, a_first_pull_gives_the_drive, a_pull_gives_the_drive, a_pull_goes_on,
    a_pull_over_pages_gives_the_drive, a_right_digest_keeps_the_drive,
};
