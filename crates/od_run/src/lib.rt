//! The machine of the client: histories of a drive, a folder and a keeper, what a client may bring about in one, and what
//! holds in each.
#![tactic(auto)]

mod laws;

pub use laws::{
    it_loses_nothing, it_settles_on_equal_trees, its_agreements_were_so, its_images_are_sound,
    its_tokens_are_a_chain,
};
