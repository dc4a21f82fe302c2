//! What a client uploads in every legal history: readings, once to a place, under their condition.
#![tactic(auto)]

mod laws;

pub use laws::{
    it_sends_once, it_uploads_readings_only, its_uploads_fall_once,
    its_uploads_have_their_condition,
};
