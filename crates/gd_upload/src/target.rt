use gd_item::{Condition, Place};
use gd_names::Conflict;

/// Where the file of a session is put, and how.
#[derive(Debug, Drop)]
pub struct Target {
    pub place: Place,
    pub behaviour: Conflict,
    pub condition: Condition,
    /// Whether the file is made by a request of its own, and not by the last fragment.
    pub defer: bool,
}
