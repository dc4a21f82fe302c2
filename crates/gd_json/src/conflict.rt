//! `@microsoft.graph.conflictBehavior`.
ghost use Rattle.std.specs.Prelude.{◌≡◌, codes};
ghost use Rattle.serde_json.specs.Find.{get};
ghost use Rattle.serde_json.specs.View.{view};
ghost use Rattle.gd_json.specs.Changes.{behaviour_text, behaviour_of, behaviour_at};
ghost use Rattle.gd_json.specs.Faults.{Gives};

use crate::fault::{JsonFault, Member};
use gd_names::Conflict;
use serde_json::Value;

pub fn behaviour_text(behaviour: Conflict) -> &'static str
    ensures { result.now ≡ behaviour_text behaviour }
{
    match behaviour {
        Conflict::Fail => "fail",
        Conflict::Replace => "replace",
        Conflict::Rename => "rename",
    }
}

#[tactic(auto, unfolding(crate::specs::Changes::behaviour_of))]
fn behaviour_of(text: &str) -> Option<Conflict>
    ensures { result ≡ behaviour_of text.now }
{
    match text {
        "fail" => Some(Conflict::Fail),
        "replace" => Some(Conflict::Replace),
        "rename" => Some(Conflict::Rename),
        _ => None,
    }
}

/// Without the member a name that is taken is refused.
#[tactic(auto, unfolding(crate::specs::Changes::behaviour_at))]
pub fn behaviour_in(value: &Value) -> Result<Conflict, JsonFault>
    ensures { Gives (λ x. x) result (behaviour_at (get (codes "@microsoft.graph.conflictBehavior") (view value.now))) }
{
    match value.get("@microsoft.graph.conflictBehavior") {
        None => Ok(Conflict::Fail),
        Some(found) => match found.as_str() {
            None => Err(JsonFault::BadMember(Member::ConflictBehavior)),
            Some(text) => {
                behaviour_of(text).ok_or(JsonFault::BadMember(Member::ConflictBehavior))
            }
        },
    }
}
