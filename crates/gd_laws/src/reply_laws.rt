//! The replies of a drive are those that a client may have, each law the contract of a function that does nothing.
ghost use Rattle.std.specs.Prelude.{◌≡◌, ◌⊎◌, ℕ, Bool, true, List, Option};
ghost use Rattle.gd_item.specs.Answers.{answer_of, answer_served};
ghost use Rattle.gd_item.specs.Replies.{may_answer, is_page_or_gone};
ghost use Rattle.gd_item.specs.Requests.{kind_of};
ghost use Rattle.gd_item.specs.Steps.{state_of};

use gd_item::{ErrorCode, Reply, Request, Step};

/// Each request is answered by a reply of its kind or by a refusal, also where the drive lacks memory.
pub fn an_answer_is_of_its_kind()
    ensures { (log : List Step) (size : ℕ) (request : Request) (served : Bool) → may_answer (kind_of request) (answer_served served (state_of log) size request) ≡ true }
{}

/// A drive that has memory answers a request for changes with a page or with how to begin anew, or refuses its token.
pub fn changes_are_answered()
    ensures { (log : List Step) (size : ℕ) (token : Option (List ℕ)) → let reply = answer_of log size (Request.Delta token) in
        (is_page_or_gone reply ≡ true) ⊎ (reply ≡ Reply.Refused 400 ErrorCode.InvalidRequest) }
{}
