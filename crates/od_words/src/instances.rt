//! The definition of the words at small lists. Each function does nothing: its contract is the instance.
ghost use Rattle.std.specs.Prelude.{◌≡◌, [], ◌∷◌, None, Some, codes};
ghost use Rattle.od_words.specs.Commands.{command_of};

use crate::command::Command;

pub fn a_replay_is_read()
    ensures host { command_of (codes "replay" ∷ codes "--host" ∷ codes "lap" ∷ []) ≡ Some (Command.Replay (codes "lap") None) }
    ensures generate { command_of (codes "replay" ∷ codes "--generate=12" ∷ []) ≡ Some (Command.Replay (codes "h1") (Some 12)) }
{}

pub fn words_are_refused()
    ensures none { command_of [] ≡ None }
    ensures alone { command_of (codes "sync" ∷ []) ≡ None }
    ensures too_many { command_of (codes "replay" ∷ codes "--generate" ∷ codes "5001" ∷ []) ≡ None }
    ensures twice { command_of (codes "replay" ∷ codes "--host" ∷ codes "a" ∷ codes "--host" ∷ codes "b" ∷ []) ≡ None }
{}
