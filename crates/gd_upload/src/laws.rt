//! Laws of sessions, each the contract of a function that does nothing.
ghost use Rattle.std.specs.Prelude.{◌≡◌, ℕ, ◌<◌, List, length, None, Some};
ghost use Rattle.gd_item.specs.Completions.{received};
ghost use Rattle.gd_item.specs.Sessions.{Session, session_at, fragment_fault};
ghost use Rattle.gd_item.specs.Steps.{state_of};
ghost use Rattle.gd_item.specs.declared.step.Step.{Step};

/// A fragment whose bytes came is refused, so it changes nothing.
pub fn a_repeated_fragment_is_refused()
    ensures { (kept first last total : ℕ) (sessions : List Session) (session : Session) (bytes : List ℕ) → first < length session.filled
        → fragment_fault kept sessions (Some session) first last total bytes ≡ None → ⊥ }
{}

/// The bytes of a session that lives are those of its accepted fragments, joined.
pub fn session_bytes_are_received()
    ensures { (log : List Step) (number : ℕ) (session : Session) → session_at number (state_of log).sessions ≡ Some session → session.filled ≡ received number log }
{}
