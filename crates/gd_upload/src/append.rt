ghost use Rattle.std.specs.Prelude.{◌≡◌, ◌<◌, OnOk, OnErr};
ghost use Rattle.std.specs.List.{AllPairs};
ghost use Rattle.gd_item.specs.Sessions.{Session, with_fragment};

use crate::open::OpenSession;
use gd_names::NoMemory;

/// Keeps the bytes of a fragment in the session of a number.
pub fn append(
    sessions: &mut [OpenSession],
    number: u64,
    total: u64,
    bytes: &[u8],
) -> Result<(), NoMemory>
    requires { AllPairs (λ (x y : Session). x.number < y.number) sessions.old }
    ensures ok { OnOk result (sessions.new ≡ with_fragment number total bytes.now sessions.old) }
    ensures err { OnErr result (sessions.new ≡ sessions.old) }
{
    for session in sessions.iter_mut() {
        if session.number() == number {
            session.append(total, bytes)?;
            return Ok(());
        }
    }
    Ok(())
}
