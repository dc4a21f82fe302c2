ghost use Rattle.std.specs.Prelude.{◌≡◌, IfOk};
ghost use Rattle.gd_names.specs.Caseless.{lower_case};

use gd_names::{NoMemory, Text};
use std::alloc::Global;

/// A folder and a name in it, in lower case.
pub type Spot = (u64, Text);

pub fn make_spot(alloc: Global, parent: u64, name: &Text) -> Result<Spot, NoMemory>
    ensures { IfOk result (λ spot. spot ≡ (parent, lower_case name.now)) }
{
    let lower = name.as_str().to_ascii_lowercase(alloc)?;
    Ok((parent, Text::from_string(lower)))
}
