ghost use Rattle.std.specs.Prelude.{◌≡◌, IfOk};
ghost use Rattle.gd_item.specs.Places.{names_above, last_name};

use gd_names::{List, NoMemory, Path, Text};
use std::alloc::Global;

/// The path above the last name of a path, and that name. The root's are the root and an empty name.
pub fn split_last(alloc: Global, path: &Path) -> Result<(Path, Text), NoMemory>
    ensures { IfOk result (λ parts. (parts.0 ≡ names_above path.now) × (parts.1 ≡ last_name path.now)) }
{
    let mut above = List::new(alloc);
    let mut names = path.names();
    while let [name, rest @ ..] = names {
        if rest.is_empty() {
            return Ok((Path::from_names(above), name.clone()?));
        }
        above.push(name.clone()?)?;
        names = rest;
    }
    Ok((Path::from_names(above), Text::from_str(alloc, "")?))
}
