ghost use Rattle.std.specs.Prelude.{◌<◌, length, IfOk};

mod drives;
mod keeper;
mod mirror;
mod replay;
mod script;
mod sync;
mod transfer;
mod tree;

use gd_names::{List, NoMemory, Path, Text};
use std::alloc::Global;

fn at_root(alloc: Global, name: &str) -> Result<Path, NoMemory>
    ensures { IfOk result (λ path. 0 < length path) }
{
    let mut names = List::new(alloc);
    names.push(Text::from_str(alloc, name)?)?;
    Ok(Path::from_names(names))
}

fn in_folder(alloc: Global, folder: &str, name: &str) -> Result<Path, NoMemory>
    ensures { IfOk result (λ path. 0 < length path) }
{
    let mut names = List::new(alloc);
    names.push(Text::from_str(alloc, folder)?)?;
    names.push(Text::from_str(alloc, name)?)?;
    Ok(Path::from_names(names))
}
