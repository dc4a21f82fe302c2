ghost use Rattle.std.specs.Prelude.{◌≡◌, IfOk};
ghost use Rattle.od_cli.specs.Script.{lines_of};

use gd_names::{Bytes, List, NoMemory};
use std::alloc::Global;

/// The lines of a text, one for each LF. The last LF may be missing.
pub fn cut_lines(alloc: Global, text: &[u8]) -> Result<List<Bytes>, NoMemory>
    ensures { IfOk result (λ lines. lines ≡ lines_of text.now) }
{
    let mut lines = Vec::new(alloc);
    let mut current = Vec::new(alloc);
    for b in text {
        if *b == b'\n' {
            lines.push(Bytes::from_vec(current))?;
            current = Vec::new(alloc);
        } else {
            current.push(*b)?;
        }
    }
    if !current.is_empty() {
        lines.push(Bytes::from_vec(current))?;
    }
    Ok(List::from_vec(lines))
}
