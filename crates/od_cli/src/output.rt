ghost use Rattle.std.specs.Prelude.{◌≡◌, IfOk};
ghost use Rattle.od_cli.specs.Replays.{IsOutput, bad_line_of};
ghost use Rattle.od_cli.specs.Script.{script};

use crate::play::play;
use crate::print::print_bad_line;
use crate::script::{ScriptFault, read_script};
use gd_names::{Bytes, NoMemory};
use std::alloc::Global;

/// What is to be written for a script, and the line that is none, if there is one.
#[derive(Debug, Drop)]
pub struct Output {
    pub text: Bytes,
    pub bad_line: Option<u64>,
}

/// Plays a script, or tells its first line that is no script line.
pub fn make_output(alloc: Global, text: &[u8]) -> Result<Output, NoMemory>
    ensures { IfOk result (λ made. IsOutput text.now made.text × (made.bad_line ≡ bad_line_of (script text.now))) }
{
    match read_script(alloc, text) {
        Ok(lines) => {
            let text = play(alloc, lines.as_slice())?;
            Ok(Output {
                text,
                bad_line: None,
            })
        }
        Err(ScriptFault::BadLine(number)) => {
            let mut text = Bytes::new(alloc);
            print_bad_line(alloc, &mut text, number)?;
            Ok(Output {
                text,
                bad_line: Some(number),
            })
        }
        Err(ScriptFault::Memory) => Err(NoMemory),
    }
}
