ghost use Rattle.std.specs.Prelude.{◌≡◌, ◌++◌, codes, IfOk};
ghost use Rattle.gd_names.specs.Paths.{path_text};
ghost use Rattle.od_report.specs.Lines.{line_of};

use gd_names::{Exact, NoMemory, Path, Text};
use std::alloc::Global;

/// What a sync did. `Here` is the local folder, `There` the drive.
#[derive(Clone, Debug, PartialEq, Eq, Drop)]
pub enum Event {
    /// A folder was made.
    MadeHere(Path),
    /// A file or an empty folder was removed.
    RemovedHere(Path),
    /// A file of the drive was placed.
    PlacedHere(Path),
    /// What stood at the first path stands at the second, as a copy that both sides keep.
    CopiedHere(Path, Path),
    /// A file that had been set aside stands at its path again.
    BackHere(Path),
    MadeThere(Path),
    RemovedThere(Path),
    /// The bytes of a file were sent.
    SentThere(Path),
}

impl Exact for Event {
    ghost use Rattle.std.proofs.Common.{rules};

    ghost exact = { Prim.search rules };
}

/// The line that tells the event to a person, with LF at its end.
pub fn event_line(alloc: Global, event: &Event) -> Result<Text, NoMemory>
    ensures { IfOk result (λ line. line ≡ line_of event.now) }
{
    match event {
        Event::MadeHere(path) => word_and_path(alloc, "made ", path),
        Event::RemovedHere(path) => word_and_path(alloc, "removed ", path),
        Event::PlacedHere(path) => word_and_path(alloc, "placed ", path),
        Event::CopiedHere(from, to) => copied(alloc, from, to),
        Event::BackHere(path) => word_and_path(alloc, "back ", path),
        Event::MadeThere(path) => word_and_path(alloc, "made on drive ", path),
        Event::RemovedThere(path) => word_and_path(alloc, "removed on drive ", path),
        Event::SentThere(path) => word_and_path(alloc, "sent ", path),
    }
}

fn word_and_path(alloc: Global, word: &str, path: &Path) -> Result<Text, NoMemory>
    ensures { IfOk result (λ line. line ≡ word.now ++ path_text path.now ++ codes "\n") }
{
    let path = path.write(alloc)?;
    let path = path.as_str();
    let line = format!(in alloc; "{word}{path}\n")?;
    Ok(Text::from_string(line))
}

fn copied(alloc: Global, from: &Path, to: &Path) -> Result<Text, NoMemory>
    ensures { IfOk result (λ line. line ≡ codes "copied " ++ path_text from.now ++ codes " " ++ path_text to.now ++ codes "\n") }
{
    let from = from.write(alloc)?;
    let from = from.as_str();
    let to = to.write(alloc)?;
    let to = to.as_str();
    let line = format!(in alloc; "copied {from} {to}\n")?;
    Ok(Text::from_string(line))
}
