ghost use Rattle.std.specs.Prelude.{◌≡◌, ◌&&◌, ℕ, [], ◌∷◌, ◌++◌, Some, None, Ok, Err, IfOk, OnOk, IsErrOf};
ghost use Rattle.std.specs.Option.{option_to_list};
ghost use Rattle.std.specs.Str.{is_utf8};
ghost use Rattle.od_cli.specs.Following.{can_follow, is_allowed};
ghost use Rattle.od_cli.specs.Script.{command, command_parts, first_word, is_silent, line_of, move_parts, number_line, other_line, other_parts, put_parts, script, still_followed};

use crate::fault::LineFault;
use crate::line::Line;
use crate::lines::cut_lines;
use crate::words::{first_word, read_content, read_last_path, read_number, read_path};
use gd_names::{List, NoMemory};
use std::alloc::Global;

/// How many items a page has at most.
const MOST_PAGE: u32 = 200;

/// Why a text is no script.
#[derive(Clone, Copy, Debug, PartialEq, Eq)]
pub enum ScriptFault {
    /// The first line, from 1, that is no script line.
    BadLine(u64),
    Memory,
}

impl From<NoMemory> for ScriptFault {
    ghost use Rattle.od_cli.specs.declared.script.ScriptFault.TheVariants.{Memory};

    ghost from_gives = { λ _ fault. fault ≡ Memory };

    fn from(_error: NoMemory) -> ScriptFault {
        ScriptFault::Memory
    }
}

/// The lines that a text spells, or the number of the first that is no script line.
pub fn read_script(alloc: Global, text: &[u8]) -> Result<List<Line>, ScriptFault>
    ensures ok { IfOk result (λ lines. script text.now ≡ Ok lines) }
    ensures bad_line { (n : ℕ) → IsErrOf result (ScriptFault.BadLine n) → script text.now ≡ Err n }
{
    let texts = cut_lines(alloc, text)?;
    let mut lines = List::new(alloc);
    let mut number: u64 = 0;
    let mut followed = true;
    for line in texts.as_slice() {
        number += 1;
        match read_line(alloc, line.as_slice(), followed) {
            Ok(found) => {
                followed = is_still_followed(followed, &found);
                push_found(&mut lines, found)?
            }
            Err(LineFault::Bad) => return Err(ScriptFault::BadLine(number)),
            Err(LineFault::Memory) => return Err(ScriptFault::Memory),
        }
    }
    Ok(lines)
}

fn push_found(lines: &mut List<Line>, found: Option<Line>) -> Result<(), NoMemory>
    ensures { OnOk result (lines.new ≡ lines.old ++ option_to_list found) }
{
    match found {
        Some(line) => lines.push(line),
        None => Ok(()),
    }
}

/// Whether this client can follow what a line does to the drive.
fn can_follow(line: &Line) -> bool
    ensures { result ≡ can_follow line.now }
{
    !matches!(line, Line::Expire(_) | Line::Restore | Line::Page(_))
}

/// Whether this client can follow one more line, if there is one.
fn is_still_followed(followed: bool, found: &Option<Line>) -> bool
    ensures { result ≡ still_followed followed (option_to_list found.now) }
{
    match found {
        Some(line) => can_follow(line) && followed,
        None => followed,
    }
}

/// Whether a line may stand where this client can follow all lines before or not: a sync may not where it cannot. A page has
/// from 1 to 200 items.
fn is_allowed(followed: bool, line: &Line) -> bool
    ensures { result ≡ is_allowed followed line.now }
{
    match line {
        Line::Sync => followed,
        Line::Page(size) => 1 <= *size && *size <= 200,
        _ => true,
    }
}

/// What a line of a script does, if it does something, where this client can follow all lines before or not.
fn read_line(alloc: Global, text: &[u8], followed: bool) -> Result<Option<Line>, LineFault>
    ensures ok { IfOk result (λ found. line_of followed text.now ≡ Some (option_to_list found)) }
    ensures bad { IsErrOf result LineFault.Bad → line_of followed text.now ≡ None }
{
    if !is_utf8(text) {
        return Err(LineFault::Bad);
    }
    if is_silent(text) {
        return Ok(None);
    }
    let line = read_command(alloc, text)?;
    if !is_allowed(followed, &line) {
        return Err(LineFault::Bad);
    }
    Ok(Some(line))
}

fn is_utf8(text: &[u8]) -> bool
    ensures { result ≡ is_utf8 text.now }
{
    str::from_utf8(text).is_ok()
}

/// Whether a line does nothing.
fn is_silent(text: &[u8]) -> bool
    ensures { result ≡ is_silent text.now }
{
    text.is_empty() || text.starts_with(b"#")
}

/// What a line does that is neither empty nor a comment.
fn read_command(alloc: Global, text: &[u8]) -> Result<Line, LineFault>
    ensures ok { IfOk result (λ line. command text.now ≡ Some line) }
    ensures bad { IsErrOf result LineFault.Bad → command text.now ≡ None }
{
    if text == b"pull".as_slice() {
        return Ok(Line::Pull);
    }
    if text == b"drive".as_slice() {
        return Ok(Line::Drive);
    }
    if text == b"sync".as_slice() {
        return Ok(Line::Sync);
    }
    if text == b"local".as_slice() {
        return Ok(Line::Local);
    }
    if text == b"requests".as_slice() {
        return Ok(Line::Requests);
    }
    if text == b"restore".as_slice() {
        return Ok(Line::Restore);
    }
    read_words(alloc, text)
}

/// What a line of more than one word does.
fn read_words(alloc: Global, text: &[u8]) -> Result<Line, LineFault>
    ensures ok { IfOk result (λ line. command_parts (first_word text.now) ≡ Some line) }
    ensures bad { IsErrOf result LineFault.Bad → command_parts (first_word text.now) ≡ None }
{
    let Some((word, rest)) = first_word(text) else {
        return Err(LineFault::Bad);
    };
    if word == b"other".as_slice() {
        return read_other(alloc, rest);
    }
    match read_number_line(word, rest) {
        Some(line) => Ok(line),
        None => Err(LineFault::Bad),
    }
}

/// What a word and a number do to the drive.
fn read_number_line(word: &[u8], rest: &[u8]) -> Option<Line>
    ensures { result ≡ number_line word.now rest.now }
{
    if word == b"page".as_slice() {
        let size = read_number(rest, MOST_PAGE)?;
        return Some(Line::Page(size as u64));
    }
    if word == b"expire".as_slice() {
        let number = read_number(rest, u32::MAX)?;
        return Some(Line::Expire(number as u64));
    }
    if word == b"endsession".as_slice() {
        let session = read_number(rest, u32::MAX)?;
        return Some(Line::EndSession(session as u64));
    }
    None
}

/// What another client does.
fn read_other(alloc: Global, text: &[u8]) -> Result<Line, LineFault>
    ensures ok { IfOk result (λ line. other_parts (first_word text.now) ≡ Some line) }
    ensures bad { IsErrOf result LineFault.Bad → other_parts (first_word text.now) ≡ None }
{
    let Some((word, rest)) = first_word(text) else {
        return Err(LineFault::Bad);
    };
    read_other_line(alloc, word, rest)
}

fn read_other_line(alloc: Global, word: &[u8], rest: &[u8]) -> Result<Line, LineFault>
    ensures ok { IfOk result (λ line. other_line word.now rest.now ≡ Some line) }
    ensures bad { IsErrOf result LineFault.Bad → other_line word.now rest.now ≡ None }
{
    if word == b"put".as_slice() {
        return read_put(alloc, rest);
    }
    if word == b"mkdir".as_slice() {
        let path = read_last_path(alloc, rest)?;
        return Ok(Line::OtherMakeFolder(path));
    }
    if word == b"move".as_slice() {
        return read_move(alloc, rest);
    }
    if word == b"rm".as_slice() {
        let path = read_last_path(alloc, rest)?;
        return Ok(Line::OtherRemove(path));
    }
    Err(LineFault::Bad)
}

/// A path and a content, with a space between them.
fn read_put(alloc: Global, text: &[u8]) -> Result<Line, LineFault>
    ensures ok { IfOk result (λ line. put_parts (first_word text.now) ≡ Some line) }
    ensures bad { IsErrOf result LineFault.Bad → put_parts (first_word text.now) ≡ None }
{
    let Some((word, rest)) = first_word(text) else {
        return Err(LineFault::Bad);
    };
    let path = read_path(alloc, word)?;
    let content = read_content(alloc, rest)?;
    Ok(Line::OtherPut(path, content))
}

/// Two paths, with a space between them.
fn read_move(alloc: Global, text: &[u8]) -> Result<Line, LineFault>
    ensures ok { IfOk result (λ line. move_parts (first_word text.now) ≡ Some line) }
    ensures bad { IsErrOf result LineFault.Bad → move_parts (first_word text.now) ≡ None }
{
    let Some((word, rest)) = first_word(text) else {
        return Err(LineFault::Bad);
    };
    let from = read_path(alloc, word)?;
    let to = read_last_path(alloc, rest)?;
    Ok(Line::OtherMove(from, to))
}
