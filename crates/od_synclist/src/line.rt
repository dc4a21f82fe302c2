//! The lines of the file.
ghost use Rattle.std.specs.Prelude.{◌≡◌, ◌∷◌, ◌<◌, ◌==◌, length, position, if◌then◌else◌, Some, None};
ghost use Rattle.std.specs.Str.Lines.{lines, strip_carriage_return};
ghost use Rattle.std.specs.Str.{is_utf8};
ghost use Rattle.od_synclist.specs.Rules.{is_rule, is_mark, is_slash, without_last_slash, is_exclusion, after_mark, is_anchored, after_anchor, is_for_folders, written_components, has_empty_component, is_bad, overlong_line};

/// The line without a CR at its end.
fn without_return(line: &[u8]) -> &[u8]
    ensures { result.now ≡ strip_carriage_return line.now }
{
    match line {
        [front @ .., b'\r'] => front,
        _ => line,
    }
}

/// Where the first LF is.
fn line_end(bytes: &[u8]) -> Option<usize>
    ensures { result ≡ position (λ b. b == 10) bytes.now }
{
    bytes.iter().position(|b| *b == b'\n')
}

/// The first line, and what follows it.
pub fn first_line(bytes: &[u8]) -> (&[u8], &[u8])
    requires { 0 < length bytes.now }
    ensures lines { lines bytes.now ≡ result.0.now ∷ lines result.1.now }
    ensures shorter { length result.1.now < length bytes.now }
{
    match line_end(bytes) {
        Some(at) => (without_return(&bytes[..at]), &bytes[at + 1..]),
        None => (bytes, &[]),
    }
}

/// Whether a line is a rule.
pub fn is_rule(line: &[u8]) -> bool
    ensures { result ≡ is_rule line.now }
{
    match line {
        [] => false,
        [b'#' | b';', ..] => false,
        _ => true,
    }
}

fn is_mark(b: u8) -> bool
    ensures { result ≡ is_mark b }
{
    b == b'!' || b == b'-'
}

/// Whether a rule line is an exclusion.
pub fn is_exclusion(line: &[u8]) -> bool
    ensures { result ≡ is_exclusion line.now }
{
    match line {
        [] => false,
        [first, ..] => is_mark(*first),
    }
}

/// A rule line without its mark.
fn after_mark(line: &[u8]) -> &[u8]
    ensures { result.now ≡ after_mark line.now }
{
    match line {
        [b'!' | b'-', others @ ..] => others,
        _ => line,
    }
}

/// Whether a rule line is anchored.
pub fn is_anchored(line: &[u8]) -> bool
    ensures { result ≡ is_anchored line.now }
{
    matches!(after_mark(line), [b'/', ..])
}

/// A rule line without its mark and its anchor.
fn after_anchor(line: &[u8]) -> &[u8]
    ensures { result.now ≡ after_anchor line.now }
{
    let path = after_mark(line);
    match path {
        [b'/', others @ ..] => others,
        _ => path,
    }
}

/// Whether a rule line is for folders alone.
pub fn is_for_folders(line: &[u8]) -> bool
    ensures { result ≡ is_for_folders line.now }
{
    matches!(after_anchor(line), [.., b'/'])
}

/// The components of a rule line as they are written.
pub fn written(line: &[u8]) -> &[u8]
    ensures { result.now ≡ without_last_slash (after_anchor line.now) }
{
    let path = after_anchor(line);
    match path {
        [front @ .., b'/'] => front,
        _ => path,
    }
}

/// Whether a rule line has an empty component.
fn has_empty_component(line: &[u8]) -> bool
    ensures { result ≡ has_empty_component line.now }
{
    let mut is_empty = true;
    for b in written(line) {
        if *b != b'/' {
            is_empty = false;
        } else if is_empty {
            return true;
        } else {
            is_empty = true;
        }
    }
    is_empty
}

/// Whether the bytes are UTF-8.
fn is_text(bytes: &[u8]) -> bool
    ensures { result ≡ is_utf8 bytes.now }
{
    match str::from_utf8(bytes) {
        Ok(_) => true,
        Err(_) => false,
    }
}

/// Whether a line is a bad one after so many rules.
pub fn is_bad(line: &[u8], rules: usize) -> bool
    ensures { result ≡ is_bad rules line.now }
{
    !is_text(line) || is_rule(line) && (has_empty_component(line) || rules >= 1000)
}
