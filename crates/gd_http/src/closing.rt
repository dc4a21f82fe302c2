//! Whether a request asks that its connection be closed.
ghost use Rattle.std.specs.Prelude.{◌≡◌, reverse};
ghost use Rattle.std.specs.List.{list_any};
ghost use Rattle.httparse.specs.Grammar.{skip_ows, trim_ows};
ghost use Rattle.gd_http.specs.Closing.{is_close, lists_close, is_closing, asks_to_close};

use gd_frame::{Field, RequestFrame};
use gd_names::List;
use gd_target::cut;
use httparse::is_space_or_tab;

fn trim_start(mut text: &[u8]) -> &[u8]
    ensures { result.now ≡ skip_ows text.now }
{
    while let [first, rest @ ..] = text
        && is_space_or_tab(*first)
    {
        text = rest;
    }
    text
}

fn trim_end(mut text: &[u8]) -> &[u8]
    ensures { result.now ≡ reverse (skip_ows (reverse text.now)) }
{
    while let [rest @ .., last] = text
        && is_space_or_tab(*last)
    {
        text = rest;
    }
    text
}

/// The text without the blanks around it.
#[tactic(auto, unfolding(httparse::specs::Grammar::trim_ows))]
fn trimmed(text: &[u8]) -> &[u8]
    ensures { result.now ≡ trim_ows text.now }
{
    trim_end(trim_start(text))
}

#[tactic(auto, unfolding(crate::specs::Closing::is_close))]
fn is_close(word: &[u8]) -> bool
    ensures { result ≡ is_close word.now }
{
    trimmed(word).eq_ignore_ascii_case(b"close")
}

fn lists_close(value: &[u8]) -> bool
    ensures { result ≡ lists_close value.now }
{
    let mut rest = value;
    'words: loop {
        let (word, others) = cut(rest, b',');
        if is_close(word) {
            return true;
        }
        let Some(after) = others else {
            return false;
        };
        rest = after;
    }
}

#[tactic(auto, unfolding(crate::specs::Closing::is_closing))]
fn is_closing(field: &Field) -> bool
    ensures { result ≡ is_closing field.now }
{
    field.name.as_slice().eq_ignore_ascii_case(b"Connection") && lists_close(field.value.as_slice())
}

fn has_closing(fields: &List<Field>) -> bool
    ensures { result ≡ list_any is_closing fields.now }
{
    for field in fields.as_slice() {
        if is_closing(field) {
            return true;
        }
    }
    false
}

/// Whether the connection is to be closed after the reply.
pub fn asks_to_close(frame: &RequestFrame) -> bool
    ensures { result ≡ asks_to_close frame.now }
{
    frame.minor == 0 || has_closing(&frame.fields)
}
